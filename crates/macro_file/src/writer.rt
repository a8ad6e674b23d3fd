//! The bytes of a macro text.
ghost use Rattle.std.specs.Prelude.{◌≡◌, ◌++◌, ◌∷◌, [], ◌≤◌, ◌<◌, ◌^◌, length, map, pos, codes, OnOk, IfOk, IfErr, Ok};
ghost use Rattle.std.specs.Fmt.{signed_decimal};
ghost use Rattle.mesh_io.specs.Decimals.{written_units};
ghost use Rattle.macro_file.specs.Meaning.{meaning};
ghost use Rattle.macro_file.specs.Text.{vertex_of, element_of, macro_of};
ghost use Rattle.macro_file.specs.Written.{lines_text, numbers_line, point_line, list_lines, head_lines, label_lines, neighbour_lines, macro_bytes};

use crate::refusal::MacroRefusal;
use crate::text::{MacroElem, MacroText, MacroVertex};
use mesh_io::{put_decimal, put_whole};
use std::alloc::Global;

fn put_text(to: &mut Vec<u8>, text: &str) -> Result<(), MacroRefusal>
    ensures ok { OnOk result (to.new.items ≡ to.old.items ++ text.now) }
    ensures err { IfErr result (λ r. r ≡ MacroRefusal.Memory) }
{
    if to.extend_from_slice(text.as_bytes()).is_err() {
        return Err(MacroRefusal::Memory);
    }
    Ok(())
}

fn put_number(to: &mut Vec<u8>, number: i64) -> Result<(), MacroRefusal>
    ensures ok { OnOk result (to.new.items ≡ to.old.items ++ signed_decimal number) }
    ensures err { IfErr result (λ r. r ≡ MacroRefusal.Memory) }
{
    match put_whole(to, number) {
        Ok(()) => Ok(()),
        Err(_) => Err(MacroRefusal::Memory),
    }
}

fn put_coordinate(to: &mut Vec<u8>, units: i64) -> Result<(), MacroRefusal>
    ensures ok { OnOk result (to.new.items ≡ to.old.items ++ written_units units) }
    ensures err { IfErr result (λ r. r ≡ MacroRefusal.Memory) }
{
    match put_decimal(to, units) {
        Ok(()) => Ok(()),
        Err(_) => Err(MacroRefusal::Memory),
    }
}

// A line of one number.
fn put_value(to: &mut Vec<u8>, number: i64) -> Result<(), MacroRefusal>
    ensures ok { OnOk result (to.new.items ≡ to.old.items ++ (signed_decimal number ++ 10 ∷ [])) }
    ensures err { IfErr result (λ r. r ≡ MacroRefusal.Memory) }
{
    put_number(to, number)?;
    put_text(to, "\n")
}

// A line of three numbers.
fn put_three(to: &mut Vec<u8>, a: i64, b: i64, c: i64) -> Result<(), MacroRefusal>
    ensures ok { OnOk result (to.new.items ≡ to.old.items ++ (numbers_line (a ∷ b ∷ c ∷ []) ++ 10 ∷ [])) }
    ensures err { IfErr result (λ r. r ≡ MacroRefusal.Memory) }
{
    put_number(to, a)?;
    put_text(to, " ")?;
    put_number(to, b)?;
    put_text(to, " ")?;
    put_number(to, c)?;
    put_text(to, "\n")
}

// A line with the decimals of a vertex.
fn put_point(to: &mut Vec<u8>, vertex: &MacroVertex) -> Result<(), MacroRefusal>
    ensures ok { OnOk result (to.new.items ≡ to.old.items ++ (point_line (vertex_of vertex.now) ++ 10 ∷ [])) }
    ensures err { IfErr result (λ r. r ≡ MacroRefusal.Memory) }
{
    put_coordinate(to, vertex.x)?;
    put_text(to, " ")?;
    put_coordinate(to, vertex.y)?;
    put_text(to, "\n")
}

fn put_corners(to: &mut Vec<u8>, corners: &[u32; 3]) -> Result<(), MacroRefusal>
    ensures ok { OnOk result (to.new.items ≡ to.old.items ++ (numbers_line (map pos corners.now) ++ 10 ∷ [])) }
    ensures err { IfErr result (λ r. r ≡ MacroRefusal.Memory) }
{
    let [a, b, c] = *corners;
    put_three(to, i64::from(a), i64::from(b), i64::from(c))
}

fn put_labels(to: &mut Vec<u8>, labels: &[i8; 3]) -> Result<(), MacroRefusal>
    ensures ok { OnOk result (to.new.items ≡ to.old.items ++ (numbers_line labels.now ++ 10 ∷ [])) }
    ensures err { IfErr result (λ r. r ≡ MacroRefusal.Memory) }
{
    let [a, b, c] = *labels;
    put_three(to, i64::from(a), i64::from(b), i64::from(c))
}

fn put_neighbours(to: &mut Vec<u8>, neighbours: &[i32; 3]) -> Result<(), MacroRefusal>
    ensures ok { OnOk result (to.new.items ≡ to.old.items ++ (numbers_line neighbours.now ++ 10 ∷ [])) }
    ensures err { IfErr result (λ r. r ≡ MacroRefusal.Memory) }
{
    let [a, b, c] = *neighbours;
    put_three(to, i64::from(a), i64::from(b), i64::from(c))
}

// The list of the coordinates, with its key.
fn put_coordinates(to: &mut Vec<u8>, vertices: &[MacroVertex]) -> Result<(), MacroRefusal>
    ensures ok { OnOk result (to.new.items ≡ to.old.items ++ lines_text (list_lines (codes "vertex coordinates:") point_line (map vertex_of vertices.now))) }
    ensures err { IfErr result (λ r. r ≡ MacroRefusal.Memory) }
{
    put_text(to, "vertex coordinates:\n")?;
    for vertex in vertices {
        put_point(to, vertex)?;
    }
    put_text(to, "\n")
}

// The list of the corners, with its key.
fn put_triples(to: &mut Vec<u8>, elements: &[MacroElem]) -> Result<(), MacroRefusal>
    ensures ok { OnOk result (to.new.items ≡ to.old.items ++ lines_text (list_lines (codes "element vertices:") (λ e. numbers_line (map pos e.corners)) (map element_of elements.now))) }
    ensures err { IfErr result (λ r. r ≡ MacroRefusal.Memory) }
{
    put_text(to, "element vertices:\n")?;
    for element in elements {
        put_corners(to, &element.corners)?;
    }
    put_text(to, "\n")
}

// The list of the labels, with its key.
fn put_boundaries(to: &mut Vec<u8>, elements: &[MacroElem]) -> Result<(), MacroRefusal>
    ensures ok { OnOk result (to.new.items ≡ to.old.items ++ lines_text (list_lines (codes "element boundaries:") (λ e. numbers_line e.labels) (map element_of elements.now))) }
    ensures err { IfErr result (λ r. r ≡ MacroRefusal.Memory) }
{
    put_text(to, "element boundaries:\n")?;
    for element in elements {
        put_labels(to, &element.labels)?;
    }
    put_text(to, "\n")
}

// The list of the neighbours, with its key.
fn put_across(to: &mut Vec<u8>, elements: &[MacroElem]) -> Result<(), MacroRefusal>
    ensures ok { OnOk result (to.new.items ≡ to.old.items ++ lines_text (list_lines (codes "element neighbours:") (λ e. numbers_line e.neighbours) (map element_of elements.now))) }
    ensures err { IfErr result (λ r. r ≡ MacroRefusal.Memory) }
{
    put_text(to, "element neighbours:\n")?;
    for element in elements {
        put_neighbours(to, &element.neighbours)?;
    }
    put_text(to, "\n")
}

// The list of the vertices' values, with its key.
fn put_vertex_values(to: &mut Vec<u8>, vertices: &[MacroVertex]) -> Result<(), MacroRefusal>
    ensures ok { OnOk result (to.new.items ≡ to.old.items ++ lines_text (list_lines (codes "vertex values:") (λ v. signed_decimal v.value) (map vertex_of vertices.now))) }
    ensures err { IfErr result (λ r. r ≡ MacroRefusal.Memory) }
{
    put_text(to, "vertex values:\n")?;
    for vertex in vertices {
        put_value(to, vertex.value)?;
    }
    put_text(to, "\n")
}

// The list of the elements' values, with its key.
fn put_element_values(to: &mut Vec<u8>, elements: &[MacroElem]) -> Result<(), MacroRefusal>
    ensures ok { OnOk result (to.new.items ≡ to.old.items ++ lines_text (codes "element values:" ∷ map (λ e. signed_decimal e.value) (map element_of elements.now))) }
    ensures err { IfErr result (λ r. r ≡ MacroRefusal.Memory) }
{
    put_text(to, "element values:\n")?;
    for element in elements {
        put_value(to, element.value)?;
    }
    Ok(())
}

// The dimensions and the counts.
fn put_head(to: &mut Vec<u8>, vertices: usize, elements: usize) -> Result<(), MacroRefusal>
    requires { (vertices ≤ 65535) × (elements ≤ 65535) }
    ensures ok { OnOk result (to.new.items ≡ to.old.items ++ lines_text (head_lines vertices elements)) }
    ensures err { IfErr result (λ r. r ≡ MacroRefusal.Memory) }
{
    put_text(to, "DIM: 2\nDIM_OF_WORLD: 2\n\nnumber of vertices: ")?;
    put_number(to, vertices as i64)?;
    put_text(to, "\nnumber of elements: ")?;
    put_number(to, elements as i64)?;
    put_text(to, "\n\n")
}

fn put_given_labels(to: &mut Vec<u8>, text: &MacroText) -> Result<(), MacroRefusal>
    ensures ok { OnOk result (to.new.items ≡ to.old.items ++ lines_text (label_lines (macro_of text.now))) }
    ensures err { IfErr result (λ r. r ≡ MacroRefusal.Memory) }
{
    if text.labels_given {
        put_boundaries(to, text.elements.as_slice())
    } else {
        Ok(())
    }
}

fn put_given_neighbours(to: &mut Vec<u8>, text: &MacroText) -> Result<(), MacroRefusal>
    ensures ok { OnOk result (to.new.items ≡ to.old.items ++ lines_text (neighbour_lines (macro_of text.now))) }
    ensures err { IfErr result (λ r. r ≡ MacroRefusal.Memory) }
{
    if text.neighbours_given {
        put_across(to, text.elements.as_slice())
    } else {
        Ok(())
    }
}

/// The bytes of a macro text: read again, they are the same text.
pub fn put_macro(alloc: Global, text: &MacroText) -> Result<Vec<u8>, MacroRefusal>
    ensures ok { IfOk result (λ v. v.items ≡ macro_bytes (macro_of text.now)) }
    ensures again { IfOk result (λ v. meaning v.items ≡ Ok (macro_of text.now)) }
    ensures err { IfErr result (λ r. r ≡ MacroRefusal.Memory) }
{
    let vertices = text.vertices.as_slice();
    let elements = text.elements.as_slice();
    let mut to = Vec::new(alloc);
    put_head(&mut to, vertices.len(), elements.len())?;
    put_coordinates(&mut to, vertices)?;
    put_triples(&mut to, elements)?;
    put_given_labels(&mut to, text)?;
    put_given_neighbours(&mut to, text)?;
    put_vertex_values(&mut to, vertices)?;
    put_element_values(&mut to, elements)?;
    Ok(to)
}
