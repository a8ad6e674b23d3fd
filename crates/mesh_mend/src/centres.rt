//! The centres of elements.
ghost use Rattle.std.specs.Prelude.{◌≡◌, ◌+ℤ◌, ◌++◌, IfOk, None, length, map};
ghost use Rattle.macro_file.specs.Limits.{AtMost};
ghost use Rattle.macro_file.specs.Text.{vertex_of};
ghost use Rattle.compat_check.specs.Faults.{IsFirst, IsOutside, triple_in};
ghost use Rattle.compat_check.specs.Points.{half};
ghost use Rattle.mesh_mend.specs.Centres.{centre_at as centre_of_triple, centre_between as centre_of_vertices, centre_of as centre_of_numbers};

use macro_file::{MacroElem, MacroVertex};
use std::alloc::{AllocError, Global};

// The middle of two numbers, rounded down.
fn middle(first: i64, second: i64) -> i64
    requires first { AtMost 4096000000000000000 first }
    requires second { AtMost 4096000000000000000 second }
    ensures { result ≡ half (first +ℤ second) }
{
    (first + second) >> 1
}

fn centre_of(first: i64, second: i64, third: i64) -> i64
    requires first { AtMost 4096000000000000000 first }
    requires second { AtMost 4096000000000000000 second }
    requires third { AtMost 4096000000000000000 third }
    ensures { result ≡ centre_of_numbers first second third }
{
    middle(middle(first, second), third)
}

fn centre_between(first: &MacroVertex, second: &MacroVertex, third: &MacroVertex) -> MacroVertex
    ensures { vertex_of result ≡ centre_of_vertices (vertex_of first.now) (vertex_of second.now) (vertex_of third.now) }
{
    MacroVertex {
        x: centre_of(first.x, second.x, third.x),
        y: centre_of(first.y, second.y, third.y),
        value: centre_of(first.value, second.value, third.value),
    }
}

fn centre_at(vertices: &[MacroVertex], triple: &[u32; 3]) -> MacroVertex
    requires { IsOutside (length vertices.now) triple.now → ⊥ }
    ensures { vertex_of result ≡ centre_of_triple vertices.now triple.now }
{
    centre_between(
        &vertices[triple[0] as usize],
        &vertices[triple[1] as usize],
        &vertices[triple[2] as usize],
    )
}

/// The centre of each element.
pub(crate) fn centres(
    alloc: Global,
    vertices: &[MacroVertex],
    elements: &[MacroElem],
) -> Result<Vec<MacroVertex>, AllocError>
    requires { IsFirst (length elements.now) (λ r. IsOutside (length vertices.now) (triple_in (map (λ e. e.corners) elements.now) r)) None }
    ensures { IfOk result (λ centres. map vertex_of centres.items ≡ map (centre_of_triple vertices.now) (map (λ e. e.corners) elements.now)) }
{
    let mut centres = Vec::with_capacity(alloc, elements.len())?;
    for element in elements {
        centres.push(centre_at(vertices, &element.corners))?;
    }
    Ok(centres)
}

fn copied(alloc: Global, vertices: &[MacroVertex]) -> Result<Vec<MacroVertex>, AllocError>
    ensures { IfOk result (λ copies. map vertex_of copies.items ≡ map vertex_of vertices.now) }
{
    let mut copies = Vec::with_capacity(alloc, vertices.len())?;
    for vertex in vertices {
        copies.push(MacroVertex {
            x: vertex.x,
            y: vertex.y,
            value: vertex.value,
        })?;
    }
    Ok(copies)
}

/// The vertices, and after them the centres.
pub(crate) fn joined(
    alloc: Global,
    vertices: &[MacroVertex],
    mut centres: Vec<MacroVertex>,
) -> Result<Vec<MacroVertex>, AllocError>
    ensures { IfOk result (λ all. map vertex_of all.items ≡ map vertex_of vertices.now ++ map vertex_of centres.items) }
{
    let mut all = copied(alloc, vertices)?;
    all.append(&mut centres)?;
    Ok(all)
}
