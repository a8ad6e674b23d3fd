//! Triangles without area, and the other faults of single elements.
ghost use Rattle.std.specs.Prelude.{◌≡◌, ◌-ℤ◌, ◌*ℤ◌, ◌↔◌, IsTrue, None, length, pos};
ghost use Rattle.macro_file.specs.Limits.{AtMost};
ghost use Rattle.compat_check.specs.Faults.{IsFirst, IsFlat, IsOutside, IsRepeated, doubled_area, triple_in};

use macro_file::MacroVertex;

fn is_outside(triple: &[u32; 3], count: u32) -> bool
    ensures { IsTrue result ↔ IsOutside count triple.now }
{
    triple[0] >= count || triple[1] >= count || triple[2] >= count
}

fn is_repeated(triple: &[u32; 3]) -> bool
    ensures { IsTrue result ↔ IsRepeated triple.now }
{
    triple[0] == triple[1] || triple[1] == triple[2] || triple[0] == triple[2]
}

// The way from one coordinate to another.
fn span(from: i64, to: i64) -> i128
    requires { AtMost 4096000000000000000 from × AtMost 4096000000000000000 to }
    ensures way { result ≡ to -ℤ from }
    ensures small { AtMost 8192000000000000000 result }
{
    i128::from(to) - i128::from(from)
}

// The way across from one vertex to a second, times the way up from it to a third: in 128-bit
// numbers, which hold the area of every triangle of vertices.
fn rectangle(from: &MacroVertex, across: &MacroVertex, up: &MacroVertex) -> i128
    ensures { result ≡ (across.now.x -ℤ from.now.x) *ℤ (up.now.y -ℤ from.now.y) }
{
    span(from.x, across.x) * span(from.y, up.y)
}

/// Whether three vertices lie on a line.
pub fn are_in_line(first: &MacroVertex, second: &MacroVertex, third: &MacroVertex) -> bool
    ensures { IsTrue result ↔ (doubled_area (first.now.x, first.now.y) (second.now.x, second.now.y) (third.now.x, third.now.y) ≡ pos 0) }
{
    rectangle(first, second, third) == rectangle(first, third, second)
}

fn is_flat(vertices: &[MacroVertex], triple: &[u32; 3]) -> bool
    requires { IsOutside (length vertices.now) triple.now → ⊥ }
    ensures { IsTrue result ↔ IsFlat vertices.now triple.now }
{
    are_in_line(
        &vertices[triple[0] as usize],
        &vertices[triple[1] as usize],
        &vertices[triple[2] as usize],
    )
}

/// The first element with a corner that is no vertex.
pub(crate) fn first_outside(triples: &[[u32; 3]], count: u32) -> Option<usize>
    ensures { IsFirst (length triples.now) (λ r. IsOutside count (triple_in triples.now r)) result }
{
    for (element, triple) in triples.iter().enumerate() {
        if is_outside(triple, count) {
            return Some(element);
        }
    }
    None
}

/// The first element with two equal corners.
pub(crate) fn first_repeated(triples: &[[u32; 3]]) -> Option<usize>
    ensures { IsFirst (length triples.now) (λ r. IsRepeated (triple_in triples.now r)) result }
{
    for (element, triple) in triples.iter().enumerate() {
        if is_repeated(triple) {
            return Some(element);
        }
    }
    None
}

/// The first element whose corners lie on a line.
pub(crate) fn first_flat(vertices: &[MacroVertex], triples: &[[u32; 3]]) -> Option<usize>
    requires { IsFirst (length triples.now) (λ r. IsOutside (length vertices.now) (triple_in triples.now r)) None }
    ensures { IsFirst (length triples.now) (λ r. IsFlat vertices.now (triple_in triples.now r)) result }
{
    for (element, triple) in triples.iter().enumerate() {
        if is_flat(vertices, triple) {
            return Some(element);
        }
    }
    None
}
