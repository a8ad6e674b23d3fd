//! Elements cut into pieces.
ghost use Rattle.std.specs.Prelude.{◌≡◌, ◌+◌, ◌*◌, ◌<◌, ◌≤◌, ◌^◌, IfOk, None, [], length, map, pos, slice_index_or};
ghost use Rattle.std.specs.List.{range_with_len};
ghost use Rattle.macro_file.specs.Limits.{AtMost};
ghost use Rattle.macro_file.specs.Text.{element_of};
ghost use Rattle.mesh_names.specs.Validity.{ends_of};
ghost use Rattle.compat_check.specs.Checks.{AreEdgeLabels, HasOutside, count_of};
ghost use Rattle.compat_check.specs.Faults.{IsFirst, IsOutside};
ghost use Rattle.compat_check.specs.Meshes.{edge_of};
ghost use Rattle.mesh_mend.specs.Mended.{piece as piece_of_number, piece_of as piece_of_element, share as share_of};
ghost use Rattle.mesh_mend.specs.Refusals.{Fits};

use macro_file::{MacroElem, MacroText};
use std::alloc::{AllocError, Global};

/// The two ends of an edge, in the sense of the triple.
pub(crate) fn ends(triple: &[u32; 3], edge: usize) -> (u32, u32)
    requires { edge < 3 }
    ensures { result ≡ ends_of triple.now (edge_of edge) }
{
    let [first, second, third] = *triple;
    match edge {
        0 => (second, third),
        1 => (third, first),
        _ => (first, second),
    }
}

// What the piece at an edge has of its element's value.
fn share(value: i64, edge: usize) -> i64
    requires value { AtMost (2 ^ 55) value }
    requires edge { edge < 3 }
    ensures share { result ≡ share_of value (edge_of edge) }
    ensures small { AtMost (2 ^ 55) result }
{
    let quarter = value >> 2;
    if edge == 2 {
        value - 2 * quarter
    } else {
        quarter
    }
}

// The piece of an element at an edge.
fn piece_of(element: &MacroElem, label: i8, centre: u32, edge: usize) -> MacroElem
    requires corners { IsOutside 65535 element.now.corners → ⊥ }
    requires centre { centre ≤ 65535 }
    requires edge { edge < 3 }
    ensures { element_of result ≡ piece_of_element element.now.corners centre label element.now.value (edge_of edge) }
{
    let (from, to) = ends(&element.corners, edge);
    MacroElem {
        corners: [from, to, centre],
        labels: [0, 0, label],
        neighbours: [0; 3],
        value: share(element.value, edge),
    }
}

fn label_at(labels: &[[i8; 3]], element: usize, edge: usize) -> i8
    requires { (element < length labels.now) × (edge < 3) }
    ensures { result ≡ slice_index_or (slice_index_or labels.now element []) edge (pos 0) }
{
    labels[element][edge]
}

// The piece of this number.
fn piece(text: &MacroText, labels: &[[i8; 3]], number: usize) -> MacroElem
    requires inside { IsFirst (count_of text.now) (HasOutside text.now) None }
    requires fits { Fits text.now }
    requires labels { AreEdgeLabels text.now labels.now }
    requires number { number < count_of text.now * 3 }
    ensures { element_of result ≡ piece_of_number text.now number }
{
    let element = number / 3;
    let edge = number % 3;
    let centre = (text.vertices.len() + element) as u32;
    piece_of(
        &text.elements[element],
        label_at(labels, element, edge),
        centre,
        edge,
    )
}

/// The pieces of all elements, in order.
pub(crate) fn pieces(
    alloc: Global,
    text: &MacroText,
    labels: &[[i8; 3]],
) -> Result<Vec<MacroElem>, AllocError>
    requires inside { IsFirst (count_of text.now) (HasOutside text.now) None }
    requires fits { Fits text.now }
    requires labels { AreEdgeLabels text.now labels.now }
    ensures { IfOk result (λ pieces. map element_of pieces.items ≡ map (piece_of_number text.now) (range_with_len 0 (count_of text.now * 3))) }
{
    let count = text.elements.len() * 3;
    let mut pieces = Vec::with_capacity(alloc, count)?;
    for number in 0..count {
        pieces.push(piece(text, labels, number))?;
    }
    Ok(pieces)
}
