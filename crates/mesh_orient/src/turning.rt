//! Texts whose elements are turned.
ghost use Rattle.std.specs.Prelude.{◌≡◌, ◌<◌, ◌≤◌, IfOk, All, [], length, map, neg_ℤ, pos, slice_index_or};
ghost use Rattle.macro_file.specs.Limits.{Between};
ghost use Rattle.macro_file.specs.Text.{element_of, macro_of, vertex_of};
ghost use Rattle.std.specs.List.{range_with_len};
ghost use Rattle.mesh_orient.specs.Turns.{element_in, shift_in, turned_element as element_turned, turned_row, turned_text};

use macro_file::{MacroElem, MacroText, MacroVertex};
use std::alloc::{AllocError, Global};

fn turned_corners(row: &[u32; 3], shift: usize) -> [u32; 3]
    requires shift { shift < 3 }
    requires range { All (λ c. c ≤ 65535) row.now }
    ensures turned { result ≡ turned_row 0 shift row.now }
    ensures range { All (λ c. c ≤ 65535) result }
{
    [row[shift % 3], row[(shift + 1) % 3], row[(shift + 2) % 3]]
}

fn turned_labels(row: &[i8; 3], shift: usize) -> [i8; 3]
    requires { shift < 3 }
    ensures { result ≡ turned_row (pos 0) shift row.now }
{
    [row[shift % 3], row[(shift + 1) % 3], row[(shift + 2) % 3]]
}

fn turned_neighbours(row: &[i32; 3], shift: usize) -> [i32; 3]
    requires shift { shift < 3 }
    requires range { All (Between (neg_ℤ (pos 1)) (pos 65535)) row.now }
    ensures turned { result ≡ turned_row (pos 0) shift row.now }
    ensures range { All (Between (neg_ℤ (pos 1)) (pos 65535)) result }
{
    [row[shift % 3], row[(shift + 1) % 3], row[(shift + 2) % 3]]
}

fn turned_element(element: &MacroElem, shift: usize) -> MacroElem
    requires { shift < 3 }
    ensures { element_of result ≡ element_turned shift (element_of element.now) }
{
    MacroElem {
        corners: turned_corners(&element.corners, shift),
        labels: turned_labels(&element.labels, shift),
        neighbours: turned_neighbours(&element.neighbours, shift),
        value: element.value,
    }
}

// By how much an element is turned; not at all, where it has no entry.
fn shift_of(shifts: &[u32], element: usize) -> usize
    ensures shift { result ≡ shift_in shifts.now element }
    ensures small { result < 3 }
{
    let shift = match shifts.get(element) {
        Some(shift) => *shift,
        None => 0,
    };
    (shift % 3) as usize
}

fn vertices(alloc: Global, vertices: &[MacroVertex]) -> Result<Vec<MacroVertex>, AllocError>
    ensures { IfOk result (λ copies. map vertex_of copies.items ≡ map vertex_of vertices.now) }
{
    let mut copies = Vec::with_capacity(alloc, vertices.len())?;
    for vertex in vertices {
        copies.push(MacroVertex {
            x: vertex.x,
            y: vertex.y,
            value: vertex.value,
        })?;
    }
    Ok(copies)
}

fn elements(alloc: Global, text: &MacroText, shifts: &[u32]) -> Result<Vec<MacroElem>, AllocError>
    ensures { IfOk result (λ turned. map element_of turned.items ≡ map (λ r. element_turned (shift_in shifts.now r) (element_in text.now r)) (range_with_len 0 (length text.now.elements.items))) }
{
    let mut turned = Vec::with_capacity(alloc, text.elements.len())?;
    for number in 0..text.elements.len() {
        let shift = shift_of(shifts, number);
        turned.push(turned_element(&text.elements[number], shift))?;
    }
    Ok(turned)
}

/// The text with each element turned.
pub(crate) fn turned(
    alloc: Global,
    text: &MacroText,
    shifts: &[u32],
) -> Result<MacroText, AllocError>
    ensures { IfOk result (λ made. macro_of made ≡ turned_text shifts.now text.now) }
{
    Ok(MacroText {
        vertices: vertices(alloc, &text.vertices)?,
        elements: elements(alloc, text, shifts)?,
        labels_given: text.labels_given,
        neighbours_given: text.neighbours_given,
    })
}

/// The text again.
pub(crate) fn copied(alloc: Global, text: &MacroText) -> Result<MacroText, AllocError>
    ensures same { IfOk result (λ made. macro_of made ≡ macro_of text.now) }
    ensures turned { IfOk result (λ made. macro_of made ≡ turned_text [] text.now) }
{
    let made = turned(alloc, text, &[])?;
    Ok(made)
}
