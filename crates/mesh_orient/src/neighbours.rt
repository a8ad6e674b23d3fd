//! The elements across the edges of each element.
ghost use Rattle.std.specs.Prelude.{◌<◌};

use macro_file::{MacroElem, MacroText};
use std::alloc::{AllocError, Global};

/// The elements across edges 0, 1 and 2; `None` on the boundary.
pub(crate) type Row = [Option<u32>; 3];

// The two ends of an edge, the smaller number first.
fn ends(element: &MacroElem, edge: usize) -> (u32, u32)
    requires { edge < 3 }
{
    let first = element.corners[(edge + 1) % 3];
    let second = element.corners[(edge + 2) % 3];
    if first < second {
        (first, second)
    } else {
        (second, first)
    }
}

// The edges of all elements by their ends, each with its place: three times its element, and its number.
fn edges(alloc: Global, text: &MacroText) -> Result<Vec<((u32, u32), u32)>, AllocError> {
    let count = text.elements.len() * 3;
    let mut edges = Vec::with_capacity(alloc, count)?;
    for place in 0..count {
        edges.push((ends(&text.elements[place / 3], place % 3), place as u32))?;
    }
    edges.sort_unstable();
    Ok(edges)
}

// Writes down which element lies across the edge at a place.
fn write(rows: &mut [Row], place: u32, element: u32) {
    if let Some(row) = rows.get_mut((place / 3) as usize) {
        row[(place % 3) as usize] = Some(element);
    }
}

/// The rows of all elements. Takes n log n steps for n elements.
pub(crate) fn rows(alloc: Global, text: &MacroText) -> Result<Vec<Row>, AllocError> {
    let edges = edges(alloc, text)?;
    let mut rows = vec![in alloc; [None; 3]; text.elements.len()]?;
    for i in 1..edges.len() {
        let (before, first) = edges[i - 1];
        let (ends, second) = edges[i];
        if before == ends {
            write(&mut rows, first, second / 3);
            write(&mut rows, second, first / 3);
        }
    }
    Ok(rows)
}
