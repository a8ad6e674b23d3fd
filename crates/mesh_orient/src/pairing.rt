//! Pairs of elements, and how each element is to be turned.
use crate::neighbours::{Row, rows};
use crate::search::{Mates, Search, at, is_at_boundary, put, row_of};
use macro_file::MacroText;
use std::alloc::{AllocError, Global};

// Pairs an element with the first neighbour that is in no pair.
fn pair_first(rows: &[Row], mates: &mut [Option<u32>], element: u32) {
    for other in row_of(rows, element) {
        if let Some(other) = other {
            if at(mates, other).is_none() {
                put(mates, element, Some(other));
                put(mates, other, Some(element));
                return;
            }
        }
    }
}

// The pairs of so many elements: in order, and then along alternating paths.
fn mates(alloc: Global, rows: &[Row], count: u32) -> Result<Mates, AllocError> {
    let mut mates = vec![in alloc; None; rows.len()]?;
    for element in 0..count {
        if at(&mates, element).is_none() {
            pair_first(rows, &mut mates, element);
        }
    }
    let mut search = Search::new(alloc, count)?;
    for element in 0..count {
        if at(&mates, element).is_none() && !is_at_boundary(rows, element) {
            search.pair(rows, &mut mates, element)?;
        }
    }
    Ok(mates)
}

// By how much an element is turned, so that the edge to its mate, or else its first edge on the boundary,
// becomes edge 2.
fn shift(row: &Row, mate: Option<u32>) -> u32 {
    if row[0] == mate {
        1
    } else if row[1] == mate {
        2
    } else {
        0
    }
}

/// How each element is to be turned.
pub(crate) fn shifts(alloc: Global, text: &MacroText) -> Result<Vec<u32>, AllocError> {
    let rows = rows(alloc, text)?;
    let mates = mates(alloc, &rows, text.elements.len() as u32)?;
    let mut shifts = Vec::with_capacity(alloc, rows.len())?;
    for (row, mate) in rows.iter().zip(mates.iter()) {
        shifts.push(shift(row, *mate))?;
    }
    Ok(shifts)
}
