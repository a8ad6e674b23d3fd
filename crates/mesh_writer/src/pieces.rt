//! Lines, made in pieces by several threads and joined in order.
ghost use Rattle.std.specs.Prelude.{◌≡◌, ◌++◌, IfOk, OnOk, map};
ghost use Rattle.std.specs.List.{flat_map};
ghost use Rattle.rayon.specs.Lists.{chunks_of};
ghost use Rattle.macro_file.specs.Written.{lines_text};

use crate::line::Line;
use rayon::prelude::*;
use std::alloc::{AllocError, Global};
use std::thread::Threads;

// How many lines a piece has.
const RUN: usize = 1024;

// The lines of some items.
fn piece<L: Line>(alloc: Global, items: &[L]) -> Result<Vec<u8>, AllocError>
    ensures { IfOk result (λ text. text.items ≡ lines_text (map L.line items.now)) }
{
    let mut text = Vec::new(alloc);
    text.try_reserve(items.len().saturating_mul(L::ROOM))?;
    for item in items {
        item.put(&mut text)?;
    }
    Ok(text)
}

// The pieces, in order.
fn pieces<R: Threads + Sync, L: Line + Sync>(
    rt: &R,
    alloc: Global,
    items: &[L],
) -> Result<Vec<Vec<u8>>, AllocError>
    ensures { IfOk result (λ pieces. map (λ piece. piece.items) pieces.items ≡ map (λ run. lines_text (map L.line run)) (chunks_of 1024 items.now)) }
{
    let made = items
        .par_chunks(RUN)
        .map(
            |run: &[L]| -> Result<Vec<u8>, AllocError>
                ensures { IfOk result (λ text. text.items ≡ lines_text (map L.line run.now)) }
            { piece(alloc, run) },
        )
        .with_min_len(1)
        .collect::<Result<Vec<Vec<u8>>, AllocError>>(rt, alloc)?;
    made
}

// Appends the pieces one after another.
fn join(to: &mut Vec<u8>, pieces: &[Vec<u8>]) -> Result<(), AllocError>
    ensures { OnOk result (to.new.items ≡ to.old.items ++ flat_map (λ piece. piece.items) pieces.now) }
{
    for piece in pieces {
        to.extend_from_slice(piece)?;
    }
    Ok(())
}

/// Appends a line for each item.
pub(crate) fn put_lines<R: Threads + Sync, L: Line + Sync>(
    rt: &R,
    alloc: Global,
    to: &mut Vec<u8>,
    items: &[L],
) -> Result<(), AllocError>
    ensures { OnOk result (to.new.items ≡ to.old.items ++ lines_text (map L.line items.now)) }
{
    let pieces = pieces(rt, alloc, items)?;
    join(to, pieces.as_slice())
}
