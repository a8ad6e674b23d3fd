//! The rounds that rows are put into.
ghost use Rattle.std.specs.Prelude.{◌≡◌, ◌≢◌, ◌≤◌, ◌<◌, ◌+◌, ◌-◌, ◌++◌, [], ◌∷◌, List, length, map, IfErr, OnOk, Ok, Err};
ghost use Rattle.std.specs.List.{range_with_len};
ghost use Rattle.csv.specs.Records.{fields_of};
ghost use Rattle.mark_file.specs.Rows.{row_meaning};
ghost use Rattle.mark_file.specs.Meaning.{empty_round, rounds_of, rounds_read, TakesRow};

use crate::refusal::MarkRefusal;
use crate::row::{RoundRow, read_row};
use csv::ByteRecord;
use mesh_names::rows::{MarkRow, RoundMarks};
use std::alloc::Global;

// Puts the row of this number into its round, after the rows before it.
pub(crate) fn take_row(
    alloc: Global,
    rounds: &mut Vec<RoundMarks>,
    number: u32,
    row: &ByteRecord,
) -> Result<(), MarkRefusal>
    requires { length rounds.old.items ≤ 65535 }
    ensures ok { OnOk result (TakesRow number (fields_of row.now) (rounds_read rounds.old.items) (rounds_read rounds.new.items)) }
    ensures err { IfErr result (λ e. e ≢ MarkRefusal.Memory → row_meaning number (length rounds.old.items) (fields_of row.now) ≡ Err e) }
{
    let RoundRow {
        round,
        row,
        what,
        place,
        number,
    } = read_row(number, rounds.len() as u32, row)?;
    let count = round as usize;
    fill_rounds(alloc, rounds, count)?;
    let row = MarkRow {
        row,
        what,
        place,
        number,
    };
    if rounds[count - 1].rows.push(row).is_err() {
        return Err(MarkRefusal::Memory);
    }
    Ok(())
}

// Adds rounds without rows, until there are so many.
fn fill_rounds(alloc: Global, rounds: &mut Vec<RoundMarks>, count: usize) -> Result<(), MarkRefusal>
    requires low { length rounds.old.items ≤ count }
    requires high { count ≤ 65535 }
    ensures ok { OnOk result (rounds_read rounds.new.items ≡ rounds_read rounds.old.items ++ map empty_round (range_with_len (length rounds.old.items + 1) (count - length rounds.old.items))) }
    ensures err { IfErr result (λ e. e ≡ MarkRefusal.Memory) }
{
    'fill: while rounds.len() < count {
        let number = rounds.len() as u32 + 1;
        let rows = Vec::new(alloc);
        if rounds.push(RoundMarks { number, rows }).is_err() {
            return Err(MarkRefusal::Memory);
        }
    }
    Ok(())
}
