//! Reads a marks file.
ghost use Rattle.std.specs.Prelude.{◌≡◌, ◌≤◌, IfOk, IfErr, length, Ok};
ghost use Rattle.csv.specs.Records.{fields_of};
ghost use Rattle.mark_file.specs.Meaning.{AreMarks, IsCause, marks_meaning, rounds_read, GivesRounds, IsRefused};
ghost use Rattle.mark_file.specs.Rows.{round_of};
ghost use Rattle.mark_file.specs.Unread.{unread, IsSteady};

use crate::refusal::MarkRefusal;
use crate::rounds::take_row;
use crate::row::is_header;
use crate::source::{next_row, open};
use csv::{ByteRecord, Reader};
use mesh_names::rows::RoundMarks;
use std::alloc::Global;

/// The rounds that the bytes ask for: entry `i` is round `i + 1`, and a round without rows is
/// empty. There are at most 65,535.
///
/// The records are those that `csv` reads with a comma and a double quote. A byte order mark at
/// the start and empty lines are dropped.
pub fn read_marks(alloc: Global, bytes: &[u8]) -> Result<Vec<RoundMarks>, MarkRefusal>
    requires { length bytes.now ≤ 67108864 }
    ensures ok { IfOk result (λ rounds. marks_meaning bytes.now ≡ Ok (rounds_read rounds.items)) }
    ensures formed { IfOk result (λ rounds. AreMarks (rounds_read rounds.items)) }
    ensures err { IfErr result (IsCause bytes.now) }
{
    let mut reader = open(alloc, bytes);
    let mut row = ByteRecord::new(alloc);
    if !next_row(&mut reader, &mut row)? || !is_header(&row) {
        return Err(MarkRefusal::BadHeader { row: 1 });
    }
    read_rows(alloc, &mut reader, &mut row)
}

// Reads the rows after the header, which is in `row`.
fn read_rows(
    alloc: Global,
    reader: &mut Reader<&[u8]>,
    row: &mut ByteRecord,
) -> Result<Vec<RoundMarks>, MarkRefusal>
    requires steady { IsSteady reader.old }
    requires first { round_of (fields_of row.old) ≡ 0 }
    ensures ok { IfOk result (λ rounds. GivesRounds (fields_of row.old) (unread reader.old) (rounds_read rounds.items)) }
    ensures err { IfErr result (IsRefused (fields_of row.old) (unread reader.old)) }
{
    let mut rounds = Vec::new(alloc);
    let mut number = 1;
    'rows: while next_row(reader, row)? {
        number += 1;
        take_row(alloc, &mut rounds, number, row)?;
    }
    Ok(rounds)
}
