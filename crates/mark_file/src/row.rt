//! The rows of a marks file, one by one.
ghost use Rattle.std.specs.Prelude.{◌≡◌};
ghost use Rattle.csv.specs.Records.{fields_of};
ghost use Rattle.mark_file.specs.Rows as spec;

use crate::field::{number_in, place_in, round_in, trimmed, what_in};
use crate::refusal::MarkRefusal;
use csv::ByteRecord;
use mesh_names::rows::{Place, What};

/// The last row that a file may have; the header is row 1.
const LAST_ROW: u32 = 1_048_577;

/// How many fields each row has.
const FIELDS: usize = 4;

// An accepted row: its round, and what it asks for there.
#[derive(Clone, Copy)]
pub(crate) struct RoundRow {
    pub(crate) round: u32,
    pub(crate) row: u32,
    pub(crate) what: What,
    pub(crate) place: Place,
    pub(crate) number: i64,
}

// A field without its blanks, and no bytes where there is no such field.
fn field_of(row: &ByteRecord, at: usize) -> &[u8]
    ensures { result.now ≡ spec.field_of (fields_of row.now) at }
{
    match row.get(at) {
        Some(field) => trimmed(field),
        None => &[],
    }
}

// Whether the field is this word.
fn is_word(row: &ByteRecord, at: usize, word: &str) -> bool
    ensures { result ≡ spec.is_word (fields_of row.now) at word.now }
{
    field_of(row, at) == word.as_bytes()
}

// Whether this is the header.
pub(crate) fn is_header(row: &ByteRecord) -> bool
    ensures { result ≡ spec.is_header (fields_of row.now) }
{
    row.len() == FIELDS
        && is_word(row, 0, "round")
        && is_word(row, 1, "what")
        && is_word(row, 2, "where")
        && is_word(row, 3, "number")
}

// What the row of this number says after a row of the round `before`.
#[tactic(auto, unfolding(crate::specs::Rows::row_meaning))]
pub(crate) fn read_row(number: u32, before: u32, row: &ByteRecord) -> Result<RoundRow, MarkRefusal>
    ensures { result ≡ spec.row_meaning number before (fields_of row.now) }
{
    if number > LAST_ROW {
        return Err(MarkRefusal::TooMany { row: number });
    }
    if row.len() != FIELDS {
        return Err(MarkRefusal::BadFields { row: number });
    }
    let Some(round) = round_in(field_of(row, 0)) else {
        return Err(MarkRefusal::BadRound { row: number });
    };
    if round < before {
        return Err(MarkRefusal::RoundsFall { row: number });
    }
    let Some(what) = what_in(field_of(row, 1)) else {
        return Err(MarkRefusal::BadWhat { row: number });
    };
    let Some(place) = place_in(what, field_of(row, 2)) else {
        return Err(MarkRefusal::BadWhere { row: number });
    };
    let Some(value) = number_in(what, field_of(row, 3)) else {
        return Err(MarkRefusal::BadNumber { row: number });
    };
    Ok(RoundRow {
        round,
        row: number,
        what,
        place,
        number: value,
    })
}
