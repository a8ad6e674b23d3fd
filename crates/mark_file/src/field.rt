//! The fields of a row.
ghost use Rattle.std.specs.Prelude.{◌≡◌, ◌≤◌, length};
ghost use Rattle.std.specs.List.{prefix_len, suffix_len};
ghost use Rattle.mesh_names.specs.Marks.{largest_number};
ghost use Rattle.mark_file.specs.Fields as spec;

use mesh_names::rows::{Place, What};
use mesh_names::spelling::read_name;
use std::str;

/// The most digits of a round's number.
const ROUND_DIGITS: usize = 5;

/// The greatest number of a round.
const LAST_ROUND: u32 = 65535;

/// The greatest size of a mark's number.
const LARGEST_MARK: u64 = 24;

/// The greatest size of a value.
const LARGEST_VALUE: u64 = 2_147_483_648;

fn is_blank(c: u8) -> bool
    ensures { result ≡ spec.is_blank c }
{
    c == b' ' || c == b'\t'
}

// How many blanks stand at the front.
fn front_blanks(field: &[u8]) -> usize
    ensures blanks { result ≡ prefix_len spec.is_blank field.now }
    ensures within { result ≤ length field.now }
{
    field.iter().take_while(|c| is_blank(**c)).count()
}

// How many blanks stand at the end.
fn end_blanks(field: &[u8]) -> usize
    ensures blanks { result ≡ suffix_len spec.is_blank field.now }
    ensures within { result ≤ length field.now }
{
    field.iter().rev().take_while(|c| is_blank(**c)).count()
}

// A field without the blanks at both ends. A newline inside quotes is none.
pub(crate) fn trimmed(field: &[u8]) -> &[u8]
    ensures { result.now ≡ spec.trimmed field.now }
{
    let front = front_blanks(field);
    let rest = &field[front..];
    let end = rest.len() - end_blanks(rest);
    &rest[..end]
}

// The round that a field gives: one to five digits, from 1 to 65,535.
pub(crate) fn round_in(field: &[u8]) -> Option<u32>
    ensures { result ≡ spec.round_in field.now }
{
    if field.is_empty() {
        return None;
    }
    if field.len() > ROUND_DIGITS {
        return None;
    }
    let mut round = 0;
    for digit in field {
        if !digit.is_ascii_digit() {
            return None;
        }
        round = round * 10 + u32::from(*digit - b'0');
    }
    if round == 0 {
        return None;
    }
    if round > LAST_ROUND {
        return None;
    }
    Some(round)
}

// What the row sets.
#[tactic(auto, unfolding(crate::specs::Fields::what_in))]
pub(crate) fn what_in(field: &[u8]) -> Option<What>
    ensures { result ≡ spec.what_in field.now }
{
    if field == "mark".as_bytes() {
        Some(What::Mark)
    } else if field == "elem".as_bytes() {
        Some(What::Elem)
    } else if field == "vert".as_bytes() {
        Some(What::Vert)
    } else {
        None
    }
}

// The place: `*`, or the spelling of an element or, for a vertex's value, of a corner.
#[tactic(auto, unfolding(crate::specs::Fields::place_in))]
pub(crate) fn place_in(what: What, field: &[u8]) -> Option<Place>
    ensures { result ≡ spec.place_in what field.now }
{
    if field == "*".as_bytes() {
        return Some(Place::EveryLeaf);
    }
    match what {
        What::Mark | What::Elem => element_in(field),
        What::Vert => corner_in(field),
    }
}

// The element whose spelling the field is.
fn element_in(field: &[u8]) -> Option<Place>
    ensures { result ≡ spec.element_in field.now }
{
    read_name(field).map(Place::Elem)
}

// The corner whose spelling the field is: its element's, and then a `/` and its number.
#[tactic(auto, unfolding(crate::specs::Fields::corner_in))]
fn corner_in(field: &[u8]) -> Option<Place>
    ensures { result ≡ spec.corner_in field.now }
{
    let (element, ending) = field.split_at(field.len().saturating_sub(2));
    let corner = corner_number(ending)?;
    let name = read_name(element)?;
    Some(Place::Corner(name, corner))
}

// The number of a corner: a `/` and 0, 1 or 2.
#[tactic(auto, unfolding(crate::specs::Fields::corner_number))]
fn corner_number(ending: &[u8]) -> Option<u8>
    ensures { result ≡ spec.corner_number ending.now }
{
    if ending == "/0".as_bytes() {
        Some(0)
    } else if ending == "/1".as_bytes() {
        Some(1)
    } else if ending == "/2".as_bytes() {
        Some(2)
    } else {
        None
    }
}

// The greatest size of a number in a row of this kind.
fn largest_number(what: What) -> u64
    ensures { result ≡ largest_number what }
{
    match what {
        What::Mark => LARGEST_MARK,
        What::Elem | What::Vert => LARGEST_VALUE,
    }
}

// The number of a row: a sign or none, and digits, of which there may be any number.
pub(crate) fn number_in(what: What, field: &[u8]) -> Option<i64>
    ensures { result ≡ spec.number_in what field.now }
{
    let Ok(text) = str::from_utf8(field) else {
        return None;
    };
    let Ok(number) = text.parse::<i64>() else {
        return None;
    };
    if number.unsigned_abs() > largest_number(what) {
        return None;
    }
    Some(number)
}
