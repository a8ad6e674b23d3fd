//! Writes rows of a marks file.
ghost use Rattle.std.specs.Prelude.{◌≡◌, ◌+◌, ◌<◌, ◌≤◌, ◌++◌, ◌∷◌, [], length, take, OnErr, OnOk, IfErr};
ghost use Rattle.std.specs.Fmt.{decimal, signed_decimal};
ghost use Rattle.mesh_names.specs.Marks.{IsPlaceOf, IsWellFormed};
ghost use Rattle.mesh_names.specs.Spelling.{spelling};
ghost use Rattle.mark_file.specs.Written.{HasCorner, IsBounded, IsReadAs, NamesBounded, place_text, row_line, what_text};

use crate::laws::written_is_read;
use crate::refusal::MarkRefusal;
use mesh_io::put_whole;
use mesh_names::name::ElemName;
use mesh_names::rows::{MarkRow, Place, What};
use mesh_names::spelling::put_name;

/// Appends the row as a line of this round, from 1 to 65,535. A reader of the file reads it as a row
/// of the same round, which sets the same at the same place to the same number.
///
/// The row is well formed, and its number in its file is not written. After want of memory, the only
/// refusal, `to` is as it was.
pub fn put_row(to: &mut Vec<u8>, round: u32, row: &MarkRow) -> Result<(), MarkRefusal>
    requires round { (1 ≤ round) × (round ≤ 65535) }
    requires formed { IsWellFormed row.now }
    ensures ok { OnOk result (to.new.items ≡ to.old.items ++ row_line round row.now) }
    ensures read { OnOk result (IsReadAs round row.now (row_line round row.now)) }
    ensures memory { IfErr result (λ e. e ≡ MarkRefusal.Memory) }
    ensures err { OnErr result (to.new.items ≡ to.old.items) }
{
    written_is_read();
    let before = to.len();
    match append_row(to, round, row) {
        Ok(()) => Ok(()),
        Err(refusal) => {
            to.truncate(before);
            Err(refusal)
        }
    }
}

// Appends the line, or a part of it.
fn append_row(to: &mut Vec<u8>, round: u32, row: &MarkRow) -> Result<(), MarkRefusal>
    requires { HasCorner row.now.place }
    ensures ok { OnOk result (to.new.items ≡ to.old.items ++ row_line round row.now) }
    ensures bounded { OnOk result (NamesBounded row.now.place) }
    ensures memory { IfErr result (λ e. e ≡ MarkRefusal.Memory) }
    ensures err { OnErr result (take (length to.old.items) to.new.items ≡ to.old.items) }
{
    put_front(to, round, row.what)?;
    put_place(to, row.place)?;
    put_back(to, row.number)
}

// What stands before the place.
fn put_front(to: &mut Vec<u8>, round: u32, what: What) -> Result<(), MarkRefusal>
    ensures ok { OnOk result (to.new.items ≡ to.old.items ++ (decimal round ++ (44 ∷ (what_text what ++ 44 ∷ [])))) }
    ensures memory { IfErr result (λ e. e ≡ MarkRefusal.Memory) }
    ensures err { OnErr result (take (length to.old.items) to.new.items ≡ to.old.items) }
{
    put_number(to, i64::from(round))?;
    put_text(to, ",")?;
    put_text(to, what_text(what))?;
    put_text(to, ",")
}

// What stands after the place.
fn put_back(to: &mut Vec<u8>, number: i64) -> Result<(), MarkRefusal>
    ensures ok { OnOk result (to.new.items ≡ to.old.items ++ (44 ∷ (signed_decimal number ++ 10 ∷ []))) }
    ensures memory { IfErr result (λ e. e ≡ MarkRefusal.Memory) }
    ensures err { OnErr result (take (length to.old.items) to.new.items ≡ to.old.items) }
{
    put_text(to, ",")?;
    put_number(to, number)?;
    put_text(to, "\n")
}

// The word of what a row sets.
fn what_text(what: What) -> &'static str
    ensures { result.now ≡ what_text what }
{
    match what {
        What::Mark => "mark",
        What::Elem => "elem",
        What::Vert => "vert",
    }
}

fn put_text(to: &mut Vec<u8>, text: &str) -> Result<(), MarkRefusal>
    ensures ok { OnOk result (to.new.items ≡ to.old.items ++ text.now) }
    ensures memory { IfErr result (λ e. e ≡ MarkRefusal.Memory) }
    ensures err { OnErr result (to.new.items ≡ to.old.items) }
{
    if to.extend_from_slice(text.as_bytes()).is_err() {
        return Err(MarkRefusal::Memory);
    }
    Ok(())
}

fn put_number(to: &mut Vec<u8>, number: i64) -> Result<(), MarkRefusal>
    ensures ok { OnOk result (to.new.items ≡ to.old.items ++ signed_decimal number) }
    ensures memory { IfErr result (λ e. e ≡ MarkRefusal.Memory) }
    ensures err { OnErr result (to.new.items ≡ to.old.items) }
{
    if put_whole(to, number).is_err() {
        return Err(MarkRefusal::Memory);
    }
    Ok(())
}

// The spelling of a place.
fn put_place(to: &mut Vec<u8>, place: Place) -> Result<(), MarkRefusal>
    requires { HasCorner place }
    ensures ok { OnOk result (to.new.items ≡ to.old.items ++ place_text place) }
    ensures bounded { NamesBounded place }
    ensures memory { IfErr result (λ e. e ≡ MarkRefusal.Memory) }
    ensures err { OnErr result (take (length to.old.items) to.new.items ≡ to.old.items) }
{
    match place {
        Place::EveryLeaf => put_text(to, "*"),
        Place::Elem(name) => put_element(to, name),
        Place::Corner(name, corner) => {
            put_element(to, name)?;
            put_text(to, corner_text(corner))
        }
    }
}

// The spelling of an element.
fn put_element(to: &mut Vec<u8>, name: ElemName) -> Result<(), MarkRefusal>
    ensures ok { OnOk result (to.new.items ≡ to.old.items ++ spelling name) }
    ensures bounded { IsBounded name }
    ensures memory { IfErr result (λ e. e ≡ MarkRefusal.Memory) }
    ensures err { OnErr result (to.new.items ≡ to.old.items) }
{
    let _bounds = (name.root(), name.depth());
    if put_name(to, name).is_err() {
        return Err(MarkRefusal::Memory);
    }
    Ok(())
}

// How the spelling of a corner ends.
fn corner_text(corner: u8) -> &'static str
    requires { corner < 3 }
    ensures { result.now ≡ 47 ∷ (48 + corner) ∷ [] }
{
    match corner {
        0 => "/0",
        1 => "/1",
        _ => "/2",
    }
}
