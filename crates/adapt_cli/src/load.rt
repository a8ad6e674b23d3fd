//! The files that the words name.
ghost use Rattle.std.specs.Prelude.{◌≡◌, ◌≤◌, All, IfErr, IfOk, Some, codes, length, string_bytes, true};
ghost use Rattle.mesh_names.specs.Marks.{IsWellFormed};
ghost use Rattle.mark_file.specs.Meaning.{rounds_read};
ghost use Rattle.adapt_cli.specs.InputFiles.{AcceptsMacro, AcceptsMarks, AcceptsText, IsChecked, IsTooLong, RefusesMacro, RefusesMarks, RefusesText, TellsCheck, macro_limit, marks_limit};
ghost use Rattle.adapt_cli.specs.Restarts.{AcceptsPart, AcceptsRestart, IsForestKept, RefusesRestart, kept_of, restart_limit};
ghost use Rattle.adapt_cli.specs.Stops.{Gives, GivesBytes, IsLoadStop, RefusesBy};

use crate::fault::{FileStop, Stop, marks_line, refused};
use crate::macro_lines::{check_line, macro_line};
use crate::restart_lines::restart_line;
use compat_check::check;
use compat_check::mesh::MacroMesh;
use macro_file::{MacroText, read_macro};
use mark_file::read::read_marks;
use mesh_io::{LoadRefusal, Shelf};
use mesh_names::rows::RoundMarks;
use restart_file::{Restart, read_restart};
use std::alloc::Global;

// The greatest lengths of the files, in bytes.
const MACRO_LIMIT: u64 = 16_777_216;

const MARKS_LIMIT: u64 = 67_108_864;

const RESTART_LIMIT: u64 = 33_554_432;

// What is told of longer ones.
const MACRO_TOO_LONG: &str = "adapt: macro: longer than 16777216 bytes\n";

const MARKS_TOO_LONG: &str = "adapt: marks: longer than 67108864 bytes\n";

const RESTART_TOO_LONG: &str = "adapt: restart: longer than 33554432 bytes\n";

/// A file's bytes, of which at most `limit` may be there; of a longer file `too_long` is told.
pub fn load_bytes<'a, S: Shelf>(
    alloc: Global,
    shelf: &mut S,
    name: &'a str,
    limit: u64,
    status: u8,
    too_long: &str,
) -> Result<Vec<u8>, FileStop<'a>>
    ensures ok { IfOk result (λ bytes. Gives (GivesBytes bytes.items limit) name.now (S.files shelf.old) (S.faults shelf.old) (S.faults shelf.new)) }
    ensures short { IfOk result (λ bytes. length bytes.items ≤ limit) }
    ensures stopped { IfErr result (IsLoadStop (IsTooLong limit too_long.now) status name.now (S.files shelf.old) (S.steady shelf.old) (S.faults shelf.old) (S.faults shelf.new)) }
    ensures same { S.files shelf.new ≡ S.files shelf.old }
    ensures stays { S.steady shelf.old ≡ true → S.steady shelf.new ≡ true }
{
    match shelf.load(alloc, name, limit) {
        Ok(bytes) => Ok(bytes),
        Err(LoadRefusal::Failed) => Err(FileStop::Unread(name)),
        Err(LoadRefusal::TooLong { read: _ }) => Err(FileStop::Stopped(refused(
            status,
            format!(in alloc; "{too_long}"),
        ))),
        Err(LoadRefusal::Memory) => Err(FileStop::Stopped(Stop::Memory)),
    }
}

// The macro text of these bytes.
fn macro_text(alloc: Global, bytes: &[u8]) -> Result<MacroText, Stop>
    requires { length bytes.now ≤ macro_limit }
    ensures ok { IfOk result (λ text. AcceptsText bytes.now text) }
    ensures stopped { IfErr result (RefusesBy 3 (RefusesText bytes.now)) }
{
    match read_macro(alloc, bytes) {
        Ok(text) => Ok(text),
        Err(refusal) => Err(refused(3, macro_line(alloc, refusal))),
    }
}

// The checked mesh of this text.
fn macro_mesh(alloc: Global, text: MacroText) -> Result<MacroMesh, Stop>
    ensures ok { IfOk result (λ mesh. IsChecked text mesh) }
    ensures stopped { IfErr result (RefusesBy 3 (TellsCheck text)) }
{
    match check(alloc, text) {
        Ok(mesh) => Ok(mesh),
        Err(refusal) => Err(refused(3, check_line(alloc, refusal))),
    }
}

// The rounds of these bytes.
fn marked_rounds(alloc: Global, bytes: &[u8]) -> Result<Vec<RoundMarks>, Stop>
    requires { length bytes.now ≤ marks_limit }
    ensures ok { IfOk result (λ rounds. AcceptsMarks bytes.now (rounds_read rounds.items)) }
    ensures formed { IfOk result (λ rounds. All (λ r. All IsWellFormed r.rows.items) rounds.items) }
    ensures stopped { IfErr result (RefusesBy 4 (RefusesMarks bytes.now)) }
{
    match read_marks(alloc, bytes) {
        Ok(rounds) => Ok(rounds),
        Err(refusal) => Err(refused(4, marks_line(alloc, &refusal))),
    }
}

/// The text of a macro file.
pub fn load_text<'a, S: Shelf>(
    alloc: Global,
    shelf: &mut S,
    name: &'a str,
) -> Result<MacroText, FileStop<'a>>
    ensures ok { IfOk result (λ text. Gives (λ bytes. AcceptsText bytes text) name.now (S.files shelf.old) (S.faults shelf.old) (S.faults shelf.new)) }
    ensures stopped { IfErr result (IsLoadStop RefusesText 3 name.now (S.files shelf.old) (S.steady shelf.old) (S.faults shelf.old) (S.faults shelf.new)) }
    ensures same { S.files shelf.new ≡ S.files shelf.old }
    ensures stays { S.steady shelf.old ≡ true → S.steady shelf.new ≡ true }
{
    let bytes = match load_bytes(alloc, shelf, name, MACRO_LIMIT, 3, MACRO_TOO_LONG) {
        Ok(bytes) => bytes,
        Err(stop) => return Err(stop),
    };
    match macro_text(alloc, &bytes) {
        Ok(text) => Ok(text),
        Err(stop) => Err(FileStop::Stopped(stop)),
    }
}

/// The checked mesh of a macro file.
pub fn load_macro<'a, S: Shelf>(
    alloc: Global,
    shelf: &mut S,
    name: &'a str,
) -> Result<MacroMesh, FileStop<'a>>
    ensures ok { IfOk result (λ mesh. Gives (λ bytes. AcceptsMacro bytes mesh) name.now (S.files shelf.old) (S.faults shelf.old) (S.faults shelf.new)) }
    ensures stopped { IfErr result (IsLoadStop RefusesMacro 3 name.now (S.files shelf.old) (S.steady shelf.old) (S.faults shelf.old) (S.faults shelf.new)) }
    ensures same { S.files shelf.new ≡ S.files shelf.old }
    ensures stays { S.steady shelf.old ≡ true → S.steady shelf.new ≡ true }
{
    let text = match load_text(alloc, shelf, name) {
        Ok(text) => text,
        Err(stop) => return Err(stop),
    };
    match macro_mesh(alloc, text) {
        Ok(mesh) => Ok(mesh),
        Err(stop) => Err(FileStop::Stopped(stop)),
    }
}

/// The rounds of a marks file.
pub fn load_marks<'a, S: Shelf>(
    alloc: Global,
    shelf: &mut S,
    name: &'a str,
) -> Result<Vec<RoundMarks>, FileStop<'a>>
    ensures ok { IfOk result (λ rounds. Gives (λ bytes. AcceptsMarks bytes (rounds_read rounds.items)) name.now (S.files shelf.old) (S.faults shelf.old) (S.faults shelf.new)) }
    ensures formed { IfOk result (λ rounds. All (λ r. All IsWellFormed r.rows.items) rounds.items) }
    ensures stopped { IfErr result (IsLoadStop RefusesMarks 4 name.now (S.files shelf.old) (S.steady shelf.old) (S.faults shelf.old) (S.faults shelf.new)) }
    ensures same { S.files shelf.new ≡ S.files shelf.old }
    ensures stays { S.steady shelf.old ≡ true → S.steady shelf.new ≡ true }
{
    let bytes = match load_bytes(alloc, shelf, name, MARKS_LIMIT, 4, MARKS_TOO_LONG) {
        Ok(bytes) => bytes,
        Err(stop) => return Err(stop),
    };
    match marked_rounds(alloc, &bytes) {
        Ok(rounds) => Ok(rounds),
        Err(stop) => Err(FileStop::Stopped(stop)),
    }
}

// The checked mesh of these bytes.
fn part_mesh(alloc: Global, bytes: &[u8]) -> Result<MacroMesh, Stop>
    requires { length bytes.now ≤ macro_limit }
    ensures ok { IfOk result (λ mesh. AcceptsMacro bytes.now mesh) }
    ensures stopped { IfErr result (RefusesBy 3 (RefusesMacro bytes.now)) }
{
    let text = match macro_text(alloc, bytes) {
        Ok(text) => text,
        Err(stop) => return Err(stop),
    };
    macro_mesh(alloc, text)
}

/// The bytes of a macro file, and its checked mesh.
pub fn load_part<'a, S: Shelf>(
    alloc: Global,
    shelf: &mut S,
    name: &'a str,
) -> Result<(Vec<u8>, MacroMesh), FileStop<'a>>
    ensures ok { IfOk result (λ part. Gives (λ bytes. AcceptsPart bytes (part.0.items, part.1)) name.now (S.files shelf.old) (S.faults shelf.old) (S.faults shelf.new)) }
    ensures part { IfOk result (λ part. AcceptsMacro part.0.items part.1) }
    ensures stopped { IfErr result (IsLoadStop RefusesMacro 3 name.now (S.files shelf.old) (S.steady shelf.old) (S.faults shelf.old) (S.faults shelf.new)) }
    ensures same { S.files shelf.new ≡ S.files shelf.old }
    ensures stays { S.steady shelf.old ≡ true → S.steady shelf.new ≡ true }
{
    let bytes = match load_bytes(alloc, shelf, name, MACRO_LIMIT, 3, MACRO_TOO_LONG) {
        Ok(bytes) => bytes,
        Err(stop) => return Err(stop),
    };
    match part_mesh(alloc, &bytes) {
        Ok(mesh) => Ok((bytes, mesh)),
        Err(stop) => Err(FileStop::Stopped(stop)),
    }
}

// What these bytes keep.
fn kept(alloc: Global, bytes: &[u8]) -> Result<Restart, Stop>
    requires { length bytes.now ≤ restart_limit }
    ensures ok { IfOk result (λ restart. AcceptsRestart bytes.now (kept_of restart)) }
    ensures stopped { IfErr result (RefusesBy 3 (RefusesRestart bytes.now)) }
{
    match read_restart(alloc, bytes) {
        Ok(restart) => Ok(restart),
        Err(refusal) => Err(refused(3, restart_line(alloc, refusal))),
    }
}

/// What a restart file keeps.
pub fn load_restart<'a, S: Shelf>(
    alloc: Global,
    shelf: &mut S,
    name: &'a str,
) -> Result<Restart, FileStop<'a>>
    ensures ok { IfOk result (λ restart. Gives (λ bytes. AcceptsRestart bytes (kept_of restart)) name.now (S.files shelf.old) (S.faults shelf.old) (S.faults shelf.new)) }
    ensures keeps { IfOk result (λ restart. IsForestKept (kept_of restart)) }
    ensures stopped { IfErr result (IsLoadStop RefusesRestart 3 name.now (S.files shelf.old) (S.steady shelf.old) (S.faults shelf.old) (S.faults shelf.new)) }
    ensures same { S.files shelf.new ≡ S.files shelf.old }
    ensures stays { S.steady shelf.old ≡ true → S.steady shelf.new ≡ true }
{
    let bytes = match load_bytes(alloc, shelf, name, RESTART_LIMIT, 3, RESTART_TOO_LONG) {
        Ok(bytes) => bytes,
        Err(stop) => return Err(stop),
    };
    match kept(alloc, &bytes) {
        Ok(restart) => Ok(restart),
        Err(stop) => Err(FileStop::Stopped(stop)),
    }
}
