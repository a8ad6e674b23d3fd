//! The top call.
ghost use Rattle.std.specs.Prelude.{◌≡◌, map, string_bytes};
ghost use Rattle.orient.specs.Calls.{Ends, EndsBy, Finishes};

use crate::files::oriented_file;
use crate::stop::Stop;
use adapt_cli::ending::{MEMORY, write_line, write_read_fault, write_text};
use mesh_io::{Shelf, Sink};
use std::alloc::Global;

/// The line for words that are not one name.
pub const USAGE: &str = "usage: orient MACRO\n";

// Writes what the file of this name led to.
fn finish<O: Sink, E: Sink>(name: &str, end: Result<Vec<u8>, Stop>, out: &mut O, err: &mut E) -> u8
    ensures { Finishes name.now end (record { old = O.holds out.old; new = O.holds out.new; before = O.faults out.old; now = O.faults out.new }) (record { old = E.holds err.old; new = E.holds err.new; before = E.faults err.old; now = E.faults err.new }) result }
{
    match end {
        Ok(text) => write_text(out, err, &text),
        Err(Stop::Refused(line)) => write_line(err, &line, 3),
        Err(Stop::Memory) => write_line(err, MEMORY, 1),
        Err(Stop::Unread) => write_read_fault(err, name),
    }
}

// Orients the macro file of this name.
fn orient_file<S: Shelf, O: Sink, E: Sink>(
    alloc: Global,
    name: &str,
    shelf: &mut S,
    out: &mut O,
    err: &mut E,
) -> u8
    ensures { EndsBy name.now (record { files = S.files shelf.old; steady = S.steady shelf.old; before = S.faults shelf.old; now = S.faults shelf.new }) (record { old = O.holds out.old; new = O.holds out.new; before = O.faults out.old; now = O.faults out.new }) (record { old = E.holds err.old; new = E.holds err.new; before = E.faults err.old; now = E.faults err.new }) result }
{
    let end = oriented_file(alloc, name, shelf);
    finish(name, end, out, err)
}

/// Runs the program on its words, which are those after its name, and answers its status.
///
/// `orient MACRO` reads a macro triangulation from the shelf, turns its elements so that bisection is
/// well defined, and writes the macro file to `out`, or else one line that says what is wrong to `err`.
/// The lines are those of `adapt`, and one that says that no way to turn them was found.
///
/// | Status | Comes |
/// |---|---|
/// | 0 | the text was written |
/// | 1 | want of memory |
/// | 2 | the words are not one name |
/// | 3 | the macro file is too long, malformed, or no triangulation, or no way was found |
/// | 6 | the file could not be read |
/// | 7 | a write failed |
pub fn orient<S: Shelf, O: Sink, E: Sink>(
    alloc: Global,
    words: &[String],
    shelf: &mut S,
    out: &mut O,
    err: &mut E,
) -> u8
    ensures { Ends (map string_bytes words.now) (record { files = S.files shelf.old; steady = S.steady shelf.old; before = S.faults shelf.old; now = S.faults shelf.new }) (record { old = O.holds out.old; new = O.holds out.new; before = O.faults out.old; now = O.faults out.new }) (record { old = E.holds err.old; new = E.holds err.new; before = E.faults err.old; now = E.faults err.new }) result }
{
    match words {
        [name] => orient_file(alloc, name.as_str(), shelf, out, err),
        _ => write_line(err, USAGE, 2),
    }
}
