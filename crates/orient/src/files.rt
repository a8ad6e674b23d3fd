//! What a macro file leads to.
ghost use Rattle.std.specs.Prelude.{◌≡◌, ◌≤◌, Err, IfOk, Ok, Some, codes, length, string_bytes};
ghost use Rattle.orient.specs.Calls.{IsEnd};
ghost use Rattle.orient.specs.Oriented.{limit, orient_line as line_of, too_long_line};
ghost use Rattle.orient.specs.Parts.{BytesEnd, LineStops, TextEnds};

use crate::stop::Stop;
use adapt_cli::macro_lines::{check_line, macro_line};
use macro_file::{MacroText, put_macro, read_macro};
use mesh_io::{LoadRefusal, Shelf};
use mesh_orient::{OrientRefusal, orient};
use std::alloc::{AllocError, Global};

// The greatest length of a macro file, in bytes.
const LIMIT: u64 = 16_777_216;

// The stop with this line; want of memory where there is none.
fn refused(line: Result<String, AllocError>) -> Stop
    ensures { LineStops line result }
{
    match line {
        Ok(line) => Stop::Refused(line),
        Err(_) => Stop::Memory,
    }
}

fn too_long(alloc: Global) -> Result<String, AllocError>
    ensures { IfOk result (λ t. string_bytes t ≡ too_long_line) }
{
    format!(in alloc; "adapt: macro: longer than 16777216 bytes\n")
}

fn not_found(alloc: Global) -> Result<String, AllocError>
    ensures { IfOk result (λ t. string_bytes t ≡ codes "orient: not found\n") }
{
    format!(in alloc; "orient: not found\n")
}

// The line of a macro text that is not oriented.
fn orient_line(alloc: Global, refusal: OrientRefusal) -> Result<String, AllocError>
    ensures { IfOk result (λ t. line_of refusal ≡ Some (string_bytes t)) }
{
    match refusal {
        OrientRefusal::Check { refusal } => check_line(alloc, refusal),
        OrientRefusal::NotFound => not_found(alloc),
        OrientRefusal::Memory => Err(AllocError),
    }
}

// The macro file of the oriented text.
fn oriented_text(alloc: Global, text: &MacroText) -> Result<Vec<u8>, Stop>
    ensures { TextEnds text.now result }
{
    let made = match orient(alloc, text) {
        Ok(made) => made,
        Err(refusal) => return Err(refused(orient_line(alloc, refusal))),
    };
    match put_macro(alloc, &made) {
        Ok(bytes) => Ok(bytes),
        Err(_) => Err(Stop::Memory),
    }
}

// The macro file of the oriented text of these bytes.
fn oriented_bytes(alloc: Global, bytes: &[u8]) -> Result<Vec<u8>, Stop>
    requires { length bytes.now ≤ limit }
    ensures { BytesEnd bytes.now result }
{
    match read_macro(alloc, bytes) {
        Ok(text) => oriented_text(alloc, &text),
        Err(refusal) => Err(refused(macro_line(alloc, refusal))),
    }
}

/// The macro file of the oriented text of the file of this name, or why there is none.
pub(crate) fn oriented_file<S: Shelf>(
    alloc: Global,
    name: &str,
    shelf: &mut S,
) -> Result<Vec<u8>, Stop>
    ensures { IsEnd name.now (record { files = S.files shelf.old; steady = S.steady shelf.old; before = S.faults shelf.old; now = S.faults shelf.new }) result }
{
    match shelf.load(alloc, name, LIMIT) {
        Ok(bytes) => oriented_bytes(alloc, &bytes),
        Err(LoadRefusal::Failed) => Err(Stop::Unread),
        Err(LoadRefusal::TooLong { read: _ }) => Err(refused(too_long(alloc))),
        Err(LoadRefusal::Memory) => Err(Stop::Memory),
    }
}
