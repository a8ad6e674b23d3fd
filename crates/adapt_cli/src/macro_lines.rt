//! The lines of a macro file that is refused.
ghost use Rattle.std.specs.Prelude.{◌≡◌, [], ◌∷◌, IfOk, Some, codes, string_bytes};
ghost use Rattle.std.specs.Fmt.{decimal};
ghost use Rattle.adapt_cli.specs.FaultTexts.{at_edge, at_element, at_line, check_line, joined, key_text, macro_line};

use compat_check::CheckRefusal;
use macro_file::{Key, MacroRefusal};
use std::alloc::{AllocError, Global};

// A fault of a line of the macro file.
fn at_line(alloc: Global, line: u32, what: &str) -> Result<String, AllocError>
    ensures { IfOk result (λ t. string_bytes t ≡ at_line line what.now) }
{
    format!(in alloc; "adapt: macro: line {line}: {what}\n")
}

// How many numbers stand where others belong.
fn count_differs(alloc: Global, line: u32, wanted: u32, found: u32) -> Result<String, AllocError>
    ensures { IfOk result (λ t. string_bytes t ≡ at_line line (joined (decimal found ∷ codes " numbers where " ∷ decimal wanted ∷ codes " belong" ∷ []))) }
{
    let what = format!(in alloc; "{found} numbers where {wanted} belong")?;
    at_line(alloc, line, &what)
}

// A key that must be there, as the file spells it.
fn key_text(key: Key) -> &'static str
    ensures { result.now ≡ key_text key }
{
    match key {
        Key::VertexCount => "number of vertices",
        Key::ElementCount => "number of elements",
        Key::Coordinates => "vertex coordinates",
        Key::Triples => "element vertices",
    }
}

// A key that must be there and is not.
fn key_missing(alloc: Global, key: Key) -> Result<String, AllocError>
    ensures { IfOk result (λ t. string_bytes t ≡ joined (codes "adapt: macro: key missing: " ∷ key_text key ∷ codes "\n" ∷ [])) }
{
    let name = key_text(key);
    format!(in alloc; "adapt: macro: key missing: {name}\n")
}

/// The line of a macro file that is refused as it is read.
pub fn macro_line(alloc: Global, refusal: MacroRefusal) -> Result<String, AllocError>
    ensures { IfOk result (λ t. macro_line refusal ≡ Some (string_bytes t)) }
{
    match refusal {
        MacroRefusal::BadKey { line } => at_line(alloc, line, "bad key"),
        MacroRefusal::KeyTwice { line } => at_line(alloc, line, "key twice"),
        MacroRefusal::KeyMissing { key } => key_missing(alloc, key),
        MacroRefusal::BadNumber { line } => at_line(alloc, line, "bad number"),
        MacroRefusal::CountDiffers {
            line,
            wanted,
            found,
        } => count_differs(alloc, line, wanted, found),
        MacroRefusal::TooMany { line } => at_line(alloc, line, "more than 65535"),
        MacroRefusal::CoordRange { line } => at_line(alloc, line, "coordinate out of range"),
        MacroRefusal::ValueRange { line } => at_line(alloc, line, "value out of range"),
        MacroRefusal::Memory => Err(AllocError),
    }
}

// A fault of an element.
fn at_element(alloc: Global, element: u32, what: &str) -> Result<String, AllocError>
    ensures { IfOk result (λ t. string_bytes t ≡ at_element element what.now) }
{
    format!(in alloc; "adapt: macro: element {element}: {what}\n")
}

// A fault of an edge of an element.
fn at_edge(alloc: Global, element: u32, edge: u8, what: &str) -> Result<String, AllocError>
    ensures { IfOk result (λ t. string_bytes t ≡ at_edge element edge what.now) }
{
    format!(in alloc; "adapt: macro: element {element} edge {edge}: {what}\n")
}

// Two elements on the same three vertices.
fn twins(alloc: Global, first: u32, second: u32) -> Result<String, AllocError>
    ensures { IfOk result (λ t. string_bytes t ≡ joined (codes "adapt: macro: elements " ∷ decimal first ∷ codes " and " ∷ decimal second ∷ codes ": twin elements\n" ∷ [])) }
{
    format!(in alloc; "adapt: macro: elements {first} and {second}: twin elements\n")
}

// A grade above the greatest level.
fn grade_too_high(alloc: Global, element: u32, grade: u32) -> Result<String, AllocError>
    ensures { IfOk result (λ t. string_bytes t ≡ at_element element (joined (codes "grade " ∷ decimal grade ∷ codes " is above 24" ∷ []))) }
{
    let what = format!(in alloc; "grade {grade} is above 24")?;
    at_element(alloc, element, &what)
}

/// The line of a macro file that is refused as it is checked.
pub fn check_line(alloc: Global, refusal: CheckRefusal) -> Result<String, AllocError>
    ensures { IfOk result (λ t. check_line refusal ≡ Some (string_bytes t)) }
{
    match refusal {
        CheckRefusal::VertexRange { element } => at_element(alloc, element, "vertex out of range"),
        CheckRefusal::RepeatedVertex { element } => at_element(alloc, element, "repeated vertex"),
        CheckRefusal::Flat { element } => at_element(alloc, element, "flat"),
        CheckRefusal::TwinElements { first, second } => twins(alloc, first, second),
        CheckRefusal::EdgeOfThree { element, edge } => {
            at_edge(alloc, element, edge, "edge of three")
        }
        CheckRefusal::NeighboursDiffer { element, edge } => {
            at_edge(alloc, element, edge, "neighbours differ")
        }
        CheckRefusal::Incompatible { element, edge } => {
            at_edge(alloc, element, edge, "incompatible")
        }
        CheckRefusal::GradeTooHigh { element, grade } => grade_too_high(alloc, element, grade),
        CheckRefusal::Memory => Err(AllocError),
    }
}
