//! The macro file of a mended mesh.
ghost use Rattle.std.specs.Prelude.{◌≡◌, [], ◌∷◌, IfErr, IfOk, Ok, Some, codes, string_bytes};
ghost use Rattle.std.specs.Fmt.{decimal};
ghost use Rattle.adapt_words.specs.Mending.{mend_said};
ghost use Rattle.adapt_cli.specs.FaultTexts.{joined};
ghost use Rattle.adapt_cli.specs.Mending.{MendAsks, MendLeads, MendsTo, mend_line};
ghost use Rattle.adapt_cli.specs.Stops.{IsStop, IsTextOf, StopsBy};

use crate::fault::{FileStop, Stop, refused};
use crate::load::load_text;
use crate::macro_lines::check_line;
use adapt_words::Mend;
use macro_file::{MacroText, put_macro};
use mesh_io::Shelf;
use mesh_mend::{MendRefusal, mend as mended};
use std::alloc::{AllocError, Global};

/// The macro file of the mended mesh, or why there is none.
pub fn mend_text<'a, S: Shelf>(
    alloc: Global,
    mend: &Mend<'a>,
    shelf: &mut S,
) -> Result<Vec<u8>, FileStop<'a>>
    ensures ok { IfOk result (λ text. IsTextOf (MendLeads (mend_said mend.now)) (S.files shelf.old) (S.faults shelf.old) (S.faults shelf.new) text.items) }
    ensures stopped { IfErr result (IsStop (MendLeads (mend_said mend.now)) (MendAsks (mend_said mend.now)) (S.files shelf.old) (S.steady shelf.old) (S.faults shelf.old) (S.faults shelf.new)) }
{
    let text = match load_text(alloc, shelf, mend.macro_file) {
        Ok(text) => text,
        Err(stop) => return Err(stop),
    };
    match mended_file(alloc, &text) {
        Ok(bytes) => Ok(bytes),
        Err(stop) => Err(FileStop::Stopped(stop)),
    }
}

// The macro file of the mended text.
fn mended_file(alloc: Global, text: &MacroText) -> Result<Vec<u8>, Stop>
    ensures ok { IfOk result (λ bytes. MendsTo text.now (Ok bytes.items)) }
    ensures stopped { IfErr result (StopsBy (MendsTo text.now)) }
{
    let text = match mended(alloc, text) {
        Ok(text) => text,
        Err(refusal) => return Err(refused(3, mend_line(alloc, refusal))),
    };
    match put_macro(alloc, &text) {
        Ok(bytes) => Ok(bytes),
        Err(_) => Err(Stop::Memory),
    }
}

// The line of a macro file that is not mended.
fn mend_line(alloc: Global, refusal: MendRefusal) -> Result<String, AllocError>
    ensures { IfOk result (λ t. mend_line refusal ≡ Some (string_bytes t)) }
{
    match refusal {
        MendRefusal::Check { refusal } => check_line(alloc, refusal),
        MendRefusal::TooLarge { vertices, elements } => too_large(alloc, vertices, elements),
        MendRefusal::FlatPiece { element, edge } => flat_piece(alloc, element, edge),
        MendRefusal::Memory => Err(AllocError),
    }
}

fn too_large(alloc: Global, vertices: u64, elements: u64) -> Result<String, AllocError>
    ensures { IfOk result (λ t. string_bytes t ≡ joined (codes "adapt: mend: " ∷ decimal vertices ∷ codes " vertices and " ∷ decimal elements ∷ codes " elements are more than 65535\n" ∷ [])) }
{
    format!(in alloc;
        "adapt: mend: {vertices} vertices and {elements} elements are more than 65535\n"
    )
}

fn flat_piece(alloc: Global, element: u32, edge: u8) -> Result<String, AllocError>
    ensures { IfOk result (λ t. string_bytes t ≡ joined (codes "adapt: mend: element " ∷ decimal element ∷ codes " edge " ∷ decimal edge ∷ codes ": flat piece\n" ∷ [])) }
{
    format!(in alloc; "adapt: mend: element {element} edge {edge}: flat piece\n")
}
