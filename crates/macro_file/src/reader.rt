//! The four steps of reading a macro file.
ghost use Rattle.std.specs.Prelude.{◌≡◌, ◌≢◌, ◌≤◌, length, map, IfOk, IfErr, Ok, Err};
ghost use Rattle.macro_file.specs.Meaning.{meaning, sections_mean};
ghost use Rattle.macro_file.specs.Places.{section_of};
ghost use Rattle.macro_file.specs.Text.{macro_of};

use crate::assembly::assemble;
use crate::counts::{missing_key, read_counts};
use crate::lists::read_lists;
use crate::refusal::MacroRefusal;
use crate::section::Section;
use crate::sections::sections_of;
use crate::text::MacroText;
use std::alloc::Global;

// The macro text that the sections of a file give.
fn read_sections(alloc: Global, sections: &[Section<'_>]) -> Result<MacroText, MacroRefusal>
    ensures ok { IfOk result (λ t. sections_mean (map section_of sections.now) ≡ Ok (macro_of t)) }
    ensures err { IfErr result (λ r. r ≢ MacroRefusal.Memory → sections_mean (map section_of sections.now) ≡ Err r) }
{
    if let Some(key) = missing_key(sections) {
        return Err(MacroRefusal::KeyMissing { key });
    }
    let counts = read_counts(alloc, sections)?;
    let lists = read_lists(alloc, sections, counts)?;
    assemble(alloc, counts, lists.as_slice())
}

/// The macro text that the bytes of a file mean, or the first refusal: the keys are tried first, over the
/// lines in order, then that the four keys are there which must be, then the first four keys' numbers,
/// and then the lists in the order of the file.
pub fn read_macro(alloc: Global, bytes: &[u8]) -> Result<MacroText, MacroRefusal>
    requires { length bytes.now ≤ 16777216 }
    ensures ok { IfOk result (λ t. meaning bytes.now ≡ Ok (macro_of t)) }
    ensures err { IfErr result (λ r. r ≢ MacroRefusal.Memory → meaning bytes.now ≡ Err r) }
{
    let sections = sections_of(alloc, bytes)?;
    read_sections(alloc, sections.as_slice())
}
