//! The first four keys: which of the four that must be there are missing, and the numbers of each.
ghost use Rattle.std.specs.Prelude.{◌≡◌, ◌≢◌, ◌≤◌, map, not, find, option_map, IfOk, IfErr, Ok, Err};
ghost use Rattle.std.specs.List.{list_any};
ghost use Rattle.macro_file.specs.Keywords.{same};
ghost use Rattle.macro_file.specs.Meaning.{keyword_for as keyword_for_key, required, single as single_by, counts as counts_by, wanted as wanted_by};
ghost use Rattle.macro_file.specs.Places.{section_of};

use crate::keyword::Keyword;
use crate::lists::read_numbers;
use crate::lookup::number_at;
use crate::refusal::{Key, MacroRefusal};
use crate::section::Section;
use crate::sections::stands;
use std::alloc::Global;

/// How many vertices and elements a file has.
#[derive(Clone, Copy)]
pub struct Counts {
    pub vertices: u32,
    pub elements: u32,
}

const REQUIRED: [Key; 4] = [
    Key::VertexCount,
    Key::ElementCount,
    Key::Coordinates,
    Key::Triples,
];

fn keyword_for(key: Key) -> Keyword
    ensures { result ≡ keyword_for_key key }
{
    match key {
        Key::VertexCount => Keyword::VertexCount,
        Key::ElementCount => Keyword::ElementCount,
        Key::Coordinates => Keyword::Coordinates,
        Key::Triples => Keyword::Triples,
    }
}

/// The first key that must be there and is not.
pub fn missing_key(sections: &[Section<'_>]) -> Option<Key>
    ensures { result ≡ find (λ key. not (list_any (λ s. same s.keyword (keyword_for_key key)) sections.now)) required }
{
    REQUIRED
        .iter()
        .copied()
        .find(|key| !stands(sections, keyword_for(*key)))
}

// The section of the key.
fn section_with<'a, 'b>(sections: &'b [Section<'a>], keyword: Keyword) -> Option<&'b Section<'a>>
    ensures { option_map (λ s. s.now) result ≡ find (λ s. same s.keyword keyword) sections.now }
{
    sections.iter().find(|s| s.keyword == keyword)
}

// The one number of a key, or 0 where the key is not there.
fn single(alloc: Global, sections: &[Section<'_>], keyword: Keyword) -> Result<i64, MacroRefusal>
    ensures ok { IfOk result (λ z. single_by keyword (map section_of sections.now) ≡ Ok z) }
    ensures err { IfErr result (λ r. r ≢ MacroRefusal.Memory → single_by keyword (map section_of sections.now) ≡ Err r) }
{
    match section_with(sections, keyword) {
        None => Ok(0),
        Some(section) => {
            let numbers = read_numbers(alloc, section, 1)?;
            Ok(number_at(&numbers, 0))
        }
    }
}

/// The numbers of the first four keys.
pub fn read_counts(alloc: Global, sections: &[Section<'_>]) -> Result<Counts, MacroRefusal>
    ensures ok { IfOk result (λ n. counts_by (map section_of sections.now) ≡ Ok n) }
    ensures err { IfErr result (λ r. r ≢ MacroRefusal.Memory → counts_by (map section_of sections.now) ≡ Err r) }
{
    single(alloc, sections, Keyword::Dim)?;
    single(alloc, sections, Keyword::DimOfWorld)?;
    let vertices = single(alloc, sections, Keyword::VertexCount)?;
    let elements = single(alloc, sections, Keyword::ElementCount)?;
    Ok(Counts {
        vertices: vertices.unsigned_abs() as u32,
        elements: elements.unsigned_abs() as u32,
    })
}

/// How many numbers belong to a key.
pub fn wanted(counts: Counts, keyword: Keyword) -> u32
    requires { (counts.vertices ≤ 65535) × (counts.elements ≤ 65535) }
    ensures { result ≡ wanted_by counts keyword }
{
    match keyword {
        Keyword::Dim => 1,
        Keyword::DimOfWorld => 1,
        Keyword::VertexCount => 1,
        Keyword::ElementCount => 1,
        Keyword::Coordinates => 2 * counts.vertices,
        Keyword::Triples => 3 * counts.elements,
        Keyword::Labels => 3 * counts.elements,
        Keyword::Neighbours => 3 * counts.elements,
        Keyword::VertexValues => counts.vertices,
        Keyword::ElementValues => counts.elements,
    }
}
