//! The numbers of the sections, in the order of the file.
ghost use Rattle.std.specs.Prelude.{◌≡◌, ◌≢◌, ◌+◌, ◌<◌, ◌≤◌, ◌^◌, ◌==◌, cond, length, map, IfOk, IfErr, Ok, Err};
ghost use Rattle.macro_file.specs.Walks.{tokens_from};
ghost use Rattle.macro_file.specs.Meaning.{numbers as numbers_by, lists};
ghost use Rattle.macro_file.specs.Places.{section_of, listed_of};

use crate::counts::{Counts, wanted};
use crate::keyword::Keyword;
use crate::memory::push;
use crate::numbers::value;
use crate::refusal::MacroRefusal;
use crate::section::Section;
use crate::tokens::next_token;
use std::alloc::Global;

// How many words the bytes have, which begin in this line.
fn count_tokens(bytes: &[u8], line: u32) -> u32
    requires { line + length bytes.now < 2 ^ 32 }
    ensures value { result ≡ length (tokens_from line bytes.now) }
    ensures within { result ≤ length bytes.now }
{
    let mut count = 0;
    let mut here = line;
    let mut left = bytes;
    while let Some(token) = next_token(left, here) {
        count += 1;
        here = token.line;
        left = token.rest;
    }
    count
}

/// The numbers of a section, of which this many belong there.
pub fn read_numbers(
    alloc: Global,
    section: &Section<'_>,
    wanted: u32,
) -> Result<Vec<i64>, MacroRefusal>
    ensures ok { IfOk result (λ v. numbers_by wanted (section_of section.now) ≡ Ok v.items) }
    ensures err { IfErr result (λ r. r ≢ MacroRefusal.Memory → numbers_by wanted (section_of section.now) ≡ Err r) }
{
    let line = section.line;
    // Each number takes a byte at least.
    let most = (wanted as usize).min(section.body.len());
    let Ok(mut numbers) = Vec::with_capacity(alloc, most) else {
        return Err(MacroRefusal::Memory);
    };
    let mut here = line;
    let mut left = section.body;
    for found in 0..wanted {
        let Some(token) = next_token(left, here) else {
            return Err(MacroRefusal::CountDiffers {
                line,
                wanted,
                found,
            });
        };
        match value(section.keyword, token.text, token.line) {
            Ok(number) => push(&mut numbers, number)?,
            Err(refusal) => {
                let found = found + 1 + count_tokens(token.rest, token.line);
                return Err(count_or(line, wanted, found, refusal));
            }
        }
        here = token.line;
        left = token.rest;
    }
    let more = count_tokens(left, here);
    if more > 0 {
        return Err(MacroRefusal::CountDiffers {
            line,
            wanted,
            found: wanted + more,
        });
    }
    Ok(numbers)
}

// The refusal, unless the number of words differs.
fn count_or(line: u32, wanted: u32, found: u32, refusal: MacroRefusal) -> MacroRefusal
    ensures { result ≡ cond (found == wanted) refusal (MacroRefusal.CountDiffers line wanted found) }
{
    if found == wanted {
        refusal
    } else {
        MacroRefusal::CountDiffers {
            line,
            wanted,
            found,
        }
    }
}

/// The numbers of a key.
#[derive(Drop)]
pub struct NumberList {
    pub keyword: Keyword,
    pub numbers: Vec<i64>,
}

/// The numbers of each section.
pub fn read_lists(
    alloc: Global,
    sections: &[Section<'_>],
    counts: Counts,
) -> Result<Vec<NumberList>, MacroRefusal>
    requires { (counts.vertices ≤ 65535) × (counts.elements ≤ 65535) }
    ensures ok { IfOk result (λ v. lists counts (map section_of sections.now) ≡ Ok (map listed_of v.items)) }
    ensures err { IfErr result (λ r. r ≢ MacroRefusal.Memory → lists counts (map section_of sections.now) ≡ Err r) }
{
    let mut lists = Vec::new(alloc);
    for section in sections {
        let keyword = section.keyword;
        let numbers = read_numbers(alloc, section, wanted(counts, keyword))?;
        push(&mut lists, NumberList { keyword, numbers })?;
    }
    Ok(lists)
}
