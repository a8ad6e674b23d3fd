//! The sections of a file, or the first line with no key, a bad key or a key twice.
ghost use Rattle.std.specs.Prelude.{◌≡◌, ◌≢◌, ◌+◌, ◌<◌, ◌≤◌, ◌^◌, length, map, IfOk, IfErr, Ok, Err, find, option_map};
ghost use Rattle.std.specs.List.{list_any};
ghost use Rattle.macro_file.specs.Keywords.{same};
ghost use Rattle.macro_file.specs.Sections.{sections};
ghost use Rattle.macro_file.specs.Places.{section_of};

use crate::keyword::{Keyword, keyword_of};
use crate::lines::{next_key, section_bytes};
use crate::memory::push;
use crate::refusal::MacroRefusal;
use crate::section::Section;
use crate::tokens::next_token;
use std::alloc::Global;

/// Whether the key stands among the sections.
pub fn stands(sections: &[Section], keyword: Keyword) -> bool
    ensures { result ≡ list_any (λ s. same s.keyword keyword) sections.now }
{
    sections.iter().any(|s| s.keyword == keyword)
}

/// The sections of a file, in its order.
pub fn sections_of(alloc: Global, bytes: &[u8]) -> Result<Vec<Section<'_>>, MacroRefusal>
    requires { length bytes.now ≤ 16777216 }
    ensures ok { IfOk result (λ v. sections bytes.now ≡ Ok (map section_of v.items)) }
    ensures err { IfErr result (λ r. r ≢ MacroRefusal.Memory → sections bytes.now ≡ Err r) }
{
    let (head, mut next) = next_key(bytes, 1);
    if let Some(token) = next_token(head, 1) {
        return Err(MacroRefusal::BadKey { line: token.line });
    }
    let mut sections = Vec::new(alloc);
    while let Some(key) = next {
        let line = key.line;
        let Some(keyword) = keyword_of(key.key) else {
            return Err(MacroRefusal::BadKey { line });
        };
        if stands(&sections, keyword) {
            return Err(MacroRefusal::KeyTwice { line });
        }
        let (body, following) = section_bytes(key.after, line);
        push(
            &mut sections,
            Section {
                keyword,
                line,
                body,
            },
        )?;
        next = following;
    }
    Ok(sections)
}
