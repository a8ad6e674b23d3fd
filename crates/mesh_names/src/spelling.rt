//! The spelling of element names: the root in decimal, and below it a point and the letters.
ghost use Rattle.std.specs.Prelude.{◌≡◌, ◌≤◌, ◌++◌, ℕ, Bool, List, [], length, take, IfOk, IfErr, OnOk, OnErr, MatchOption};
ghost use Rattle.std.specs.List.{position_or_len};
ghost use Rattle.mesh_names.specs.Names.{depth, Name};
ghost use Rattle.mesh_names.specs.Spelling.{is_point, letters_text, name_spelled, spelling, IsRoot, IsWord, Spells, SpellingIsOne, SpellingTells};

use crate::name::ElemName;
use std::alloc::AllocError;

/// The greatest root of a name.
const LAST_ROOT: u32 = 65534;

/// The greatest number of letters.
const LETTERS: usize = 24;

/// Why a name was not written.
#[derive(Debug, Drop)]
pub enum NameRefusal {
    /// No memory for the text.
    Memory,
}

/// The name that the text spells; `None` exactly where it spells none.
///
/// The root has no leading zeros, and a point stands only before letters.
pub fn read_name(text: &[u8]) -> Option<ElemName>
    ensures name { result ≡ name_spelled text.now }
    ensures spells { MatchOption result ((n : Name) → ¬ Spells text.now n) (λ n. Spells text.now n) }
{
    let point = point_of(text);
    let top = match read_root(&text[..point]) {
        None => return None,
        Some(root) => ElemName::top(root),
    };
    if point == text.len() {
        return Some(top);
    }
    read_word(top, &text[point + 1..])
}

// Where the first point stands; the length where there is none.
fn point_of(text: &[u8]) -> usize
    ensures place { result ≡ position_or_len is_point text.now }
    ensures within { result ≤ length text.now }
{
    for (at, c) in text.iter().enumerate() {
        if *c == b'.' {
            return at;
        }
    }
    text.len()
}

// The root whose digits these are. There may be any number of them.
fn read_root(digits: &[u8]) -> Option<u32>
    ensures { MatchOption result ((r : ℕ) → ¬ IsRoot digits.now r) (λ r. IsRoot digits.now r) }
{
    if digits.is_empty() {
        return None;
    }
    if digits[0] == b'0' && digits.len() > 1 {
        return None;
    }
    let mut root = 0;
    for digit in digits {
        if !digit.is_ascii_digit() {
            return None;
        }
        root = root * 10 + u32::from(*digit - b'0');
        if root > LAST_ROOT {
            return None;
        }
    }
    Some(root)
}

// The name below a macro element to which these letters lead.
fn read_word(top: ElemName, letters: &[u8]) -> Option<ElemName>
    requires { top.1 ≡ [] }
    ensures { MatchOption result ((w : List Bool) → ¬ IsWord letters.now w) (λ n. (n.0 ≡ top.0) × IsWord letters.now n.1) }
{
    if letters.is_empty() || letters.len() > LETTERS {
        return None;
    }
    let mut name = top;
    for letter in letters {
        if *letter != b'0' && *letter != b'1' {
            return None;
        }
        name = name.child_at(*letter == b'1');
    }
    Some(name)
}

/// Appends the spelling of a name, or nothing.
pub fn put_name(to: &mut Vec<u8>, name: ElemName) -> Result<(), NameRefusal>
    ensures ok { IfOk result (λ _. to.new.items ≡ to.old.items ++ spelling name) }
    ensures err { IfErr result (λ _. to.new.items ≡ to.old.items) }
{
    let before = to.len();
    if append_spelling(to, name).is_err() {
        to.truncate(before);
        return Err(NameRefusal::Memory);
    }
    Ok(())
}

// Appends the spelling, or a part of it.
fn append_spelling(to: &mut Vec<u8>, name: ElemName) -> Result<(), AllocError>
    ensures ok { OnOk result (to.new.items ≡ to.old.items ++ spelling name) }
    ensures err { OnErr result (take (length to.old.items) to.new.items ≡ to.old.items) }
{
    let mut digits = itoa::Buffer::new();
    to.extend_from_slice(digits.format(name.root()).as_bytes())?;
    let letters = usize::from(name.depth());
    if letters == 0 {
        return Ok(());
    }
    let mut word = [b'.'; LETTERS + 1];
    write_letters(&mut word[1..letters + 1], name);
    to.extend_from_slice(&word[..letters + 1])
}

// Writes the letters, from the last one back to the first.
fn write_letters(room: &mut [u8], name: ElemName)
    requires { length room.old ≡ depth name }
    ensures { room.new ≡ letters_text name.1 }
{
    let mut at = room.len();
    let mut rest = name;
    while let Some((parent, side)) = rest.split() {
        at -= 1;
        room[at] = if side { b'1' } else { b'0' };
        rest = parent;
    }
}

/// A text spells the name whose spelling it is, and no other.
pub fn spelling_tells()
    ensures { SpellingTells }
{}

/// Two names with one spelling are equal.
pub fn spelling_is_one()
    ensures { SpellingIsOne }
{}
