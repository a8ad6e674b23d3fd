//! Lines, one after another: the next key line, and where its section ends.
ghost use Rattle.std.specs.Prelude.{◌≡◌, ℕ, ◌+◌, ◌-◌, ◌<◌, ◌≤◌, ◌^◌, IfSome, length, take, false};
ghost use Rattle.std.specs.List.{list_any, position_or_len};
ghost use Rattle.macro_file.specs.Lines.{lines};
ghost use Rattle.macro_file.specs.Sections.{blocks};
ghost use Rattle.macro_file.specs.Walks.{tokens_from, blocks_after, blocks_of};
ghost use Rattle.macro_file.specs.Walks.{ends_key as ends_key_byte, at_colon as at_colon_byte};
ghost use Rattle.std.specs.Bool.{OnTrue};

use crate::tokens::to_newline;

/// A key line: its number, the text before its first colon, and all bytes after it.
#[derive(Clone, Copy)]
pub struct KeyLine<'a> {
    pub line: u32,
    pub key: &'a [u8],
    pub after: &'a [u8],
}

fn ends_key(byte: u8) -> bool
    ensures { result ≡ ends_key_byte byte }
{
    byte == b'\n' || byte == b'#' || byte == b':'
}

// Whether one of the bytes ends a key. With no early end, the compiler tests many bytes at once.
fn has_key_end(bytes: &[u8]) -> bool
    ensures { result ≡ list_any ends_key_byte bytes.now }
{
    let mut found = false;
    for byte in bytes {
        found |= (*byte == b'\n') | (*byte == b'#') | (*byte == b':');
    }
    found
}

// How many bytes at the front are in pieces of sixteen that have no newline, comment or colon.
fn plain_length(bytes: &[u8]) -> usize
    ensures plain { list_any ends_key_byte (take result bytes.now) ≡ false }
    ensures within { result ≤ length bytes.now }
{
    let mut at = 0;
    while bytes.len() - at >= 16 && !has_key_end(&bytes[at..at + 16]) {
        at += 16;
    }
    at
}

// How many bytes stand before the first newline, comment or colon.
fn key_length(bytes: &[u8]) -> usize
    ensures value { result ≡ position_or_len ends_key_byte bytes.now }
    ensures within { result ≤ length bytes.now }
{
    let mut at = plain_length(bytes);
    while at < bytes.len() && !ends_key(bytes[at]) {
        at += 1;
    }
    at
}

fn at_colon(bytes: &[u8]) -> bool
    ensures colon { result ≡ at_colon_byte bytes.now }
    ensures some { OnTrue result (1 ≤ length bytes.now) }
{
    match bytes {
        [byte, ..] => *byte == b':',
        [] => false,
    }
}

/// The bytes before the first key line, and that line; the bytes begin with this line.
pub fn next_key(bytes: &[u8], line: u32) -> (&[u8], Option<KeyLine<'_>>)
    requires { line + length bytes.now < 2 ^ 32 }
    ensures parts { blocks line (lines bytes.now) ≡ (tokens_from line result.0.now, blocks_of result.1) }
    ensures front { result.0.now ≡ take (length result.0.now) bytes.now }
    ensures within { IfSome result.1 (λ k. (k.line + length k.after.now ≤ line + length bytes.now) × (length k.after.now < length bytes.now)) }
{
    let mut at = 0;
    let mut here = line;
    loop {
        let rest = &bytes[at..];
        let end = key_length(rest);
        if at_colon(&rest[end..]) {
            let key_line = KeyLine {
                line: here,
                key: &rest[..end],
                after: &rest[end + 1..],
            };
            return (&bytes[..at], Some(key_line));
        }
        let newline = end + to_newline(&rest[end..]);
        if newline == rest.len() {
            return (bytes, None);
        }
        at += newline + 1;
        here += 1;
    }
}

/// The bytes up to the next key line, and that line; the bytes stand after the colon of this line.
pub fn section_bytes(bytes: &[u8], line: u32) -> (&[u8], Option<KeyLine<'_>>)
    requires { line + length bytes.now < 2 ^ 32 }
    ensures parts { blocks_after line (lines bytes.now) ≡ (tokens_from line result.0.now, blocks_of result.1) }
    ensures within { IfSome result.1 (λ k. (k.line + length k.after.now ≤ line + length bytes.now) × (length k.after.now < length bytes.now)) }
    ensures short { length result.0.now ≤ length bytes.now }
{
    let newline = to_newline(bytes);
    if newline == bytes.len() {
        return (bytes, None);
    }
    let (more, key_line) = next_key(&bytes[newline + 1..], line + 1);
    (&bytes[..newline + 1 + more.len()], key_line)
}
