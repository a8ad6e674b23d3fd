//! Words, one after another, over the lines of a section.
ghost use Rattle.std.specs.Prelude.{◌≡◌, ℕ, ◌∷◌, [], ◌+◌, ◌<◌, ◌≤◌, ◌^◌, ◌==◌, MatchOption, IfSome, length, take, drop, false};
ghost use Rattle.std.specs.List.{position_or_len};
ghost use Rattle.macro_file.specs.Lines.{at_newline as at_newline_byte};
ghost use Rattle.macro_file.specs.Walks.{tokens_from, ends_word as ends_word_there};

use crate::words::{blank_count, is_blank};

/// A word of the file, the number of its line, and the bytes after it.
#[derive(Clone, Copy)]
pub struct Token<'a> {
    pub line: u32,
    pub text: &'a [u8],
    pub rest: &'a [u8],
}

/// How many bytes stand before the first newline.
pub fn to_newline(bytes: &[u8]) -> usize
    ensures value { result ≡ position_or_len (λ b. b == 10) bytes.now }
    ensures within { result ≤ length bytes.now }
{
    for (i, byte) in bytes.iter().enumerate() {
        if *byte == b'\n' {
            return i;
        }
    }
    bytes.len()
}

fn at_newline(bytes: &[u8]) -> bool
    ensures { result ≡ at_newline_byte bytes.now }
{
    match bytes {
        [byte, ..] => *byte == b'\n',
        [] => false,
    }
}

// Whether no word goes on there.
fn ends_word(bytes: &[u8]) -> bool
    ensures { result ≡ ends_word_there bytes.now }
{
    match bytes {
        [byte, more @ ..] => {
            is_blank(*byte)
                || *byte == b'\n'
                || *byte == b'#'
                || (*byte == b'\r' && at_newline(more))
        }
        [] => true,
    }
}

// How many bytes the word at the front has.
fn token_length(bytes: &[u8]) -> usize
    requires { ends_word_there bytes.now ≡ false }
    ensures within { (1 ≤ result) × (result ≤ length bytes.now) }
    ensures token { (n : ℕ) → tokens_from n bytes.now ≡ (n, take result bytes.now) ∷ tokens_from n (drop result bytes.now) }
{
    let mut at = 0;
    while !ends_word(&bytes[at..]) {
        at += 1;
    }
    at
}

// The bytes after the blanks at the front.
fn skip_blanks(bytes: &[u8]) -> &[u8]
    ensures same { (n : ℕ) → tokens_from n bytes.now ≡ tokens_from n result.now }
    ensures short { length result.now ≤ length bytes.now }
{
    &bytes[blank_count(bytes)..]
}

/// The first word of bytes that begin in this line; None where there is none.
pub fn next_token(bytes: &[u8], line: u32) -> Option<Token<'_>>
    requires { line + length bytes.now < 2 ^ 32 }
    ensures token { MatchOption result (tokens_from line bytes.now ≡ []) (λ t. tokens_from line bytes.now ≡ (t.line, t.text.now) ∷ tokens_from t.line t.rest.now) }
    ensures within { IfSome result (λ t. (t.line + length t.rest.now ≤ line + length bytes.now) × (length t.rest.now < length bytes.now)) }
{
    let mut here = line;
    let mut left = skip_blanks(bytes);
    while let [byte, more @ ..] = left {
        if !ends_word(left) {
            let (text, rest) = left.split_at(token_length(left));
            return Some(Token {
                line: here,
                text,
                rest,
            });
        }
        if *byte == b'\n' {
            here += 1;
            left = skip_blanks(more);
        } else if *byte == b'#' {
            left = &more[to_newline(more)..];
        } else {
            left = skip_blanks(more);
        }
    }
    None
}
