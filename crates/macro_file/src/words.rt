//! Blanks and words, and whether two keys have the same words.
ghost use Rattle.std.specs.Prelude.{◌≡◌, ◌∷◌, [], ◌+◌, ◌<◌, ◌≤◌, MatchOption, IfSome, length, not, take, drop};
ghost use Rattle.std.specs.List.{position_or_len};
ghost use Rattle.macro_file.specs.Lines.{words};
ghost use Rattle.macro_file.specs.Lines.{is_blank as is_blank_byte};
ghost use Rattle.macro_file.specs.Keywords.{same_words as same_words_of};

/// Whether the byte is a space or a tab.
pub fn is_blank(byte: u8) -> bool
    ensures { result ≡ is_blank_byte byte }
{
    byte == b' ' || byte == b'\t'
}

/// How many blanks stand at the front.
pub fn blank_count(text: &[u8]) -> usize
    ensures value { result ≡ position_or_len (λ b. not (is_blank_byte b)) text.now }
    ensures within { result ≤ length text.now }
{
    for (i, byte) in text.iter().enumerate() {
        if !is_blank(*byte) {
            return i;
        }
    }
    text.len()
}

// How many bytes stand before the first blank.
fn word_length(text: &[u8]) -> usize
    ensures value { result ≡ position_or_len is_blank_byte text.now }
    ensures within { result ≤ length text.now }
{
    for (i, byte) in text.iter().enumerate() {
        if is_blank(*byte) {
            return i;
        }
    }
    text.len()
}

// The first word, and what follows it.
fn next_word(text: &[u8]) -> Option<(&[u8], &[u8])>
    ensures word { MatchOption result (words text.now ≡ []) (λ r. words text.now ≡ r.0.now ∷ words r.1.now) }
    ensures shorter { IfSome result (λ r. length r.1.now < length text.now) }
{
    let rest = &text[blank_count(text)..];
    if rest.is_empty() {
        return None;
    }
    Some(rest.split_at(word_length(rest)))
}

/// Whether two keys have the same words, letters of either case being equal.
pub fn same_words(text: &[u8], other: &[u8]) -> bool
    ensures { result ≡ same_words_of text.now other.now }
{
    let mut left = text;
    let mut right = other;
    loop {
        match (next_word(left), next_word(right)) {
            (None, None) => return true,
            (Some((word, rest)), Some((other_word, other_rest))) => {
                if !word.eq_ignore_ascii_case(other_word) {
                    return false;
                }
                left = rest;
                right = other_rest;
            }
            _ => return false,
        }
    }
}
