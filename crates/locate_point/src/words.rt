//! Lines and words of a text.
ghost use Rattle.std.specs.Prelude.{◌≡◌, ◌∷◌, [], ◌+◌, ◌<◌, ◌≤◌, ◌==◌, MatchOption, IfSome, length, not};
ghost use Rattle.std.specs.List.{position_or_len};
ghost use Rattle.macro_file.specs.Lines.{lines, words};
ghost use Rattle.macro_file.specs.Lines.{is_blank as is_blank_byte};
ghost use Rattle.locate_point.specs.Reading.{lines_after, without_return};

// Whether the byte is a space or a tab.
fn is_blank(byte: u8) -> bool
    ensures { result ≡ is_blank_byte byte }
{
    byte == b' ' || byte == b'\t'
}

// How many blanks stand at the front.
fn blank_count(text: &[u8]) -> usize
    ensures value { result ≡ position_or_len (λ b. not (is_blank_byte b)) text.now }
    ensures within { result ≤ length text.now }
{
    for (i, byte) in text.iter().enumerate() {
        if !is_blank(*byte) {
            return i;
        }
    }
    text.len()
}

// How many bytes stand before the first blank.
fn word_length(text: &[u8]) -> usize
    ensures value { result ≡ position_or_len is_blank_byte text.now }
    ensures within { result ≤ length text.now }
{
    for (i, byte) in text.iter().enumerate() {
        if is_blank(*byte) {
            return i;
        }
    }
    text.len()
}

// The first word, and what follows it.
pub(crate) fn next_word(text: &[u8]) -> Option<(&[u8], &[u8])>
    ensures word { MatchOption result (words text.now ≡ []) (λ r. words text.now ≡ r.0.now ∷ words r.1.now) }
    ensures shorter { IfSome result (λ r. length r.1.now < length text.now) }
{
    let rest = &text[blank_count(text)..];
    if rest.is_empty() {
        return None;
    }
    Some(rest.split_at(word_length(rest)))
}

// How many bytes stand before the first newline.
fn to_newline(bytes: &[u8]) -> usize
    ensures value { result ≡ position_or_len (λ b. b == 10) bytes.now }
    ensures within { result ≤ length bytes.now }
{
    for (i, byte) in bytes.iter().enumerate() {
        if *byte == b'\n' {
            return i;
        }
    }
    bytes.len()
}

// The text without a carriage return at its end.
fn trimmed(text: &[u8]) -> &[u8]
    ensures { result.now ≡ without_return text.now }
{
    if text.is_empty() {
        return text;
    }
    let last = text.len() - 1;
    if text[last] == b'\r' {
        &text[..last]
    } else {
        text
    }
}

// The first line, and what follows its newline; `None` where no newline follows.
pub(crate) fn next_line(bytes: &[u8]) -> (&[u8], Option<&[u8]>)
    ensures line { lines bytes.now ≡ result.0.now ∷ lines_after result.1 }
    ensures shorter { IfSome result.1 (λ rest. length rest.now < length bytes.now) }
{
    let end = to_newline(bytes);
    if end == bytes.len() {
        return (bytes, None);
    }
    (trimmed(&bytes[..end]), Some(&bytes[end + 1..]))
}
