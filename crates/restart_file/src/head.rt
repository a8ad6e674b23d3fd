//! The first line of a restart file.
ghost use Rattle.std.specs.Prelude.{◌≡◌, ◌≤◌, ℕ, List, MatchOption, length};
ghost use Rattle.std.specs.List.{position_or_len};
ghost use Rattle.restart_file.specs.Heads.{IsCount, is_newline};
ghost use Rattle.restart_file.specs.Refusals.{HasHead};

/// The greatest number of bytes of a macro part.
const LONGEST_PART: u32 = 16777216;

// Where the first newline stands; the length where there is none.
fn newline_of(text: &[u8]) -> usize
    ensures place { result ≡ position_or_len is_newline text.now }
    ensures within { result ≤ length text.now }
{
    for (at, byte) in text.iter().enumerate() {
        if *byte == b'\n' {
            return at;
        }
    }
    text.len()
}

// The number of bytes of a macro part whose digits these are. There may be any number of them.
fn read_count(digits: &[u8]) -> Option<u32>
    ensures { MatchOption result ((m : ℕ) → ¬ IsCount digits.now m) (λ m. IsCount digits.now m) }
{
    if digits.is_empty() {
        return None;
    }
    if digits[0] == b'0' && digits.len() > 1 {
        return None;
    }
    let mut count = 0;
    for digit in digits {
        if !digit.is_ascii_digit() {
            return None;
        }
        count = count * 10 + u32::from(*digit - b'0');
        if count > LONGEST_PART {
            return None;
        }
    }
    Some(count)
}

/// How many bytes the head line says that the macro part has, and what follows the line; `None`
/// where the bytes do not begin with a head line.
pub(crate) fn read_head(bytes: &[u8]) -> Option<(u32, &[u8])>
    ensures { MatchOption result ((m : ℕ) (rest : List ℕ) → ¬ HasHead bytes.now m rest) (λ p. HasHead bytes.now p.0 p.1.now) }
{
    let line = match bytes.strip_prefix("restart: ".as_bytes()) {
        None => return None,
        Some(line) => line,
    };
    let end = newline_of(line);
    if end >= line.len() {
        return None;
    }
    match read_count(&line[..end]) {
        None => None,
        Some(count) => Some((count, &line[end + 1..])),
    }
}
