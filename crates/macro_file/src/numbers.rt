//! The number that a word gives to the section of a key.
ghost use Rattle.std.specs.Prelude.{◌≡◌, ℕ, ◌≢◌, ◌+◌, ◌-◌, ◌*◌, ◌<◌, ◌≤◌, ◌^◌, ◌==◌, ◌&&◌, nat_le, cond, length, nat_abs, IfOk, IfErr, Ok, Err, Some, None, option_map};
ghost use Rattle.mesh_io.specs.Decimals.{after_digits, number, fine_units};
ghost use Rattle.macro_file.specs.Numbers.{whole, bounded as bounded_by, coordinate as coordinate_of, value as value_by};
ghost use Rattle.macro_file.specs.Capped.{capped, capped_size};

use crate::keyword::Keyword;
use crate::refusal::MacroRefusal;
use mesh_io::{DecimalRefusal, is_digit, read_decimal, sign};

// Sizes are held up to this one; every bound of a number is below it.
const GREATEST_SIZE: u64 = 1_000_000_000_000_000_000;

// The size with one more digit.
fn with_digit(size: u64, digit: u8) -> u64
    requires { (48 ≤ digit) × (digit ≤ 57) }
    ensures { (m : ℕ) → size ≡ capped_size m → result ≡ capped_size (10 * m + (digit - 48)) }
{
    if size < GREATEST_SIZE / 10 {
        size * 10 + u64::from(digit - b'0')
    } else {
        GREATEST_SIZE
    }
}

// The number of these digits; None where they are not one or more digits.
fn size_of(digits: &[u8]) -> Option<u64>
    ensures { result ≡ cond (nat_le 1 (length digits.now) && length (after_digits digits.now) == 0) (Some (capped_size (number 0 digits.now))) None }
{
    if digits.is_empty() {
        return None;
    }
    let mut size = 0;
    for byte in digits {
        if !is_digit(*byte) {
            return None;
        }
        size = with_digit(size, *byte);
    }
    Some(size)
}

// The whole number that the word is.
fn read_whole(word: &[u8]) -> Option<i64>
    ensures { result ≡ option_map capped (whole word.now) }
{
    let (minus, digits) = sign(word);
    let size = size_of(digits)? as i64;
    Some(if minus { -size } else { size })
}

// A whole number between two bounds; `below` and `above` are the refusals on either side.
fn bounded(
    word: &[u8],
    line: u32,
    least: i64,
    greatest: i64,
    below: MacroRefusal,
    above: MacroRefusal,
) -> Result<i64, MacroRefusal>
    requires least { nat_abs least < 10 ^ 18 }
    requires greatest { nat_abs greatest < 10 ^ 18 }
    ensures { result ≡ bounded_by least greatest (λ _. below) (λ _. above) line (whole word.now) }
{
    match read_whole(word) {
        None => Err(MacroRefusal::BadNumber { line }),
        Some(number) => {
            if number < least {
                Err(below)
            } else if greatest < number {
                Err(above)
            } else {
                Ok(number)
            }
        }
    }
}

fn coordinate(word: &[u8], line: u32) -> Result<i64, MacroRefusal>
    ensures { result ≡ coordinate_of line (fine_units word.now) }
{
    match read_decimal(word) {
        Ok(units) => Ok(units),
        Err(DecimalRefusal::NotANumber) => Err(MacroRefusal::BadNumber { line }),
        Err(DecimalRefusal::CoordRange) => Err(MacroRefusal::CoordRange { line }),
    }
}

/// The number that a word of this line gives to the section of the key: fine units for a coordinate.
pub fn value(keyword: Keyword, word: &[u8], line: u32) -> Result<i64, MacroRefusal>
    ensures { result ≡ value_by keyword (line, word.now) }
{
    let bad = MacroRefusal::BadNumber { line };
    let many = MacroRefusal::TooMany { line };
    let far = MacroRefusal::ValueRange { line };
    match keyword {
        Keyword::Dim => bounded(word, line, 2, 2, bad, bad),
        Keyword::DimOfWorld => bounded(word, line, 2, 2, bad, bad),
        Keyword::VertexCount => bounded(word, line, 1, 65535, bad, many),
        Keyword::ElementCount => bounded(word, line, 1, 65535, bad, many),
        Keyword::Coordinates => coordinate(word, line),
        Keyword::Triples => bounded(word, line, 0, 65535, bad, bad),
        Keyword::Labels => bounded(word, line, -128, 127, bad, bad),
        Keyword::Neighbours => bounded(word, line, -1, 65535, bad, bad),
        Keyword::VertexValues => bounded(word, line, -(1 << 31), 1 << 31, far, far),
        Keyword::ElementValues => bounded(word, line, -(1 << 55), 1 << 55, far, far),
    }
}
