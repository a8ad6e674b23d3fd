//! Writes fine units as an exact decimal.
ghost use Rattle.std.specs.Prelude.{◌≡◌, ℕ, ◌+◌, ◌*◌, ◌/◌, ◌%◌, ◌^◌, ◌<◌, ◌≤◌, ◌++◌, length, take, nat_abs, IfOk, IfErr, OnOk, OnErr};
ghost use Rattle.std.specs.Fmt.{sign_text, decimal};
ghost use Rattle.mesh_io.specs.Written.{padded, trimmed, fraction, written_units};

use crate::text::TextRefusal;
use std::alloc::AllocError;

// Fills the text with the last digits of the number.
fn put_digits(text: &mut [u8], number: u64)
    ensures { text.new ≡ padded (length text.old) number }
{
    let mut rest = number;
    for k in 0..text.len() {
        let at = text.len() - 1 - k;
        text[at] = b'0' + (rest % 10) as u8;
        rest /= 10;
    }
}

// The digits of a fraction, in two parts.
fn fraction_digits(upper: u64, lower: u64) -> [u8; 22]
    requires { lower < 1000000000000 }
    ensures { result ≡ padded 22 (upper * 1000000000000 + lower) }
{
    let mut text = [b'0'; 22];
    let (front, back) = text.split_at_mut(10);
    put_digits(front, upper);
    put_digits(back, lower);
    text
}

// The digits without the zeros at the end.
fn trim(digits: &[u8]) -> &[u8]
    ensures { result.now ≡ trimmed digits.now }
{
    let mut rest = digits;
    while let [front @ .., b'0'] = rest {
        rest = front;
    }
    rest
}

// Appends the point and the digits, where there are any that are not 0.
fn put_fraction(to: &mut Vec<u8>, upper: u64, lower: u64) -> Result<(), AllocError>
    requires { (lower < 1000000000000) × (upper < 10000000000) }
    ensures ok { IfOk result (λ _. to.new.items ≡ to.old.items ++ fraction (upper * 1000000000000 + lower)) }
    ensures err { IfErr result (λ _. take (length to.old.items) to.new.items ≡ to.old.items) }
{
    if upper == 0 && lower == 0 {
        return Ok(());
    }
    to.extend_from_slice(b".")?;
    let digits = fraction_digits(upper, lower);
    to.extend_from_slice(trim(&digits))
}

// Appends the sign and the whole part.
fn put_front(to: &mut Vec<u8>, minus: bool, whole: u64) -> Result<(), AllocError>
    ensures ok { IfOk result (λ _. to.new.items ≡ to.old.items ++ (sign_text minus ++ decimal whole)) }
    ensures err { IfErr result (λ _. take (length to.old.items) to.new.items ≡ to.old.items) }
{
    if minus {
        to.extend_from_slice(b"-")?;
    }
    let mut buffer = itoa::Buffer::new();
    to.extend_from_slice(buffer.format(whole).as_bytes())
}

// Appends the decimal, or some of its front.
fn put_parts(to: &mut Vec<u8>, units: i64) -> Result<(), AllocError>
    ensures ok { IfOk result (λ _. to.new.items ≡ to.old.items ++ written_units units) }
    ensures err { IfErr result (λ _. take (length to.old.items) to.new.items ≡ to.old.items) }
{
    let size = units.unsigned_abs();
    // The size in parts of 10 ^ 10, and the rest of it in parts of 10 ^ 22.
    let upper = size / 4096;
    let lower = size % 4096 * 244_140_625;
    put_front(to, units < 0, upper / 10_000_000_000)?;
    put_fraction(to, upper % 10_000_000_000, lower)
}

/// Appends the exact decimal of the fine units, of which 40,960,000,000,000 are 1.
pub fn put_decimal(to: &mut Vec<u8>, units: i64) -> Result<(), TextRefusal>
    ensures ok { OnOk result (to.new.items ≡ to.old.items ++ written_units units) }
    ensures err { OnErr result (to.new.items ≡ to.old.items) }
{
    let before = to.len();
    match put_parts(to, units) {
        Ok(()) => Ok(()),
        Err(_) => {
            to.truncate(before);
            Err(TextRefusal::Memory)
        }
    }
}
