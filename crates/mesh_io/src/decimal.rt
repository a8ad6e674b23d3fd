//! Reads a decimal into fine units.
//!
//! A token may have millions of digits. Of its mantissa the first 28 digits are kept, and the others
//! are counted: in the range of the coordinates the fine units depend on no more. Up to eighteen digits
//! are read and divided in 64 bits.
ghost use Rattle.std.specs.Prelude.{◌≡◌, ℕ, ◌+◌, ◌-◌, ◌*◌, ◌/◌, ◌^◌, ◌<◌, ◌≤◌, length, cond, nat_le, Some, None, Ok, Err, IfSome, IfNone, IfOk, true};
ghost use Rattle.std.specs.Bool.{OnTrue};
ghost use Rattle.mesh_io.specs.Decimals.{Decimal, digits_at, after_digits, number, is_minus, unsigned, places_at, after_places, signed_digits, exponent, measured, fine_units, greatest_cut, greatest_units, with_sign};
ghost use Rattle.mesh_io.specs.Decimals.{is_digit as is_digit_byte};
ghost use Rattle.mesh_io.specs.Heads.{Heads};

/// Why a token has no fine units.
#[derive(Clone, Copy, Debug, PartialEq, Eq)]
pub enum DecimalRefusal {
    /// The token is no decimal.
    NotANumber,
    /// The fine units, without their fraction, are more than those of 100,000 in size.
    CoordRange,
}

// The first digits of a number: at most 28 of them, and how many digits came after those.
#[derive(Clone, Copy)]
struct Head {
    kept: u128,
    dropped: usize,
}

const NO_DIGITS: Head = Head {
    kept: 0,
    dropped: 0,
};

// A head from here on has 28 digits.
const FULL: u128 = 1_000_000_000_000_000_000_000_000_000;

// A number below this one has at most seventeen digits.
const SEVENTEEN_DIGITS: u64 = 100_000_000_000_000_000;

// A number below this one has at most eighteen digits.
const EIGHTEEN_DIGITS: u128 = 1_000_000_000_000_000_000;

// The most digits of an exponent.
const EXPONENT_DIGITS: usize = 6;

// A fine unit in parts of 10 ^ -22.
const FINE_UNIT: u128 = 244_140_625;

// The fine units of 100,000.
const GREATEST_UNITS: u64 = 4_096_000_000_000_000_000;

// The greatest whole part that is taken in 64 bits.
const MOST_WHOLE: u64 = 1_000_000_000_000_000;

// The greatest power of ten by which the point is shifted in 64 bits.
const MOST_SHIFT: usize = 15;

// The greatest whole part of a size times 10 ^ 22 that is in the range.
const GREATEST_CUT: u128 = 1_000_000_000_000_000_000_244_140_624;

/// Whether the byte is one of `0` to `9`.
pub fn is_digit(c: u8) -> bool
    ensures value { result ≡ is_digit_byte c }
    ensures range { OnTrue result ((48 ≤ c) × (c ≤ 57)) }
{
    c >= b'0' && c <= b'9'
}

// The head with one more digit.
fn more(head: Head, c: u8) -> Head
    requires digit { (48 ≤ c) × (c ≤ 57) }
    requires room { head.dropped + 1 < 2 ^ 64 }
    ensures heads { (m : ℕ) → Heads m head.kept head.dropped → Heads (10 * m + (c - 48)) result.kept result.dropped }
    ensures room { result.dropped ≤ head.dropped + 1 }
{
    if head.kept < FULL {
        Head {
            kept: head.kept * 10 + u128::from(c - b'0'),
            dropped: head.dropped,
        }
    } else {
        Head {
            kept: head.kept,
            dropped: head.dropped + 1,
        }
    }
}

// The number with the digits at the front, as far as they fit in 64 bits, and what stands after those.
fn few_digits(start: u64, bytes: &[u8]) -> (u64, &[u8])
    requires { start < 10 ^ 18 }
    ensures number { number result.0 (digits_at result.1.now) ≡ number start (digits_at bytes.now) }
    ensures rest { after_digits result.1.now ≡ after_digits bytes.now }
    ensures short { length result.1.now ≤ length bytes.now }
    ensures small { result.0 < 10 ^ 18 }
{
    let mut size = start;
    let mut rest = bytes;
    while let [c, after @ ..] = rest {
        if size >= SEVENTEEN_DIGITS || !is_digit(*c) {
            break;
        }
        size = size * 10 + u64::from(*c - b'0');
        rest = after;
    }
    (size, rest)
}

// The head with the digits at the front of the bytes, and what stands after them: the first eighteen
// digits are read in 64 bits.
fn digits(start: Head, bytes: &[u8]) -> (Head, &[u8])
    requires { start.dropped + length bytes.now < 2 ^ 64 }
    ensures heads { (m : ℕ) → Heads m start.kept start.dropped → Heads (number m (digits_at bytes.now)) result.0.kept result.0.dropped }
    ensures rest { result.1.now ≡ after_digits bytes.now }
    ensures room { result.0.dropped + length result.1.now ≤ start.dropped + length bytes.now }
{
    if start.dropped > 0 || start.kept >= EIGHTEEN_DIGITS {
        return more_digits(start, bytes);
    }
    let (size, rest) = few_digits(start.kept as u64, bytes);
    more_digits(
        Head {
            kept: u128::from(size),
            dropped: 0,
        },
        rest,
    )
}

// The same, digit by digit.
fn more_digits(start: Head, bytes: &[u8]) -> (Head, &[u8])
    requires { start.dropped + length bytes.now < 2 ^ 64 }
    ensures heads { (m : ℕ) → Heads m start.kept start.dropped → Heads (number m (digits_at bytes.now)) result.0.kept result.0.dropped }
    ensures rest { result.1.now ≡ after_digits bytes.now }
    ensures room { result.0.dropped + length result.1.now ≤ start.dropped + length bytes.now }
{
    let mut head = start;
    let mut rest = bytes;
    while let [c, after @ ..] = rest {
        if !is_digit(*c) {
            break;
        }
        head = more(head, *c);
        rest = after;
    }
    (head, rest)
}

/// Whether a `-` stands at the front, and what stands after an optional `+` or `-`.
pub fn sign(bytes: &[u8]) -> (bool, &[u8])
    ensures minus { result.0 ≡ is_minus bytes.now }
    ensures rest { result.1.now ≡ unsigned bytes.now }
{
    match bytes {
        [b'-', rest @ ..] => (true, rest),
        [b'+', rest @ ..] => (false, rest),
        _ => (false, bytes),
    }
}

// The sign and size of an exponent, from all bytes after its letter; None where they are no exponent.
fn exponent_text(text: &[u8]) -> Option<(bool, u128)>
    requires { length text.now < 2 ^ 64 }
    ensures value { result ≡ signed_digits text.now }
    ensures small { IfSome result (λ e. e.1 < 1000000) }
{
    let (minus, bare) = sign(text);
    if bare.is_empty() || bare.len() > EXPONENT_DIGITS {
        return None;
    }
    let (head, rest) = digits(NO_DIGITS, bare);
    if rest.is_empty() {
        Some((minus, head.kept))
    } else {
        None
    }
}

// An exponent's sign and size, from all of the bytes; None where they are no exponent.
fn exponent_of(bytes: &[u8]) -> Option<(bool, u128)>
    requires { length bytes.now < 2 ^ 64 }
    ensures value { result ≡ exponent bytes.now }
    ensures small { IfSome result (λ e. e.1 < 1000000) }
{
    match bytes {
        [] => Some((false, 0)),
        [b'e', text @ ..] => exponent_text(text),
        [b'E', text @ ..] => exponent_text(text),
        _ => None,
    }
}

// The whole part of kept * 10 ^ up / 10 ^ down; None where it is above the range.
fn scaled(kept: u128, up: u128, down: u128) -> Option<u128>
    requires { kept < 10 ^ 28 }
    ensures some { IfSome result (λ c. (c ≡ kept * 10 ^ up / 10 ^ down) × (c ≤ greatest_cut)) }
    ensures none { IfNone result (greatest_cut < kept * 10 ^ up / 10 ^ down) }
{
    if kept == 0 {
        return Some(0);
    }
    if up < down {
        let by = down - up;
        return if by > 28 {
            Some(0)
        } else {
            Some(kept / 10u128.pow(by as u32))
        };
    }
    let by = up - down;
    if by > 28 {
        return None;
    }
    let power = 10u128.pow(by as u32);
    if kept > GREATEST_CUT / power {
        None
    } else {
        Some(kept * power)
    }
}

// The head with the digits after a point, how many they are, and what stands after them.
fn places(whole: Head, after: &[u8]) -> (Head, usize, &[u8])
    requires { whole.dropped + length after.now < 2 ^ 63 }
    ensures heads { (m : ℕ) → Heads m whole.kept whole.dropped → Heads (number m (places_at after.now)) result.0.kept result.0.dropped }
    ensures places { result.1 ≡ length (places_at after.now) }
    ensures rest { result.2.now ≡ after_places after.now }
    ensures room { result.0.dropped < 2 ^ 63 }
    ensures short { (result.1 ≤ length after.now) × (length result.2.now ≤ length after.now) }
{
    match after {
        [b'.', text @ ..] => {
            let (all, rest) = digits(whole, text);
            (all, text.len() - rest.len(), rest)
        }
        _ => (whole, 0, after),
    }
}

// The digits of a number around its point.
#[derive(Clone, Copy)]
struct Mantissa<'a> {
    head: Head,
    // How many digits there are, and how many of them stand after the point.
    count: usize,
    places: usize,
    rest: &'a [u8],
}

// The mantissa at the front of the bytes, and what stands after it.
fn mantissa_of(bare: &[u8]) -> Mantissa<'_>
    requires { length bare.now < 2 ^ 63 }
    ensures heads { Heads (number (number 0 (digits_at bare.now)) (places_at (after_digits bare.now))) result.head.kept result.head.dropped }
    ensures count { result.count ≡ length (digits_at bare.now) + length (places_at (after_digits bare.now)) }
    ensures places { result.places ≡ length (places_at (after_digits bare.now)) }
    ensures rest { result.rest.now ≡ after_places (after_digits bare.now) }
    ensures room { result.head.dropped < 2 ^ 63 }
    ensures short { (result.places ≤ length bare.now) × (length result.rest.now ≤ length bare.now) }
{
    let (whole, after) = digits(NO_DIGITS, bare);
    let (head, places, rest) = places(whole, after);
    Mantissa {
        head,
        count: bare.len() - after.len() + places,
        places,
        rest,
    }
}

// A power of ten, from a table.
fn power_of_ten(by: usize) -> u64
    requires { by ≤ 15 }
    ensures { result ≡ 10 ^ by }
{
    match by {
        0 => 1,
        1 => 10,
        2 => 100,
        3 => 1_000,
        4 => 10_000,
        5 => 100_000,
        6 => 1_000_000,
        7 => 10_000_000,
        8 => 100_000_000,
        9 => 1_000_000_000,
        10 => 10_000_000_000,
        11 => 100_000_000_000,
        12 => 1_000_000_000_000,
        13 => 10_000_000_000_000,
        14 => 100_000_000_000_000,
        _ => 1_000_000_000_000_000,
    }
}

// The whole part of m * 4096 * 10 ^ up / 10 ^ down, where 64 bits are enough for it.
fn short_units(m: u64, up: usize, down: usize) -> Option<u64>
    ensures { IfSome result (λ u. u ≡ m * 4096 * 10 ^ up / 10 ^ down) }
{
    if up < down {
        let by = down - up;
        if by > MOST_SHIFT {
            return None;
        }
        let power = power_of_ten(by);
        let whole = m / power;
        if whole > MOST_WHOLE {
            return None;
        }
        Some(whole * 4096 + m % power * 4096 / power)
    } else {
        let by = up - down;
        if by > MOST_SHIFT {
            return None;
        }
        let whole = m.checked_mul(power_of_ten(by))?;
        if whole > MOST_WHOLE {
            return None;
        }
        Some(whole * 4096)
    }
}

// The fine units of a number of this size.
fn signed_units(minus: bool, units: u64) -> Result<i64, DecimalRefusal>
    ensures { result ≡ cond (nat_le units greatest_units) (Ok (with_sign minus units)) (Err DecimalRefusal.CoordRange) }
{
    if units > GREATEST_UNITS {
        return Err(DecimalRefusal::CoordRange);
    }
    let size = units as i64;
    Ok(if minus { -size } else { size })
}

// The fine units of a number with this head.
fn in_units(
    minus: bool,
    head: Head,
    places: usize,
    up: u128,
    down: u128,
) -> Result<i64, DecimalRefusal>
    requires size { head.kept < 10 ^ 28 }
    requires small { (head.dropped < 2 ^ 63) × (places < 2 ^ 63) × (up < 1000000) × (down < 1000000) }
    ensures { (m : ℕ) → Heads m head.kept head.dropped → result ≡ measured (Some (record { minus = minus; mantissa = m; places = places; up = up; down = down })) }
{
    if head.dropped == 0 && head.kept < EIGHTEEN_DIGITS {
        if let Some(units) = short_units(
            head.kept as u64,
            10 + up as usize,
            places + down as usize,
        ) {
            return signed_units(minus, units);
        }
    }
    match scaled(
        head.kept,
        head.dropped as u128 + 22 + up,
        places as u128 + down,
    ) {
        None => Err(DecimalRefusal::CoordRange),
        Some(cut) => {
            let units = (cut / FINE_UNIT) as i64;
            Ok(if minus { -units } else { units })
        }
    }
}

/// The fine units of a decimal, without their fraction. 40,960,000,000,000 fine units are 1.
///
/// It takes no memory.
pub fn read_decimal(token: &[u8]) -> Result<i64, DecimalRefusal>
    ensures { result ≡ fine_units token.now }
{
    let (minus, bare) = sign(token);
    let number = mantissa_of(bare);
    if number.count == 0 {
        return Err(DecimalRefusal::NotANumber);
    }
    match exponent_of(number.rest) {
        None => Err(DecimalRefusal::NotANumber),
        Some((below, size)) => {
            if below {
                in_units(minus, number.head, number.places, 0, size)
            } else {
                in_units(minus, number.head, number.places, size, 0)
            }
        }
    }
}
