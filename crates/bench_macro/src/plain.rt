/// What a plain pass finds.
#[derive(Clone, Copy)]
pub struct Tally {
    pub lines: u64,
    pub tokens: u64,
    pub sum: u64,
}

/// Finds lines and words, and reads the digits of each word as a whole number.
pub fn pass(bytes: &[u8]) -> Tally {
    let mut lines = 0u64;
    let mut tokens = 0u64;
    let mut sum = 0u64;
    let mut number = 0u64;
    let mut within = false;
    for byte in bytes {
        match *byte {
            b'0'..=b'9' => {
                number = number.wrapping_mul(10).wrapping_add(u64::from(*byte & 15));
                within = true;
            }
            b' ' | b'\t' | b'\n' => {
                if within {
                    tokens = tokens.wrapping_add(1);
                    sum = sum.wrapping_add(number);
                    number = 0;
                    within = false;
                }
                if *byte == b'\n' {
                    lines = lines.wrapping_add(1);
                }
            }
            _ => within = true,
        }
    }
    Tally { lines, tokens, sum }
}
