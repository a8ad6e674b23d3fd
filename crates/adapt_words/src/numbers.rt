//! Numbers of words.
ghost use Rattle.std.specs.Prelude.{◌≡◌, ◌≢◌, ◌≤◌, get_or, IfSome};
ghost use Rattle.std.specs.Bool.{MatchBool};
ghost use Rattle.adapt_words.specs.Numbers.{number_in as number_in_word};

// The most digits of a number.
const DIGITS: usize = 7;

/// The number from `low` to `high` that one to seven digits give.
pub(crate) fn number_in(low: u32, high: u32, word: &str) -> Option<u32>
    ensures told { result ≡ number_in_word low high word.now }
    ensures range { IfSome result (λ n. (low ≤ n) × (n ≤ high)) }
{
    if word.len() > DIGITS || begins_with_plus(word) {
        return None;
    }
    let Ok(number) = word.parse::<u32>() else {
        return None;
    };
    if number < low || number > high {
        return None;
    }
    Some(number)
}

// A text with a plus is a number for `parse`.
pub(crate) fn begins_with_plus(word: &str) -> bool
    ensures { MatchBool result (get_or word.now 0 0 ≡ 43) (get_or word.now 0 0 ≢ 43) }
{
    word.as_bytes().first() == Some(&b'+')
}
