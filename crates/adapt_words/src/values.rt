//! What was found for the arguments of a command.
ghost use Rattle.std.specs.Prelude.{◌≡◌, ◌≤◌, codes, option_map, IfSome};
ghost use Rattle.clap.specs.Words.{found_of, rows_of};
ghost use Rattle.adapt_words.specs.Commands.{is_given as is_flag_given, word_of as found_word};
ghost use Rattle.adapt_words.specs.Numbers.{number_or};
ghost use Rattle.adapt_words.specs.Options as spec;

use crate::numbers::number_in;
use clap::ArgMatches;

// The workers where none are given.
const WORKERS: u32 = 4;

const MOST_WORKERS: u32 = 64;

// The pool where none is given.
const POOL: u32 = 65_536;

const LARGEST_POOL: u32 = 1_048_576;

/// The word of an argument.
pub(crate) fn word_of<'a>(matches: &ArgMatches<'a>, id: &str) -> Option<&'a str>
    ensures { option_map (λ word. word.now) result ≡ found_word id.now (rows_of (found_of matches.now)) }
{
    matches.get_str(id)
}

/// Whether a flag stands among the words.
pub(crate) fn is_given(matches: &ArgMatches<'_>, id: &str) -> bool
    ensures { result ≡ is_flag_given id.now (rows_of (found_of matches.now)) }
{
    match word_of(matches, id) {
        Some(value) => value == "true",
        None => false,
    }
}

/// The number of an argument that has to stand.
pub(crate) fn number_of(matches: &ArgMatches<'_>, id: &str, low: u32, high: u32) -> Option<u32>
    ensures told { result ≡ spec.number_of id.now low high (rows_of (found_of matches.now)) }
    ensures range { IfSome result (λ n. (low ≤ n) × (n ≤ high)) }
{
    number_in(low, high, word_of(matches, id)?)
}

// The number of an option, or `left_out` where it is not among the words.
fn number_or(matches: &ArgMatches<'_>, id: &str, left_out: u32, high: u32) -> Option<u32>
    requires { (1 ≤ left_out) × (left_out ≤ high) }
    ensures told { result ≡ number_or left_out 1 high (found_word id.now (rows_of (found_of matches.now))) }
    ensures range { IfSome result (λ n. (1 ≤ n) × (n ≤ high)) }
{
    match word_of(matches, id) {
        Some(word) => number_in(1, high, word),
        None => Some(left_out),
    }
}

/// The number of workers.
pub(crate) fn workers_in(matches: &ArgMatches<'_>) -> Option<u32>
    ensures told { result ≡ spec.workers_in (rows_of (found_of matches.now)) }
    ensures range { IfSome result (λ n. (1 ≤ n) × (n ≤ 64)) }
{
    number_or(matches, "workers", WORKERS, MOST_WORKERS)
}

/// The size of the pool.
pub(crate) fn pool_in(matches: &ArgMatches<'_>) -> Option<u32>
    ensures told { result ≡ spec.pool_in (rows_of (found_of matches.now)) }
    ensures range { IfSome result (λ n. (1 ≤ n) × (n ≤ 1048576)) }
{
    number_or(matches, "pool", POOL, LARGEST_POOL)
}
