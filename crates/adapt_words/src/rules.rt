//! The word RULE.
ghost use Rattle.std.specs.Prelude.{◌≡◌, ◌<◌, ◌≤◌, IfSome};
ghost use Rattle.adapt_words.specs.Rules as spec;

use crate::numbers::{begins_with_plus, number_in};
use mark_strategy::Share;

// The most digits of a goal.
const GOAL_DIGITS: usize = 19;

const LARGEST_GOAL: u64 = 4_611_686_018_427_387_904;

const LARGEST_WHOLE: u32 = 1_000_000;

/// Which leaves are to be marked.
#[derive(Clone, Copy, Debug, PartialEq, Eq)]
pub enum Rule {
    /// `max:P/Q`: those whose size is at least this share of the greatest.
    Max(Share),
    /// `bulk:P/Q`: the fewest that together have this share of all sizes.
    Bulk(Share),
    /// `equal:G`: those whose size is above an equal part of this goal, which is at most 2^62.
    Equal(u64),
}

/// The rule that a word gives.
#[tactic(auto, unfolding(crate::specs::Rules::rule_in))]
pub(crate) fn rule_in(word: &str) -> Option<Rule>
    ensures { result ≡ spec.rule_in word.now }
{
    let (kind, text) = halves(word, ':');
    if kind == "max" {
        return share_in(text).map(Rule::Max);
    }
    if kind == "bulk" {
        return share_in(text).map(Rule::Bulk);
    }
    if kind == "equal" {
        return goal_in(text).map(Rule::Equal);
    }
    None
}

// What stands before and after the first of these marks; all and nothing where there is none.
fn halves<'a>(word: &'a str, mark: char) -> (&'a str, &'a str)
    requires { mark < 128 }
    ensures front { result.0.now ≡ spec.front mark word.entry.now }
    ensures back { result.1.now ≡ spec.back mark word.entry.now }
{
    match word.split_once(mark) {
        Some(halves) => halves,
        None => (word, ""),
    }
}

// The share that two numbers with a `/` between them give.
#[tactic(auto, unfolding(crate::specs::Rules::share_in))]
fn share_in(word: &str) -> Option<Share>
    ensures { result ≡ spec.share_in word.now }
{
    let (part, whole) = halves(word, '/');
    let part = number_in(0, LARGEST_WHOLE, part)?;
    let whole = number_in(1, LARGEST_WHOLE, whole)?;
    Share::new(part, whole)
}

// The goal that one to nineteen digits give.
fn goal_in(word: &str) -> Option<u64>
    ensures told { result ≡ spec.goal_in word.now }
    ensures small { IfSome result (λ goal. goal ≤ 4611686018427387904) }
{
    if word.len() > GOAL_DIGITS || begins_with_plus(word) {
        return None;
    }
    let Ok(goal) = word.parse::<u64>() else {
        return None;
    };
    if goal > LARGEST_GOAL {
        return None;
    }
    Some(goal)
}
