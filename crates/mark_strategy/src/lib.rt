//! Marking strategies: which leaves of a mesh are to be bisected, by a value of each, as an
//! estimate of its error. The size of a value is the value without its sign. All is exact, on whole
//! numbers.
//!
//! Of the three, the maximum strategy takes the leaves whose size is at least a share of the
//! greatest, equidistribution those whose size is above an equal part of a goal, and bulk marking
//! (after Dörfler 1996) as few of the largest as together have a share of the whole.
#![tactic(auto)]

mod bulk;
mod refusal;
mod share;
mod strategies;
#[cfg(test)]
mod tests;

pub use bulk::mark_bulk;
pub use refusal::StrategyRefusal;
pub use share::Share;
pub use strategies::{mark_equal, mark_max};
