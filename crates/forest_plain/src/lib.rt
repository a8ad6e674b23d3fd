#![tactic(auto)]
//! Rounds on a forest that is held as a plain set of names: the definition's own program, with
//! which faster forests are compared. One round costs at most n log n in the names that it
//! holds and adds.

pub mod any_forest;
pub mod closing;
pub mod coarsening;
pub mod delta;
pub mod forest;
pub mod laws;
pub mod leaf_marks;
pub mod leaves;
pub mod marks;
pub mod name_set;
pub mod names;
pub mod needs;
pub mod refined;
pub mod refusal;
pub mod rows;
pub mod run;

pub use any_forest::Forest;

#[cfg(test)]
mod tests;
