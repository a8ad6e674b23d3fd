#![tactic(auto)]
//! Rounds on a forest that is held as a tree of names. A round looks up what it touches, and goes
//! over all leaves only where a row for every leaf has a mark other than 0.

mod coarsened;
pub mod forest;
pub mod grown;
pub mod held;
mod leaves;
pub mod lessened;
mod marked;
pub mod plan;
pub mod refining;
mod rows;
mod slots;
