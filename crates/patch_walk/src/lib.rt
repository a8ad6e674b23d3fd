#![tactic(auto)]
//! Walks of passes to the elements of the shared table: at the current round, and at a pinned one.

pub mod climbs;
pub mod finished;
pub mod looks;
pub mod pinned;
pub mod places;
pub mod visits;
