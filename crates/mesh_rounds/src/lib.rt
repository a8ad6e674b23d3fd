//! Rounds of a mesh: a forest and the values of its vertices and leaves, which go along with it.
#![tactic(auto)]

pub mod adaptive;
pub mod laws;
pub mod resuming;
pub mod round;
mod rows;
mod setting;
pub mod values;
