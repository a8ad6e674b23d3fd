#![tactic(auto)]
//! The program `adapt` as one call.

pub mod ending;
pub mod fault;
pub mod finding;
pub mod joining;
pub mod laws;
pub mod load;
pub mod macro_lines;
pub mod marking;
pub mod mending;
pub mod outcome;
pub mod program;
pub mod reports;
mod restart_lines;
pub mod resuming;
pub mod rounds;
pub mod saving;
pub mod soaking;
