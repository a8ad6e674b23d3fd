#![tactic(auto)]
//! The passes of the shared table: the owner's seat, workers' passes with their rounds and numbers, and passes at work in threads.

pub mod dealing;
pub mod late;
pub mod late_work;
pub mod lists;
pub mod owner;
pub mod pass;
pub mod refining;
pub mod retiring;
pub mod second_half;
pub mod shares;
pub mod tasks;
#[cfg(test)]
mod tests;
pub mod work;
