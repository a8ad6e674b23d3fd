#![tactic(auto)]
//! Restart files: a macro file and a forest of bisections over it, kept so that a run goes on from
//! it later; and the overlay of two such forests, their least common refinement.

mod head;
mod joining;
pub mod laws;
mod lines;
mod members;
mod reading;
mod refusal;
#[cfg(test)]
mod tests;
mod walk;
mod writing;

pub use joining::{join, overlay};
pub use reading::{Restart, read_restart};
pub use refusal::RestartRefusal;
pub use writing::put_restart;
