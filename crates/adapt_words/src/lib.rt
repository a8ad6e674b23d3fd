//! The words of the program `adapt`: which command they give, with which files, numbers and options.
#![tactic(auto)]

mod commands;
mod finding;
mod mending;
mod numbers;
mod restarts;
mod rounds;
mod rules;
mod values;
mod words;

pub use finding::Find;
pub use mending::Mend;
pub use restarts::{Join, Resume, Save};
pub use rounds::{Mark, Run, Soak};
pub use rules::Rule;
pub use words::{Command, USAGE, WordsRefusal, read_words};

#[cfg(test)]
mod tests;
