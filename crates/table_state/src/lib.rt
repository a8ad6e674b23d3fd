#![tactic(auto)]
//! The rule of the shared mesh table, and what follows in one lawful state.
//!
//! A table's state is lawful where there is a typed state of which the words are the spelling and
//! of which the views are true.

pub mod laws;
