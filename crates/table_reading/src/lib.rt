#![tactic(auto)]
//! What is read from the words of a lawful state of the shared mesh table: the names that a walk finds
//! bisected at a round are a conforming forest.

pub mod laws;
