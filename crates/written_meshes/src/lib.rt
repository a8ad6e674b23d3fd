#![tactic(auto)]
//! A mesh that was written is read again: it is accepted, and rounds go on from it as if it had never
//! been written, under a renaming of elements and vertices.
//!
//! Nothing here runs: the laws stand over the definitions of the mesh text, the check and the rounds.

pub mod laws;
