#![tactic(auto)]
//! The text of a mesh: its sizes, where its vertices lie, the corners, labels and neighbours of its
//! leaves, and the values of both. It is the text of the macro mesh that the leaves form.
//!
//! The vertices are numbered as the leaves are read: first those of the macro mesh, which keep their
//! numbers, and then each other vertex where it first appears as a leaf's corner. With n leaves both
//! calls take n log n time.

mod line;
mod links;
pub mod numbering;
mod order;
mod others;
mod owners;
mod pieces;
pub mod refusal;
mod slots;
#[cfg(test)]
mod tests;
pub mod text;
mod values;
mod walk;
