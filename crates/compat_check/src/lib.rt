#![tactic(auto)]
//! The check of a macro mesh, and what a checked mesh tells of its element names.
//!
//! A mesh is accepted exactly where newest-vertex bisection (Mitchell 1989) is well defined on it:
//! where its elements have grades, as the meshes of ALBERTA (Schmidt and Siebert 2005) that were
//! bisected before do. Every element name on it then has at most one partner.

mod around;
pub mod checking;
mod climbing;
mod earlier;
pub mod edges;
mod grading;
pub mod laws;
pub mod mesh;
mod parts;
mod points;
pub mod refusal;
pub mod steps;
#[cfg(test)]
mod tests;
pub mod triples;
mod twins;
pub mod validity;

pub use checking::check;
pub use mesh::MacroMesh;
pub use refusal::CheckRefusal;
pub use triples::are_in_line;
pub use validity::{check_valid, edge_labels};
