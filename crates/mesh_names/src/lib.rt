#![tactic(auto)]
//! Names of elements and vertices, the rows that mark them, and the laws of forests of names.
//!
//! Bisection is newest-vertex bisection (Mitchell 1989), in the form of the two-dimensional
//! meshes of ALBERTA (Schmidt and Siebert 2005).

pub mod laws;
pub mod name;
pub mod patch;
pub mod rows;
pub mod spelling;
