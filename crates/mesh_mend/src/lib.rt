#![tactic(auto)]
//! A compatible mesh of any triangulation: each element is cut at its centre into three.
//!
//! The refinement edges of a mesh that comes from a mesh generator rarely fit together. In the mended
//! mesh each edge of the old one is the refinement edge of the elements at it, on both sides, so that
//! newest-vertex bisection (Mitchell 1989) is well defined, and all grades are 0.

mod centres;
mod cutting;
mod flatness;
pub mod laws;
pub mod mending;
pub mod refusal;
#[cfg(test)]
mod tests;

pub use mending::mend;
pub use refusal::MendRefusal;
