#![tactic(auto)]
//! Refinement edges chosen anew, so that newest-vertex bisection is well defined on a mesh.
//!
//! Elements are put in pairs along shared edges, and the edge of a pair becomes the refinement edge of
//! both its elements. An element that stays alone takes an edge on the boundary. So two elements at a
//! refinement edge have it both, and all grades are 0. No vertex and no element is added.
//!
//! There is such a pairing for each triangulation. Take the mesh twice, and let each element at the
//! boundary have its own double as a neighbour there, once for each edge that it has on the boundary:
//! every element has three neighbours now. No shared edge is a bridge between them, since the elements
//! round an end of the edge make a circle. A graph like that has a perfect matching (Petersen 1891); an
//! element that it puts together with its own double is one that stays alone.
//!
//! The pairing is found by taking neighbours in order and mending what is left along alternating paths
//! (Edmonds 1965). Its way to the pairing is not proved. What is found is checked.

pub mod laws;
mod neighbours;
pub mod orienting;
mod pairing;
pub mod refusal;
mod search;
#[cfg(test)]
mod tests;
mod turning;

pub use orienting::orient;
pub use refusal::OrientRefusal;
