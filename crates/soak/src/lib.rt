#![tactic(auto)]
//! A long run made of two numbers: a grid of triangles, and marks that are drawn for its leaves,
//! round by round, by a generator whose numbers look random.

pub mod generator;
pub mod grids;
pub mod laws;
pub mod rounds;
#[cfg(test)]
mod tests;

pub use generator::Draws;
pub use grids::grid;
pub use rounds::draw_round;
