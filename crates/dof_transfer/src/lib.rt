//! Values of vertices and elements by name, which go along with refinement and coarsening.
#![tactic(auto)]

mod bisecting;
mod coarsening;
mod elements;
mod ledger;
mod preparing;
mod refusal;
#[cfg(test)]
mod tests;
mod vertex_ledger;
mod vertices;

pub use elements::ElementValues;
pub use refusal::TransferRefusal;
pub use vertices::VertexValues;
