//! Indices of degrees of freedom (DOFs): numbers from 0 on that are got and given back. What is
//! given back leaves a hole, and the least hole is got first. Compression renumbers the used
//! indices without holes, and keeps their order.
#![tactic(auto)]

mod admin;
mod refusal;
mod renumber;
#[cfg(test)]
mod tests;

pub use admin::DofAdmin;
pub use refusal::DofRefusal;
