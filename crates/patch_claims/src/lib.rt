#![tactic(auto)]
//! A worker's claims: patches are bisected from claim to publication, and names with all that is above them.

pub mod bisect;
pub mod descents;
pub mod draws;
pub mod fills;
pub mod needs;
pub mod patch;
pub mod refine;
pub mod retire;
