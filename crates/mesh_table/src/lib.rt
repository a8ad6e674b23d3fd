#![tactic(auto)]
//! The shared table of a mesh: real words under the rule.

pub mod claims;
pub mod crew;
pub mod fills;
pub mod links;
pub mod looks_owner;
pub mod passes;
pub mod phases;
pub mod pins;
pub mod reads;
pub mod rows;
pub mod rule;
pub mod second_half;
pub mod steps;
pub mod table;
pub mod unclaims;
pub mod walks;
