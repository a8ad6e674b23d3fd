//! A pass with its work.
ghost use Rattle.std.specs.Prelude.{◌≤◌, length, vec_capacity};

use crate::lists::Lists;
use crate::pass::Pass;
use mesh_names::name::ElemName;
use patch_claims::needs::ClaimRefusal;
use patch_claims::refine::Done;

/// A pass with the names that it is to refine, and the answers so far, in the order of the names.
#[derive(Drop)]
pub struct Task {
    pub pass: Pass,
    pub names: Vec<ElemName>,
    pub answers: Vec<Result<Done, ClaimRefusal>>,
    ghost room: { length names.items ≤ vec_capacity answers },
}

/// What a pass did that was joined: the names that it was dealt, the answers, in the order of the names, and its lists.
#[derive(Drop)]
pub struct Joined {
    pub number: u32,
    pub names: Vec<ElemName>,
    pub answers: Vec<Result<Done, ClaimRefusal>>,
    pub lists: Lists,
}
