//! A pass of the second half with its work.
ghost use Rattle.std.specs.Prelude.{◌≤◌, length, vec_capacity};

use crate::pass::Pass;
use mesh_names::patch::PatchName;

/// A pass of the second half with the patches that it is to retire, the blocks that it retired, and the patches that are left since a child of theirs was still bisected.
#[derive(Drop)]
pub struct LateTask {
    pub pass: Pass,
    pub patches: Vec<PatchName>,
    pub retired: Vec<u32>,
    pub left: Vec<PatchName>,
    ghost room: { (length patches.items ≤ vec_capacity retired) × (length patches.items ≤ vec_capacity left) },
}

/// What a pass of the second half did that was joined: the patches that it was dealt, the blocks that it retired, and the patches that are left.
#[derive(Drop)]
pub struct LateJoined {
    pub number: u32,
    pub patches: Vec<PatchName>,
    pub retired: Vec<u32>,
    pub left: Vec<PatchName>,
}
