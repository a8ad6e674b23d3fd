//! What a pass has done, in lists that have their room from the start.
ghost use Rattle.std.specs.Prelude.{◌≡◌, ◌≤◌, IfOk, vec_capacity};
ghost use Rattle.table_passes.specs.Kept.{AreEmpty, failed_in};

use patch_claims::needs::ClaimRefusal;
use patch_claims::patch::{Patch, Spot};
use patch_claims::refine::Done;
use std::alloc::{AllocError, Global};

/// What a pass has done in the round: the patches that it published, in that order, and the places of the patch whose claim got no block, if there is one.
#[derive(Drop)]
pub struct Lists {
    pub published: Vec<Patch>,
    pub failed: Option<Spot>,
}

impl Lists {
    /// Empty lists, with room for so many published patches.
    pub fn with_room(alloc: Global, published: usize) -> Result<Lists, AllocError>
        ensures empty { IfOk result AreEmpty }
        ensures room { IfOk result (λ r. published ≤ vec_capacity r.published) }
    {
        let published = Vec::with_capacity(alloc, published)?;
        Ok(Lists {
            published,
            failed: None,
        })
    }
}

/// The places of the patch whose claim got no block.
pub fn failed_in(answer: &Result<Done, ClaimRefusal>) -> Option<Spot>
    ensures { result ≡ failed_in answer.now }
{
    match answer {
        Err(ClaimRefusal::Full { spot, .. }) => Some(*spot),
        _ => None,
    }
}
