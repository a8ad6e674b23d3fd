//! Memory that is taken before a round's first claim.
ghost use Rattle.std.specs.Prelude.{IfOk, ◌≤◌};
ghost use Rattle.shared_rounds.specs.Room.{HasHalfRoom, HasRoomOf};

use mesh_names::name::ElemName;
use patch_claims::needs::ClaimRefusal;
use patch_claims::refine::Done;
use std::alloc::{AllocError, Global};
use table_passes::lists::Lists;
use table_passes::work::{Joined, Task};
use table_rounds::patch::{Held, Patch};

/// Empty lists for what worker 0 does.
#[derive(Drop)]
pub struct LastRoom {
    pub lists: Lists,
    pub answers: Vec<Result<Done, ClaimRefusal>>,
    pub tasks: Vec<Task>,
    pub joined: Vec<Joined>,
}

impl LastRoom {
    /// Lists with room for so many names, in a table with this pool.
    pub fn new(alloc: Global, names: usize, pool: u32) -> Result<LastRoom, AllocError>
        ensures { IfOk result (HasRoomOf pool names) }
    {
        Ok(LastRoom {
            lists: Lists::with_room(alloc, pool as usize)?,
            answers: Vec::with_capacity(alloc, names)?,
            tasks: Vec::with_capacity(alloc, 1)?,
            joined: Vec::with_capacity(alloc, 1)?,
        })
    }
}

/// Empty lists for what the owner gathers in the first half of a round.
#[derive(Drop)]
pub struct HalfRoom {
    pub joined: Vec<Joined>,
    pub names: Vec<ElemName>,
    pub last: LastRoom,
    pub blocks: Vec<Patch>,
    pub held: Vec<Held>,
}

impl HalfRoom {
    /// Lists with room for so many names and passes beside worker 0's, in a table with this pool.
    pub fn new(alloc: Global, names: usize, passes: u32, pool: u32) -> Result<HalfRoom, AllocError>
        ensures { IfOk result (HasHalfRoom pool names passes) }
    {
        Ok(HalfRoom {
            joined: Vec::with_capacity(alloc, passes as usize)?,
            names: Vec::with_capacity(alloc, names)?,
            last: LastRoom::new(alloc, names, pool)?,
            blocks: Vec::with_capacity(alloc, pool as usize)?,
            held: Vec::with_capacity(alloc, pool as usize + passes as usize + 1)?,
        })
    }
}
