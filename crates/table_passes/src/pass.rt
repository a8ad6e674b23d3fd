//! A worker's pass.
ghost use Rattle.std.specs.Prelude.{◌≡◌};
ghost use Rattle.mesh_table.specs.Told.{sight};

use crate::lists::Lists;
use mesh_table::rule::MeshSeat;

/// A worker's pass: a thread's seat, with the round that it works on, its number, and what it has done.
#[derive(Drop)]
pub struct Pass {
    pub seat: MeshSeat,
    pub round: u32,
    pub number: u32,
    pub lists: Lists,
    ghost known: { (sight seat).work.round ≡ round },
    ghost numbered: { (sight seat).work.number ≡ number },
}

impl Pass {
    /// The round that it works on.
    pub fn working(&self) -> u32
        ensures { (sight self.now.seat).work.round ≡ result }
    {
        self.round
    }

    /// The number that it was made with.
    pub fn number(&self) -> u32
        ensures { (sight self.now.seat).work.number ≡ result }
    {
        self.number
    }
}
