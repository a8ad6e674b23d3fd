//! The steps of a worker's pass in the second half of a round: its walk goes on at the last finished round, and it retires patches.
ghost use Rattle.std.specs.Prelude.{◌≡◌, ℕ, Bool, ◌<◌, true};
ghost use Rattle.table_words.specs.Entries.{HasEntry};
ghost use Rattle.table_words.specs.Layout.{IsElemAt};
ghost use Rattle.table_words.specs.NameWords.{name_code};
ghost use Rattle.table_words.specs.Places.{place_number};
ghost use Rattle.table_words.specs.Views.{At, Worker};
ghost use Rattle.table_state.specs.Lists.{IsClosed};
ghost use Rattle.mesh_table.specs.SecondHalf.{IsOld, MayOpen, MayRetire, WorksLate, arriving_late, dying, opened, retiring, with_mate};
ghost use Rattle.mesh_table.specs.Sights.{setup_at};
ghost use Rattle.mesh_table.specs.Told.{IsOf, Stays, sight};

use crate::rule::MeshSeat;
use crate::steps::Tells;
use crate::table::MeshTable;
use mesh_names::name::ElemName;
use std::marker::Brand;
use table_words::layout::{ElemAt, SEATS};

impl<'m> MeshTable<'m> {
    /// Loads BORN of the block to which the walk has gone: a block of a finished round is the name's, another is passed by.
    pub fn walk_late(
        &self,
        seat: &mut MeshSeat,
        at: ElemAt,
        name: ElemName,
        block: u32,
        second: bool,
    ) -> u64
        requires fit { IsOf self.now.table.shared.table_id seat.old }
        requires works { WorksLate (sight seat.old) }
        requires block { block < self.now.site.layout.pool }
        requires walk { (sight seat.old).work.walk ≡ At (place_number self.now.site.layout at) (name_code name) block second }
        ensures stays { Stays seat.old seat.new }
        ensures view { sight seat.new ≡ arriving_late (setup_at self.now.site) (place_number self.now.site.layout at) (name_code name) block second result (sight seat.old) }
    {
        self.get::<Brand, (ElemAt, ElemName, u32, bool)>(
            seat,
            self.site.layout.born(block),
            (at, name, block, second),
        )
    }

    /// Loads the second NAME word of a block that the last finished round has for a first member: 0, or the other member, which the block bisects too.
    pub fn look_mate(&self, seat: &mut MeshSeat, first: ElemName, block: u32) -> u64
        requires fit { IsOf self.now.table.shared.table_id seat.old }
        requires works { WorksLate (sight seat.old) }
        requires block { block < self.now.site.layout.pool }
        requires leads { (setup_at self.now.site).leads (name_code first) ≡ true }
        requires had { HasEntry (sight seat.old).work.had (block, name_code first) }
        ensures stays { Stays seat.old seat.new }
        ensures view { sight seat.new ≡ with_mate (setup_at self.now.site) block result (sight seat.old) }
        ensures mate { result ≡ (setup_at self.now.site).mate (name_code first) }
    {
        self.get::<Brand, (ElemName, u32)>(seat, self.site.layout.name(block, true), (first, block))
    }

    /// Loads DIED of a block that the last finished round has for a name, which is of the target then: above 0 the name is not bisected any more, and it is above 0 where that was known.
    pub fn look_dying(&self, seat: &mut MeshSeat, name: ElemName, block: u32) -> u64
        requires fit { IsOf self.now.table.shared.table_id seat.old }
        requires works { WorksLate (sight seat.old) }
        requires block { block < self.now.site.layout.pool }
        requires had { HasEntry (sight seat.old).work.had (block, name_code name) }
        ensures stays { Stays seat.old seat.new }
        ensures view { sight seat.new ≡ dying block (name_code name) result (sight seat.old) }
        ensures target { HasEntry (sight seat.old).work.plan.target (name_code name) }
        ensures undead { result ≡ 0 → HasEntry (sight seat.old).work.open_ (name_code name) → ⊥ }
    {
        self.get::<Brand, (ElemName, u32)>(seat, self.site.layout.died(block), (name, block))
    }

    /// Loads the LINK word of an element that is not of the target: it is not bisected.
    pub fn look_leaf(&self, seat: &mut MeshSeat, at: ElemAt, name: ElemName) -> u64
        requires fit { IsOf self.now.table.shared.table_id seat.old }
        requires place { IsElemAt self.now.site.layout at }
        requires may { MayOpen (sight seat.old) (place_number self.now.site.layout at) (name_code name) }
        ensures stays { Stays seat.old seat.new }
        ensures view { sight seat.new ≡ opened (name_code name) (sight seat.old) }
    {
        self.get::<Brand, ElemName>(seat, self.site.layout.link(at), name)
    }

    /// Writes the current round into DIED of the block of a patch, and answers the old DIED: 0 where this call retired the patch.
    pub fn retire_block(&self, seat: &mut MeshSeat, first: ElemName, block: u32, round: u32) -> u64
        requires fit { IsOf self.now.table.shared.table_id seat.old }
        requires block { block < self.now.site.layout.pool }
        requires round { ((sight seat.old).work.round ≡ round) × (0 < round) }
        requires may { MayRetire (setup_at self.now.site) (sight seat.old) block (name_code first) }
        ensures stays { Stays seat.old seat.new }
        ensures view { sight seat.new ≡ retiring (setup_at self.now.site) block (name_code first) result (sight seat.old) }
    {
        self.set_bits::<Brand, (ElemName, u32)>(
            seat,
            self.site.layout.died(block),
            round as u64,
            (first, block),
        )
    }

    /// Tells what the pass knows of the last finished round: no name that it was told was found absent, and with each such name the parent was told, and the other member of its patch.
    pub fn look_told(&self, seat: &mut MeshSeat)
        requires fit { IsOf self.now.table.shared.table_id seat.old }
        requires works { (sight seat.old).kind ≡ Worker }
        ensures stays { Stays seat.old seat.new }
        ensures same { sight seat.new ≡ sight seat.old }
        ensures present { (k : ℕ) → IsOld (sight seat.old) k → HasEntry (sight seat.old).work.absent k → ⊥ }
        ensures closed { IsClosed (setup_at self.now.site) (IsOld (sight seat.old)) }
    {
        self.get::<Brand, ()>(seat, SEATS, ());
    }
}
