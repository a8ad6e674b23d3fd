//! Loads of the owner.
ghost use Rattle.std.specs.Prelude.{◌≡◌, ◌≢◌, ℕ, ◌+◌, ◌*◌, ◌/◌, ◌%◌, ◌<◌, ◌≤◌, ◌^◌, false, true, List, ◌∷◌, []};
ghost use Rattle.table_words.specs.Claims.{Claimed, Drawn, Half, Living, Whole, claim};
ghost use Rattle.table_words.specs.Entries.{HasEntry, Noted};
ghost use Rattle.table_words.specs.Layout.{IsElemAt};
ghost use Rattle.table_words.specs.Places.{member_of, place_number};
ghost use Rattle.table_words.specs.Views.{FirstHalf, Owner};
ghost use Rattle.table_words.specs.Words.{Node, node, node_of};
ghost use Rattle.mesh_table.specs.Sights.{setup_at};
ghost use Rattle.mesh_table.specs.Told.{IsOf, Stays, mate_number, noted_died, noted_head, noted_history, noted_name, sight};
ghost use Rattle.mesh_table.specs.Rounds.{MayTake, clearing, counted_cursor, counted_free, noted_born, quieting, seen_released, taken};

use crate::rule::MeshSeat;
use crate::steps::Tells;
use crate::table::MeshTable;
use std::marker::Brand;
use table_words::layout::{CURSOR, ElemAt, FREE, ROUND};

impl<'m> MeshTable<'m> {
    /// Loads the LINK word of a place, while no worker's pass is out: what was noted of it before is found again.
    pub fn look_head(&self, owner: &mut MeshSeat, at: ElemAt) -> u64
        requires fit { IsOf self.now.table.shared.table_id owner.old }
        requires place { IsElemAt self.now.site.layout at }
        requires rules { (sight owner.old).kind ≡ Owner }
        requires home { (sight owner.old).ruling.workers ≡ 0 }
        ensures stays { Stays owner.old owner.new }
        ensures view { sight owner.new ≡ noted_head (sight owner.old) (place_number self.now.site.layout at) (node_of result) }
        ensures again { (l : Node) → Noted (sight owner.old).owned.head (place_number self.now.site.layout at) l → node_of result ≡ l }
    {
        self.get::<Brand, ElemAt>(owner, self.site.layout.link(at), at)
    }

    /// Loads a HISTORY word, and notes what it names.
    pub fn look_history(&self, owner: &mut MeshSeat, block: u32, second: bool) -> u64
        requires fit { IsOf self.now.table.shared.table_id owner.old }
        requires block { block < self.now.site.layout.pool }
        requires rules { (sight owner.old).kind ≡ Owner }
        ensures stays { Stays owner.old owner.new }
        ensures view { sight owner.new ≡ noted_history (sight owner.old) (member_of block second) (node_of result) }
    {
        self.get::<Brand, (u32, bool)>(
            owner,
            self.site.layout.history(block, second),
            (block, second),
        )
    }

    /// Loads DIED: a block that is known as retired in the current round was so, and was not rolled back.
    pub fn look_died(&self, owner: &mut MeshSeat, block: u32) -> u64
        requires fit { IsOf self.now.table.shared.table_id owner.old }
        requires block { block < self.now.site.layout.pool }
        requires rules { (sight owner.old).kind ≡ Owner }
        ensures stays { Stays owner.old owner.new }
        ensures view { sight owner.new ≡ noted_died (sight owner.old) block result }
        ensures retired { HasEntry (sight owner.old).ruling.retired block → (result ≡ (sight owner.old).ruling.finished + 1) × (HasEntry (sight owner.old).ruling.rolled_back block → ⊥) }
    {
        self.get::<Brand, u32>(owner, self.site.layout.died(block), block)
    }

    /// Loads BORN, and notes it.
    pub fn look_born(&self, owner: &mut MeshSeat, block: u32) -> u64
        requires fit { IsOf self.now.table.shared.table_id owner.old }
        requires block { block < self.now.site.layout.pool }
        requires rules { (sight owner.old).kind ≡ Owner }
        ensures stays { Stays owner.old owner.new }
        ensures view { sight owner.new ≡ noted_born (sight owner.old) block result }
    {
        self.get::<Brand, u32>(owner, self.site.layout.born(block), block)
    }

    /// Loads CURSOR after the first half of a round.
    pub fn count_drawn(&self, owner: &mut MeshSeat) -> u64
        requires fit { IsOf self.now.table.shared.table_id owner.old }
        requires rules { (sight owner.old).kind ≡ Owner }
        requires half { (sight owner.old).ruling.phase ≢ FirstHalf }
        ensures stays { Stays owner.old owner.new }
        ensures view { sight owner.new ≡ counted_cursor (sight owner.old) result }
    {
        self.get::<Brand, ()>(owner, CURSOR, ())
    }

    /// Loads FREE.
    pub fn count_free(&self, owner: &mut MeshSeat) -> u64
        requires fit { IsOf self.now.table.shared.table_id owner.old }
        requires rules { (sight owner.old).kind ≡ Owner }
        ensures stays { Stays owner.old owner.new }
        ensures view { sight owner.new ≡ counted_free (sight owner.old) result }
    {
        self.get::<Brand, ()>(owner, FREE, ())
    }

    /// Loads RELEASED of a round that was left with a number of pins: where it shows as many, the round is drained.
    pub fn look_drained(&self, owner: &mut MeshSeat, round: u32, pins: u64) -> u64
        requires fit { IsOf self.now.table.shared.table_id owner.old }
        requires round { round ≤ self.now.site.layout.rounds }
        requires rules { (sight owner.old).kind ≡ Owner }
        requires left { HasEntry (sight owner.old).ruling.left (round, pins) }
        ensures stays { Stays owner.old owner.new }
        ensures view { sight owner.new ≡ clearing round pins result (sight owner.old) }
    {
        self.get::<Brand, (u32, u64)>(owner, self.site.layout.released(round), (round, pins))
    }

    /// Takes the block of the last row of the stock into the hand.
    pub fn take_row(&self, owner: &mut MeshSeat, number: u32) -> u64
        requires fit { IsOf self.now.table.shared.table_id owner.old }
        requires row { number < self.now.site.layout.pool }
        requires may { MayTake (sight owner.old) number }
        ensures stays { Stays owner.old owner.new }
        ensures view { sight owner.new ≡ taken (sight owner.old) number result }
        ensures new { HasEntry (sight owner.old).ruling.hand result → ⊥ }
        ensures pool { result < self.now.site.layout.pool }
    {
        self.get::<Brand, u32>(owner, self.site.layout.row(number), number)
    }

    /// Loads RELEASED of the last finished round.
    pub fn look_released(&self, owner: &mut MeshSeat, round: u32) -> u64
        requires fit { IsOf self.now.table.shared.table_id owner.old }
        requires round { ((sight owner.old).ruling.finished ≡ round) × (round ≤ self.now.site.layout.rounds) }
        requires rules { (sight owner.old).kind ≡ Owner }
        ensures stays { Stays owner.old owner.new }
        ensures view { sight owner.new ≡ seen_released (sight owner.old) result }
    {
        self.get::<Brand, u32>(owner, self.site.layout.released(round), round)
    }

    /// Loads ROUND after it: where as many pins were taken as were given back, no pin of the last finished round is out.
    pub fn look_quiet(&self, owner: &mut MeshSeat) -> u64
        requires fit { IsOf self.now.table.shared.table_id owner.old }
        requires rules { (sight owner.old).kind ≡ Owner }
        ensures stays { Stays owner.old owner.new }
        ensures view { sight owner.new ≡ quieting result (sight owner.old) }
    {
        self.get::<Brand, ()>(owner, ROUND, ())
    }
}
