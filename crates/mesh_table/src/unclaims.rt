//! Claims end, and a refused round is rolled back.
ghost use Rattle.std.specs.Prelude.{◌≡◌, ℕ, ◌+◌, ◌*◌, ◌/◌, ◌%◌, ◌<◌, ◌≤◌, ◌^◌, false, true, List, ◌∷◌, []};
ghost use Rattle.table_words.specs.Claims.{Claimed, Drawn, Half, Living, Whole, claim};
ghost use Rattle.table_words.specs.Entries.{HasEntry, Noted};
ghost use Rattle.table_words.specs.Layout.{IsElemAt};
ghost use Rattle.table_words.specs.Places.{member_of, place_number};
ghost use Rattle.table_words.specs.Views.{Owner};
ghost use Rattle.table_words.specs.Words.{Node, node, node_of};
ghost use Rattle.mesh_table.specs.Sights.{setup_at};
ghost use Rattle.mesh_table.specs.Told.{IsOf, Stays, mate_number, noted_died, noted_head, noted_history, noted_name, sight};
ghost use Rattle.mesh_table.specs.Rounds.{MayBury, MayDrop, MayUnbear, MayUnclaim, MayUndraw, MayUnlinkFirst, MayUnlinkSecond, dropped, unborn, unclaimed, undrawn, unlinked_first, unlinked_second};

use crate::rule::MeshSeat;
use crate::steps::Tells;
use crate::table::MeshTable;
use std::marker::Brand;
use table_words::layout::ElemAt;
use table_words::link::Link;

impl<'m> MeshTable<'m> {
    /// Ends the claim of a block that was published, while the round is closed: the LINK word keeps the block, and the block is noted with its places.
    pub fn unclaim(&self, owner: &mut MeshSeat, at: ElemAt, second: Option<ElemAt>, block: u32)
        requires fit { IsOf self.now.table.shared.table_id owner.old }
        requires place { IsElemAt self.now.site.layout at }
        requires block { block < self.now.site.layout.pool }
        requires may { MayUnclaim (sight owner.old) (place_number self.now.site.layout at) (mate_number self.now.site.layout second) block }
        ensures stays { Stays owner.old owner.new }
        ensures view { sight owner.new ≡ unclaimed (sight owner.old) (place_number self.now.site.layout at) (mate_number self.now.site.layout second) block }
    {
        self.put::<Brand, (ElemAt, Option<ElemAt>, u32)>(
            owner,
            self.site.layout.link(at),
            Link {
                claimed: false,
                block: Some(block),
                died: 0,
            }
            .spell(),
            (at, second, block),
        );
    }

    /// Ends a claim without a block, while the round is rolled back. The word is what the LINK word has.
    pub fn drop_claim(&self, owner: &mut MeshSeat, at: ElemAt, word: u64)
        requires fit { IsOf self.now.table.shared.table_id owner.old }
        requires place { IsElemAt self.now.site.layout at }
        requires may { MayDrop (sight owner.old) (place_number self.now.site.layout at) (node_of word) }
        ensures stays { Stays owner.old owner.new }
        ensures view { sight owner.new ≡ dropped (sight owner.old) (place_number self.now.site.layout at) }
    {
        self.put::<Brand, (ElemAt, u64)>(
            owner,
            self.site.layout.link(at),
            word / 2 * 2,
            (at, word),
        );
    }

    /// Begins to take a published block back: its BORN becomes 0.
    pub fn unbear(&self, owner: &mut MeshSeat, at: ElemAt, block: u32)
        requires fit { IsOf self.now.table.shared.table_id owner.old }
        requires block { block < self.now.site.layout.pool }
        requires may { MayUnbear (sight owner.old) (place_number self.now.site.layout at) block }
        ensures stays { Stays owner.old owner.new }
        ensures view { sight owner.new ≡ unborn (sight owner.old) (place_number self.now.site.layout at) block }
    {
        self.put::<Brand, (ElemAt, u32)>(owner, self.site.layout.born(block), 0, (at, block));
    }

    /// Gives the second member's LINK its old content, that of the block's HISTORY word.
    pub fn unlink_second(
        &self,
        owner: &mut MeshSeat,
        first: ElemAt,
        at: ElemAt,
        block: u32,
        word: u64,
    )
        requires fit { IsOf self.now.table.shared.table_id owner.old }
        requires place { IsElemAt self.now.site.layout at }
        requires may { MayUnlinkSecond (sight owner.old) (place_number self.now.site.layout first) (place_number self.now.site.layout at) block (node_of word) }
        ensures stays { Stays owner.old owner.new }
        ensures view { sight owner.new ≡ unlinked_second (sight owner.old) (place_number self.now.site.layout first) (place_number self.now.site.layout at) block (node_of word) }
    {
        self.put::<Brand, (ElemAt, ElemAt, u32, u64)>(
            owner,
            self.site.layout.link(at),
            word / 2 * 2,
            (first, at, block, word),
        );
    }

    /// And the first member's, with which the claim ends.
    pub fn unlink_first(
        &self,
        owner: &mut MeshSeat,
        at: ElemAt,
        second: Option<ElemAt>,
        block: u32,
        word: u64,
    )
        requires fit { IsOf self.now.table.shared.table_id owner.old }
        requires place { IsElemAt self.now.site.layout at }
        requires may { MayUnlinkFirst (sight owner.old) (place_number self.now.site.layout at) (mate_number self.now.site.layout second) block (node_of word) }
        ensures stays { Stays owner.old owner.new }
        ensures view { sight owner.new ≡ unlinked_first (sight owner.old) (place_number self.now.site.layout at) (mate_number self.now.site.layout second) block (node_of word) }
    {
        self.put::<Brand, (ElemAt, Option<ElemAt>, u32, u64)>(
            owner,
            self.site.layout.link(at),
            word / 2 * 2,
            (at, second, block, word),
        );
    }

    /// DIED of a block that was rolled back becomes the refused round.
    pub fn bury(&self, owner: &mut MeshSeat, block: u32, round: u32)
        requires fit { IsOf self.now.table.shared.table_id owner.old }
        requires block { block < self.now.site.layout.pool }
        requires round { (sight owner.old).ruling.finished + 1 ≡ round }
        requires may { MayBury (sight owner.old) block }
        ensures stays { Stays owner.old owner.new }
        ensures view { sight owner.new ≡ noted_died (sight owner.old) block round }
    {
        self.put::<Brand, (u32, u32)>(
            owner,
            self.site.layout.died(block),
            u64::from(round),
            (block, round),
        );
    }

    /// Ends a claim whose block was drawn and not linked: the block is free. The word is what the LINK word has.
    pub fn undraw(&self, owner: &mut MeshSeat, at: ElemAt, block: u32, word: u64)
        requires fit { IsOf self.now.table.shared.table_id owner.old }
        requires place { IsElemAt self.now.site.layout at }
        requires may { MayUndraw (sight owner.old) (place_number self.now.site.layout at) block (node_of word) }
        ensures stays { Stays owner.old owner.new }
        ensures view { sight owner.new ≡ undrawn (sight owner.old) (place_number self.now.site.layout at) block }
    {
        self.put::<Brand, (ElemAt, u32, u64)>(
            owner,
            self.site.layout.link(at),
            word / 2 * 2,
            (at, block, word),
        );
    }
}
