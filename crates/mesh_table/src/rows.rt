//! Cuts and free rows.
ghost use Rattle.std.specs.Prelude.{◌≡◌, ℕ, ◌+◌, ◌*◌, ◌/◌, ◌%◌, ◌<◌, ◌≤◌, ◌^◌, false, true, List, ◌∷◌, []};
ghost use Rattle.table_words.specs.Claims.{Claimed, Drawn, Half, Living, Whole, claim};
ghost use Rattle.table_words.specs.Entries.{HasEntry, Noted};
ghost use Rattle.table_words.specs.Layout.{IsElemAt};
ghost use Rattle.table_words.specs.Places.{member_of, place_number};
ghost use Rattle.table_words.specs.Views.{Owner};
ghost use Rattle.table_words.specs.Words.{Node, node, node_of};
ghost use Rattle.mesh_table.specs.Sights.{setup_at};
ghost use Rattle.mesh_table.specs.Told.{IsOf, Stays, mate_number, noted_died, noted_head, noted_history, noted_name, sight};
ghost use Rattle.mesh_table.specs.Rounds.{MayCutHistory, MayCutLink, MayLay, MayOpen, MayRewind, MayStop, MayZero, noted_born, noted_row, opened, rewound, stopped};

use crate::rule::MeshSeat;
use crate::steps::Tells;
use crate::table::MeshTable;
use std::marker::Brand;
use table_words::layout::{CURSOR, ElemAt, FREE};

impl<'m> MeshTable<'m> {
    /// Leads the LINK word of a place past a retired block, as the block's HISTORY word leads. The word is the content of that.
    pub fn cut_link(&self, owner: &mut MeshSeat, at: ElemAt, block: u32, second: bool, word: u64)
        requires fit { IsOf self.now.table.shared.table_id owner.old }
        requires place { IsElemAt self.now.site.layout at }
        requires may { MayCutLink (sight owner.old) (place_number self.now.site.layout at) block second (node_of word) }
        ensures stays { Stays owner.old owner.new }
        ensures view { sight owner.new ≡ noted_head (sight owner.old) (place_number self.now.site.layout at) (node_of word) }
    {
        self.put::<Brand, (ElemAt, u32, bool, u64)>(
            owner,
            self.site.layout.link(at),
            word / 2 * 2,
            (at, block, second, word),
        );
    }

    /// Leads a HISTORY word past a retired block.
    pub fn cut_history(
        &self,
        owner: &mut MeshSeat,
        holder: u32,
        side: bool,
        at: ElemAt,
        block: u32,
        second: bool,
        word: u64,
    )
        requires fit { IsOf self.now.table.shared.table_id owner.old }
        requires holder { holder < self.now.site.layout.pool }
        requires may { MayCutHistory (sight owner.old) holder side (place_number self.now.site.layout at) block second (node_of word) }
        ensures stays { Stays owner.old owner.new }
        ensures view { sight owner.new ≡ noted_history (sight owner.old) (member_of holder side) (node_of word) }
    {
        self.put::<Brand, (u32, bool, ElemAt, u32, bool, u64)>(
            owner,
            self.site.layout.history(holder, side),
            word,
            (holder, side, at, block, second, word),
        );
    }

    /// BORN of a free block becomes 0.
    pub fn zero(&self, owner: &mut MeshSeat, block: u32)
        requires fit { IsOf self.now.table.shared.table_id owner.old }
        requires block { block < self.now.site.layout.pool }
        requires may { MayZero (sight owner.old) block }
        ensures stays { Stays owner.old owner.new }
        ensures view { sight owner.new ≡ noted_born (sight owner.old) block 0 }
    {
        self.put::<Brand, u32>(owner, self.site.layout.born(block), 0, block);
    }

    /// FREE becomes 0: the rows from `drawn` on and below `rows`, which were not drawn, are the stock.
    pub fn stop(&self, owner: &mut MeshSeat, drawn: u64, rows: u64)
        requires fit { IsOf self.now.table.shared.table_id owner.old }
        requires may { MayStop (sight owner.old) drawn rows }
        ensures stays { Stays owner.old owner.new }
        ensures view { sight owner.new ≡ stopped (sight owner.old) drawn rows }
    {
        self.put::<Brand, (u64, u64)>(owner, FREE, 0, (drawn, rows));
    }

    /// Then CURSOR becomes 0.
    pub fn rewind(&self, owner: &mut MeshSeat)
        requires fit { IsOf self.now.table.shared.table_id owner.old }
        requires may { MayRewind (sight owner.old) }
        ensures stays { Stays owner.old owner.new }
        ensures view { sight owner.new ≡ rewound (sight owner.old) }
    {
        self.put::<Brand, ()>(owner, CURSOR, 0, ());
    }

    /// Writes a row that is not of the stock.
    pub fn lay(&self, owner: &mut MeshSeat, number: u32, block: u32)
        requires fit { IsOf self.now.table.shared.table_id owner.old }
        requires row { number < self.now.site.layout.pool }
        requires may { MayLay (sight owner.old) number }
        ensures stays { Stays owner.old owner.new }
        ensures view { sight owner.new ≡ noted_row (sight owner.old) number block }
    {
        self.put::<Brand, (u32, u32)>(
            owner,
            self.site.layout.row(number),
            u64::from(block),
            (number, block),
        );
    }

    /// FREE becomes the number of rows: each block of the hand is laid, and the hand is empty.
    pub fn open(&self, owner: &mut MeshSeat, rows: u32)
        requires fit { IsOf self.now.table.shared.table_id owner.old }
        requires may { MayOpen (sight owner.old) rows }
        ensures stays { Stays owner.old owner.new }
        ensures view { sight owner.new ≡ opened (sight owner.old) rows }
    {
        self.put::<Brand, u32>(owner, FREE, u64::from(rows), rows);
    }
}
