//! A reader's walk at its pin, step by step.
ghost use Rattle.std.specs.Prelude.{◌≡◌, ◌≢◌, ℕ, Bool, ◌⊎◌, ◌+◌, ◌*◌, ◌%◌, ◌<◌, ◌≤◌, ◌^◌, false, true, IfSome, ◌∷◌, []};
ghost use Rattle.table_words.specs.Claims.{Claimed, Drawn, Half, Living, Whole, claim};
ghost use Rattle.table_words.specs.Entries.{HasEntry, Noted};
ghost use Rattle.table_words.specs.Layout.{IsElemAt};
ghost use Rattle.table_words.specs.Links.{IsLink, after, link_word};
ghost use Rattle.table_words.specs.NameWords.{IsRooted, name_code, name_word};
ghost use Rattle.table_words.specs.Places.{member_of, place_number};
ghost use Rattle.table_words.specs.Views.{Reader, At, Past};
ghost use Rattle.table_words.specs.Words.{node, node_of};
ghost use Rattle.mesh_table.specs.Sights.{setup_at};
ghost use Rattle.mesh_table.specs.Told.{MayRead, ReadTells, arriving_read, IsOf, DrawTells, MayClaim, MayFill, MayLink, MayLinkOn, MayPublish, Stays, by_link, claimed, codes, come, drawn, mate_number, no_ask, noted_died, noted_head, noted_history, noted_name, published, sight};

use crate::rule::MeshSeat;
use crate::steps::Tells;
use crate::table::MeshTable;
use mesh_names::name::ElemName;
use std::marker::Brand;
use table_words::layout::ElemAt;

impl<'m> MeshTable<'m> {
    /// Loads the LINK word of a name's place at the pinned round, and goes to the block that it names.
    pub fn read_link(&self, seat: &mut MeshSeat, at: ElemAt, name: ElemName, round: u32) -> u64
        requires fit { IsOf self.now.table.shared.table_id seat.old }
        requires place { IsElemAt self.now.site.layout at }
        requires may { MayRead (setup_at self.now.site) (sight seat.old) (place_number self.now.site.layout at) (name_code name) round }
        ensures stays { Stays seat.old seat.new }
        ensures told { ReadTells (sight seat.old) (place_number self.now.site.layout at) (name_code name) round self.now.site.layout.pool (node_of result) (sight seat.new) }
    {
        self.get::<Brand, (ElemAt, ElemName, u32)>(
            seat,
            self.site.layout.link(at),
            (at, name, round),
        )
    }

    /// Loads a NAME word: it shows which member the walk has gone to.
    pub fn read_member(&self, seat: &mut MeshSeat, block: u32, second: bool, round: u32) -> u64
        requires fit { IsOf self.now.table.shared.table_id seat.old }
        requires block { block < self.now.site.layout.pool }
        requires pin { (sight seat.old).read.pin ≡ round + 1 }
        ensures stays { Stays seat.old seat.new }
        ensures same { sight seat.new ≡ (sight seat.old) }
        ensures told { (x k : ℕ) (t : Bool) → (sight seat.old).read.walk ≡ At x k block t → (result ≡ k → t ≡ second) × (t ≡ second → result ≡ k) }
    {
        self.get::<Brand, (u32, bool)>(seat, self.site.layout.name(block, second), (block, second))
    }

    /// Loads BORN of the block to which the walk has gone.
    pub fn read_born(
        &self,
        seat: &mut MeshSeat,
        at: ElemAt,
        name: ElemName,
        block: u32,
        second: bool,
        round: u32,
    ) -> u64
        requires fit { IsOf self.now.table.shared.table_id seat.old }
        requires reads { (sight seat.old).kind ≡ Reader }
        requires pin { (sight seat.old).read.pin ≡ round + 1 }
        requires block { block < self.now.site.layout.pool }
        requires walk { (sight seat.old).read.walk ≡ At (place_number self.now.site.layout at) (name_code name) block second }
        ensures stays { Stays seat.old seat.new }
        ensures view { sight seat.new ≡ arriving_read (setup_at self.now.site) (place_number self.now.site.layout at) (name_code name) block second round result (sight seat.old) }
    {
        self.get::<Brand, (ElemAt, ElemName, u32, bool, u32)>(
            seat,
            self.site.layout.born(block),
            (at, name, block, second, round),
        )
    }

    /// Loads the HISTORY word of a block that was passed by, and goes on.
    pub fn read_history(
        &self,
        seat: &mut MeshSeat,
        at: ElemAt,
        name: ElemName,
        block: u32,
        second: bool,
        round: u32,
    ) -> u64
        requires fit { IsOf self.now.table.shared.table_id seat.old }
        requires reads { (sight seat.old).kind ≡ Reader }
        requires pin { (sight seat.old).read.pin ≡ round + 1 }
        requires block { block < self.now.site.layout.pool }
        requires walk { (sight seat.old).read.walk ≡ Past (place_number self.now.site.layout at) (name_code name) block second }
        ensures stays { Stays seat.old seat.new }
        ensures told { ReadTells (sight seat.old) (place_number self.now.site.layout at) (name_code name) round self.now.site.layout.pool (node_of result) (sight seat.new) }
        ensures falls { ((node_of result).block ≡ 0) ⊎ ((0 < (node_of result).died) × (0 < (sight seat.old).read.back → (node_of result).died < (sight seat.old).read.back)) }
    {
        self.get::<Brand, (ElemAt, ElemName, u32)>(
            seat,
            self.site.layout.history(block, second),
            (at, name, round),
        )
    }
}
