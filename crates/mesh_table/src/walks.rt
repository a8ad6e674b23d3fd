//! A worker's walk in the first half, step by step.
ghost use Rattle.std.specs.Prelude.{◌≡◌, ◌≢◌, ℕ, Bool, ◌+◌, ◌*◌, ◌%◌, ◌<◌, ◌≤◌, ◌^◌, false, true, IfSome, ◌∷◌, []};
ghost use Rattle.table_words.specs.Claims.{Claimed, Drawn, Half, Living, Whole, claim};
ghost use Rattle.table_words.specs.Entries.{HasEntry, Noted};
ghost use Rattle.table_words.specs.Layout.{IsElemAt};
ghost use Rattle.table_words.specs.Links.{IsLink, after, link_word};
ghost use Rattle.table_words.specs.NameWords.{IsRooted, name_code, name_word};
ghost use Rattle.table_words.specs.Places.{member_of, place_number};
ghost use Rattle.table_words.specs.Views.{Worker, FirstHalf, At, Past};
ghost use Rattle.table_words.specs.Words.{node, node_of};
ghost use Rattle.mesh_table.specs.Sights.{setup_at};
ghost use Rattle.mesh_table.specs.Told.{MayArrive, arrived, MayWalk, WalkTells, topped, arriving, ended_walk, IsOf, DrawTells, MayClaim, MayFill, MayLink, MayLinkOn, MayPublish, Stays, by_link, claimed, codes, come, drawn, mate_number, no_ask, noted_died, noted_head, noted_history, noted_name, published, sight};

use crate::rule::MeshSeat;
use crate::steps::Tells;
use crate::table::MeshTable;
use mesh_names::name::ElemName;
use std::marker::Brand;
use table_words::layout::{ElemAt, SEATS};

impl<'m> MeshTable<'m> {
    /// Notes a macro element's place.
    pub fn note_top(&self, seat: &mut MeshSeat, element: u32) -> u64
        requires fit { IsOf self.now.table.shared.table_id seat.old }
        requires works { (sight seat.old).kind ≡ Worker }
        requires half { (sight seat.old).work.half ≡ FirstHalf }
        requires element { element < self.now.site.layout.elements }
        ensures stays { Stays seat.old seat.new }
        ensures view { sight seat.new ≡ topped (setup_at self.now.site) element (sight seat.old) }
    {
        self.get::<Brand, u32>(seat, SEATS, element)
    }

    /// Loads the LINK word of a name's place, and goes to the block that it names.
    pub fn walk_link(&self, seat: &mut MeshSeat, at: ElemAt, name: ElemName) -> u64
        requires fit { IsOf self.now.table.shared.table_id seat.old }
        requires place { IsElemAt self.now.site.layout at }
        requires may { MayWalk (setup_at self.now.site) (sight seat.old) (place_number self.now.site.layout at) (name_code name) }
        ensures stays { Stays seat.old seat.new }
        ensures told { WalkTells (sight seat.old) (place_number self.now.site.layout at) (name_code name) self.now.site.layout.pool (node_of result) (sight seat.new) }
        ensures known { HasEntry (sight seat.old).work.known (name_code name) → (0 < (node_of result).block) × ((node_of result).died ≡ 0) }
    {
        self.get::<Brand, (ElemAt, ElemName)>(seat, self.site.layout.link(at), (at, name))
    }

    /// Loads a NAME word: it shows which member the walk has gone to.
    pub fn walk_name(&self, seat: &mut MeshSeat, block: u32, second: bool) -> u64
        requires fit { IsOf self.now.table.shared.table_id seat.old }
        requires block { block < self.now.site.layout.pool }
        ensures stays { Stays seat.old seat.new }
        ensures same { sight seat.new ≡ (sight seat.old) }
        ensures told { (x k : ℕ) (t : Bool) → (sight seat.old).work.walk ≡ At x k block t → (result ≡ k → t ≡ second) × (t ≡ second → result ≡ k) }
    {
        self.get::<Brand, (u32, bool)>(seat, self.site.layout.name(block, second), (block, second))
    }

    /// Loads BORN of the block to which the walk has gone.
    pub fn walk_born(
        &self,
        seat: &mut MeshSeat,
        at: ElemAt,
        name: ElemName,
        block: u32,
        second: bool,
    ) -> u64
        requires fit { IsOf self.now.table.shared.table_id seat.old }
        requires works { (sight seat.old).kind ≡ Worker }
        requires half { (sight seat.old).work.half ≡ FirstHalf }
        requires block { block < self.now.site.layout.pool }
        requires walk { (sight seat.old).work.walk ≡ At (place_number self.now.site.layout at) (name_code name) block second }
        ensures stays { Stays seat.old seat.new }
        ensures view { sight seat.new ≡ arriving (setup_at self.now.site) (place_number self.now.site.layout at) (name_code name) block second result (sight seat.old) }
        ensures known { HasEntry (sight seat.old).work.known (name_code name) → 0 < result }
    {
        self.get::<Brand, (ElemAt, ElemName, u32, bool)>(
            seat,
            self.site.layout.born(block),
            (at, name, block, second),
        )
    }

    /// Loads the HISTORY word of a block that was passed by: the walk ends.
    pub fn walk_past(
        &self,
        seat: &mut MeshSeat,
        at: ElemAt,
        name: ElemName,
        block: u32,
        second: bool,
    ) -> u64
        requires fit { IsOf self.now.table.shared.table_id seat.old }
        requires works { (sight seat.old).kind ≡ Worker }
        requires block { block < self.now.site.layout.pool }
        requires walk { (sight seat.old).work.walk ≡ Past (place_number self.now.site.layout at) (name_code name) block second }
        ensures stays { Stays seat.old seat.new }
        ensures view { sight seat.new ≡ ended_walk (sight seat.old) (name_code name) }
    {
        self.get::<Brand, ElemName>(seat, self.site.layout.history(block, second), name)
    }

    /// Loads BORN of a block that the pass published: the name is bisected, and its children stand there.
    pub fn walk_own(
        &self,
        seat: &mut MeshSeat,
        first: ElemAt,
        second: Option<ElemAt>,
        at: ElemAt,
        name: ElemName,
        block: u32,
        side: bool,
    ) -> u64
        requires fit { IsOf self.now.table.shared.table_id seat.old }
        requires block { block < self.now.site.layout.pool }
        requires may { MayArrive (sight seat.old) (place_number self.now.site.layout first) (mate_number self.now.site.layout second) (place_number self.now.site.layout at) (name_code name) block side }
        ensures stays { Stays seat.old seat.new }
        ensures view { sight seat.new ≡ arrived (setup_at self.now.site) (place_number self.now.site.layout at) (name_code name) block side (sight seat.old) }
    {
        self.get::<Brand, (ElemAt, ElemName, u32, bool)>(
            seat,
            self.site.layout.born(block),
            (at, name, block, side),
        )
    }
}
