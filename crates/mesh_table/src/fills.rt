//! The words of a block that was drawn.
ghost use Rattle.std.specs.Prelude.{◌≡◌, ◌≢◌, ℕ, ◌+◌, ◌*◌, ◌%◌, ◌<◌, ◌≤◌, ◌^◌, false, true, IfSome, ◌∷◌, []};
ghost use Rattle.table_words.specs.Claims.{Claimed, Drawn, Half, Living, Whole, claim};
ghost use Rattle.table_words.specs.Entries.{HasEntry, Noted};
ghost use Rattle.table_words.specs.Layout.{IsElemAt};
ghost use Rattle.table_words.specs.Links.{IsLink, after, link_word};
ghost use Rattle.table_words.specs.NameWords.{IsRooted, name_code, name_word};
ghost use Rattle.table_words.specs.Places.{member_of, place_number};
ghost use Rattle.table_words.specs.Views.{Worker};
ghost use Rattle.table_words.specs.Words.{node, node_of};
ghost use Rattle.mesh_table.specs.Sights.{setup_at};
ghost use Rattle.mesh_table.specs.Told.{IsOf, DrawTells, MayClaim, MayFill, MayLink, MayLinkOn, MayPublish, Stays, by_link, claimed, codes, come, drawn, mate_number, no_ask, noted_died, noted_head, noted_history, noted_name, published, sight};

use crate::rule::MeshSeat;
use crate::steps::Tells;
use crate::table::MeshTable;
use mesh_names::name::ElemName;
use std::marker::Brand;
use table_words::layout::ElemAt;
use table_words::link::Link;
use table_words::name_word::spell_name;

impl<'m> MeshTable<'m> {
    /// Loads the LINK word of a place, and notes what it names.
    pub fn look_link(&self, seat: &mut MeshSeat, at: ElemAt) -> u64
        requires fit { IsOf self.now.table.shared.table_id seat.old }
        requires place { IsElemAt self.now.site.layout at }
        ensures stays { Stays seat.old seat.new }
        ensures view { sight seat.new ≡ noted_head (sight seat.old) (place_number self.now.site.layout at) (node_of result) }
    {
        self.get::<Brand, ElemAt>(seat, self.site.layout.link(at), at)
    }

    /// Fills a HISTORY word of the block that was drawn.
    pub fn fill_history(&self, seat: &mut MeshSeat, block: u32, second: bool, link: Link)
        requires fit { IsOf self.now.table.shared.table_id seat.old }
        requires block { block < self.now.site.layout.pool }
        requires may { MayFill (sight seat.old) block }
        requires link { IsLink link }
        ensures stays { Stays seat.old seat.new }
        ensures view { sight seat.new ≡ noted_history (sight seat.old) (member_of block second) (node (after link.block) link.died) }
    {
        self.put::<Brand, (u32, bool, Link)>(
            seat,
            self.site.layout.history(block, second),
            link.spell(),
            (block, second, link),
        )
    }

    /// Fills a NAME word.
    pub fn fill_name(&self, seat: &mut MeshSeat, block: u32, second: bool, name: Option<ElemName>)
        requires fit { IsOf self.now.table.shared.table_id seat.old }
        requires block { block < self.now.site.layout.pool }
        requires may { MayFill (sight seat.old) block }
        requires name { IfSome name IsRooted }
        ensures stays { Stays seat.old seat.new }
        ensures view { sight seat.new ≡ noted_name (sight seat.old) (member_of block second) (name_word name) }
    {
        self.put::<Brand, (u32, bool)>(
            seat,
            self.site.layout.name(block, second),
            spell_name(name),
            (block, second),
        )
    }

    /// Fills DIED.
    pub fn fill_died(&self, seat: &mut MeshSeat, block: u32)
        requires fit { IsOf self.now.table.shared.table_id seat.old }
        requires block { block < self.now.site.layout.pool }
        requires may { MayFill (sight seat.old) block }
        ensures stays { Stays seat.old seat.new }
        ensures view { sight seat.new ≡ noted_died (sight seat.old) block 0 }
    {
        self.put::<Brand, u32>(seat, self.site.layout.died(block), 0, block)
    }

    /// Fills the LINK word of a child.
    pub fn fill_child(&self, seat: &mut MeshSeat, block: u32, child: u8)
        requires fit { IsOf self.now.table.shared.table_id seat.old }
        requires block { block < self.now.site.layout.pool }
        requires child { child < 4 }
        requires may { MayFill (sight seat.old) block }
        ensures stays { Stays seat.old seat.new }
        ensures view { sight seat.new ≡ noted_head (sight seat.old) (self.now.site.layout.elements + 4 * block + child) (node 0 0) }
        ensures apart { (y a : ℕ) → HasEntry (sight seat.old).work.found (y, a) → y ≡ self.now.site.layout.elements + 4 * block + child → ⊥ }
    {
        self.put::<Brand, (u32, u8)>(
            seat,
            self.site.layout.link(ElemAt::Child { block, child }),
            0,
            (block, child),
        )
    }
}
