//! Links and publication.
ghost use Rattle.std.specs.Prelude.{◌≡◌, ◌≢◌, ℕ, ◌+◌, ◌*◌, ◌%◌, ◌<◌, ◌≤◌, ◌^◌, false, true, IfSome, ◌∷◌, []};
ghost use Rattle.table_words.specs.Claims.{Claimed, Drawn, Half, Living, Whole, claim};
ghost use Rattle.table_words.specs.Entries.{HasEntry, Noted};
ghost use Rattle.table_words.specs.Layout.{IsElemAt};
ghost use Rattle.table_words.specs.Links.{IsLink, after, link_word};
ghost use Rattle.table_words.specs.NameWords.{IsRooted, name_code, name_word};
ghost use Rattle.table_words.specs.Places.{member_of, place_number};
ghost use Rattle.table_words.specs.Views.{Worker};
ghost use Rattle.table_words.specs.Words.{node, node_of};
ghost use Rattle.mesh_table.specs.Sights.{setup_at};
ghost use Rattle.mesh_table.specs.Told.{IsOf, DrawTells, MayClaim, MayFill, MayLink, MayLinkOn, MayPublish, Stays, by_link, claimed, codes, come, drawn, mate_number, no_ask, noted_died, noted_head, noted_history, noted_name, published, sight};

use crate::rule::MeshSeat;
use crate::steps::Tells;
use crate::table::MeshTable;
use mesh_names::name::ElemName;
use std::marker::Brand;
use table_words::layout::ElemAt;
use table_words::link::Link;

impl<'m> MeshTable<'m> {
    /// Links the first member to the block: a patch of one member is linked whole.
    pub fn link_first(
        &self,
        seat: &mut MeshSeat,
        at: ElemAt,
        second: Option<ElemAt>,
        name: ElemName,
        block: u32,
    )
        requires fit { IsOf self.now.table.shared.table_id seat.old }
        requires place { IsElemAt self.now.site.layout at }
        requires block { block < self.now.site.layout.pool }
        requires may { MayLink (setup_at self.now.site) (sight seat.old) (place_number self.now.site.layout at) (mate_number self.now.site.layout second) block (name_code name) }
        ensures stays { Stays seat.old seat.new }
        ensures view { sight seat.new ≡ come (sight seat.old) (place_number self.now.site.layout at) (by_link (mate_number self.now.site.layout second) block) }
    {
        self.put::<Brand, (ElemAt, Option<ElemAt>, u32)>(
            seat,
            self.site.layout.link(at),
            Link {
                claimed: true,
                block: Some(block),
                died: 0,
            }
            .spell(),
            (at, second, block),
        )
    }

    /// Links the second member.
    pub fn link_second(&self, seat: &mut MeshSeat, first: ElemAt, at: ElemAt, block: u32)
        requires fit { IsOf self.now.table.shared.table_id seat.old }
        requires place { IsElemAt self.now.site.layout at }
        requires block { block < self.now.site.layout.pool }
        requires may { MayLinkOn (sight seat.old) (place_number self.now.site.layout first) (place_number self.now.site.layout at) block }
        ensures stays { Stays seat.old seat.new }
        ensures view { sight seat.new ≡ come (sight seat.old) (place_number self.now.site.layout first) (Whole block) }
    {
        self.put::<Brand, (ElemAt, u32)>(
            seat,
            self.site.layout.link(at),
            Link {
                claimed: false,
                block: Some(block),
                died: 0,
            }
            .spell(),
            (first, block),
        )
    }

    /// Publishes the block: its members are bisected in the round from now on.
    pub fn publish(
        &self,
        seat: &mut MeshSeat,
        at: ElemAt,
        second: Option<ElemAt>,
        name: ElemName,
        partner: Option<ElemName>,
        block: u32,
        round: u32,
    ) -> u64
        requires fit { IsOf self.now.table.shared.table_id seat.old }
        requires block { block < self.now.site.layout.pool }
        requires round { (sight seat.old).work.round ≡ round }
        requires may { MayPublish (sight seat.old) (place_number self.now.site.layout at) (mate_number self.now.site.layout second) block (codes name partner) }
        ensures stays { Stays seat.old seat.new }
        ensures view { sight seat.new ≡ published (sight seat.old) (place_number self.now.site.layout at) block (codes name partner) }
    {
        self.exchange::<Brand, (ElemAt, ElemName, Option<ElemName>, u32)>(
            seat,
            self.site.layout.born(block),
            round as u64,
            (at, name, partner, block),
        )
    }
}
