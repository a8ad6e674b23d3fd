//! Claims and draws.
ghost use Rattle.std.specs.Prelude.{◌≡◌, ◌≢◌, ℕ, ◌+◌, ◌*◌, ◌%◌, ◌<◌, ◌≤◌, ◌^◌, false, true, IfSome, ◌∷◌, []};
ghost use Rattle.table_words.specs.Claims.{Claimed, Drawn, Half, Living, Whole, claim};
ghost use Rattle.table_words.specs.Entries.{HasEntry, Noted};
ghost use Rattle.table_words.specs.Layout.{IsElemAt};
ghost use Rattle.table_words.specs.Links.{IsLink, after, link_word};
ghost use Rattle.table_words.specs.NameWords.{IsRooted, name_code, name_word};
ghost use Rattle.table_words.specs.Places.{member_of, place_number};
ghost use Rattle.table_words.specs.Views.{Worker};
ghost use Rattle.table_words.specs.Words.{node, node_of};
ghost use Rattle.mesh_table.specs.Sights.{setup_at};
ghost use Rattle.mesh_table.specs.Lost.{ClaimLost};
ghost use Rattle.mesh_table.specs.Told.{IsOf, DrawTells, MayClaim, MayFill, MayLink, MayLinkOn, MayPublish, Stays, by_link, claimed, codes, come, drawn, mate_number, no_ask, noted_died, noted_head, noted_history, noted_name, published, saw_free, sight};

use crate::rule::MeshSeat;
use crate::steps::Tells;
use crate::table::MeshTable;
use mesh_names::name::ElemName;
use std::marker::Brand;
use table_words::layout::{CURSOR, ElemAt, FREE};

impl<'m> MeshTable<'m> {
    /// Claims the patch whose first member was found at a place: the claim is this seat's where the old word is even. Else the pass knows the patch as bisected from then on, or the claim is another pass's.
    pub fn claim(
        &self,
        seat: &mut MeshSeat,
        at: ElemAt,
        second: Option<ElemAt>,
        name: ElemName,
    ) -> u64
        requires fit { IsOf self.now.table.shared.table_id seat.old }
        requires place { IsElemAt self.now.site.layout at }
        requires may { MayClaim (setup_at self.now.site) (sight seat.old) (place_number self.now.site.layout at) (mate_number self.now.site.layout second) (name_code name) }
        ensures stays { Stays seat.old seat.new }
        ensures won { result % 2 ≡ 0 → sight seat.new ≡ claimed (sight seat.old) (place_number self.now.site.layout at) (mate_number self.now.site.layout second) result }
        ensures lost { result % 2 ≡ 1 → ClaimLost (setup_at self.now.site) (sight seat.old) (sight seat.new) (place_number self.now.site.layout at) (name_code name) result }
    {
        self.set_bits::<Brand, (ElemAt, Option<ElemAt>, ElemName)>(
            seat,
            self.site.layout.link(at),
            1,
            (at, second, name),
        )
    }

    /// Draws a block for a claim.
    pub fn draw(&self, seat: &mut MeshSeat, at: ElemAt) -> u64
        requires fit { IsOf self.now.table.shared.table_id seat.old }
        requires works { (sight seat.old).kind ≡ Worker }
        requires claim { (m : ℕ) × HasEntry (sight seat.old).claims (claim (place_number self.now.site.layout at) m Claimed) }
        ensures stays { Stays seat.old seat.new }
        ensures drawn { DrawTells (sight seat.old) (place_number self.now.site.layout at) result (sight seat.new) }
    {
        self.count::<Brand, ElemAt>(seat, CURSOR, at)
    }

    /// How many free rows there are: it tells which draws got a block, and that no two names were found at one place.
    pub fn look_free(&self, seat: &mut MeshSeat) -> u64
        requires fit { IsOf self.now.table.shared.table_id seat.old }
        ensures stays { Stays seat.old seat.new }
        ensures view { sight seat.new ≡ saw_free (sight seat.old) result }
        ensures named { (x a b : ℕ) → HasEntry (sight seat.old).work.found (x, a) → HasEntry (sight seat.old).work.found (x, b) → a ≡ b }
        ensures few { result ≤ self.now.site.layout.pool }
        ensures told { (i b : ℕ) → HasEntry (sight seat.old).work.drawn (i, b) → (result ≤ i → b ≡ 0) × (i < result → 0 < b) }
    {
        self.get::<Brand, ()>(seat, FREE, ())
    }

    /// A free row: the block of the draw that found this number.
    pub fn look_row(&self, seat: &mut MeshSeat, number: u32) -> u64
        requires fit { IsOf self.now.table.shared.table_id seat.old }
        requires row { number < self.now.site.layout.pool }
        ensures stays { Stays seat.old seat.new }
        ensures same { sight seat.new ≡ sight seat.old }
        ensures told { (b : ℕ) → HasEntry (sight seat.old).work.drawn (number, b + 1) → (b ≡ result) × (result < self.now.site.layout.pool) }
    {
        self.get::<Brand, u32>(seat, self.site.layout.row(number), number)
    }
}
