//! A reader's pins.
ghost use Rattle.std.specs.Prelude.{◌≡◌, ◌≢◌, ℕ, ◌+◌, ◌*◌, ◌%◌, ◌/◌, ◌<◌, ◌≤◌, ◌^◌, false, true, IfSome, ◌∷◌, []};
ghost use Rattle.table_words.specs.Claims.{Claimed, Drawn, Half, Living, Whole, claim};
ghost use Rattle.table_words.specs.Entries.{HasEntry, Noted};
ghost use Rattle.table_words.specs.Layout.{IsElemAt};
ghost use Rattle.table_words.specs.Links.{IsLink, after, link_word};
ghost use Rattle.table_words.specs.NameWords.{IsRooted, name_code, name_word};
ghost use Rattle.table_words.specs.Places.{member_of, place_number};
ghost use Rattle.table_words.specs.Views.{Reader};
ghost use Rattle.table_words.specs.Rounds.{round_word};
ghost use Rattle.table_words.specs.Words.{node, node_of};
ghost use Rattle.mesh_table.specs.Sights.{setup_at};
ghost use Rattle.mesh_table.specs.Told.{MayPin, pinned, unpinned, seen_round, IsOf, DrawTells, MayClaim, MayFill, MayLink, MayLinkOn, MayPublish, Stays, by_link, claimed, codes, come, drawn, mate_number, no_ask, noted_died, noted_head, noted_history, noted_name, published, sight};

use crate::rule::MeshSeat;
use crate::steps::Tells;
use crate::table::MeshTable;
use std::marker::Brand;
use table_words::layout::ROUND;
use table_words::round_word::RoundPins;

impl<'m> MeshTable<'m> {
    /// Loads ROUND: the pass may take a pin where it shows fewer than 1048576.
    pub fn look_round(&self, seat: &mut MeshSeat) -> u64
        requires fit { IsOf self.now.table.shared.table_id seat.old }
        requires reads { (sight seat.old).kind ≡ Reader }
        ensures stays { Stays seat.old seat.new }
        ensures view { sight seat.new ≡ seen_round (sight seat.old) result }
    {
        self.get::<Brand, ()>(seat, ROUND, ())
    }

    /// Takes a pin of the last finished round.
    pub fn take_pin(&self, seat: &mut MeshSeat) -> u64
        requires fit { IsOf self.now.table.shared.table_id seat.old }
        requires may { MayPin (sight seat.old) }
        ensures stays { Stays seat.old seat.new }
        ensures pinned { sight seat.new ≡ pinned (sight seat.old) (result / 4294967296) }
        ensures round { result / 4294967296 ≤ self.now.site.layout.rounds }
    {
        self.count::<Brand, ()>(seat, ROUND, ())
    }

    /// Gives a pin back.
    pub fn unpin(&self, seat: &mut MeshSeat, round: u32) -> u64
        requires fit { IsOf self.now.table.shared.table_id seat.old }
        requires reads { (sight seat.old).kind ≡ Reader }
        requires pin { (sight seat.old).read.pin ≡ round + 1 }
        requires round { round ≤ self.now.site.layout.rounds }
        ensures stays { Stays seat.old seat.new }
        ensures view { sight seat.new ≡ unpinned (sight seat.old) }
    {
        self.count::<Brand, ()>(seat, self.site.layout.released(round), ())
    }
}
