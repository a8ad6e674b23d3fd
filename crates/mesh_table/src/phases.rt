//! The phases of a round, and blocks that become free.
ghost use Rattle.std.specs.Prelude.{◌≡◌, ℕ, ◌+◌, ◌*◌, ◌/◌, ◌%◌, ◌<◌, ◌≤◌, ◌^◌, false, true, map, []};
ghost use Rattle.table_words.specs.Claims.{Claimed, Drawn, Half, Living, Whole, claim};
ghost use Rattle.table_words.specs.Entries.{HasEntry, Noted};
ghost use Rattle.table_words.specs.Layout.{IsElemAt};
ghost use Rattle.table_words.specs.Places.{member_of, place_number};
ghost use Rattle.table_words.specs.Views.{Owner};
ghost use Rattle.table_words.specs.NameWords.{name_code};
ghost use Rattle.table_words.specs.Words.{Node, node, node_of};
ghost use Rattle.mesh_table.specs.Sights.{setup_at};
ghost use Rattle.mesh_table.specs.Told.{IsOf, Stays, mate_number, noted_died, noted_head, noted_history, noted_name, sight};
ghost use Rattle.mesh_table.specs.Rounds.{MayClose, MayFree, MayPlan, MayRefuse, MayRestore, closed, freed, planned, refused, restored};

use crate::rule::MeshSeat;
use crate::steps::Tells;
use crate::table::MeshTable;
use mesh_names::name::ElemName;
use std::marker::Brand;
use table_words::layout::SEATS;

impl<'m> MeshTable<'m> {
    /// The round is closed: no pass is out, and each patch that was to be retired is.
    pub fn close(&self, owner: &mut MeshSeat)
        requires fit { IsOf self.now.table.shared.table_id owner.old }
        requires may { MayClose (setup_at self.now.site) (sight owner.old) }
        ensures stays { Stays owner.old owner.new }
        ensures view { sight owner.new ≡ closed (sight owner.old) }
    {
        self.get::<Brand, ()>(owner, SEATS, ());
    }

    /// The round is refused.
    pub fn refuse(&self, owner: &mut MeshSeat)
        requires fit { IsOf self.now.table.shared.table_id owner.old }
        requires may { MayRefuse (sight owner.old) }
        ensures stays { Stays owner.old owner.new }
        ensures view { sight owner.new ≡ refused (sight owner.old) }
    {
        self.get::<Brand, ()>(owner, SEATS, ());
    }

    /// The refused round is rolled back.
    pub fn restore(&self, owner: &mut MeshSeat)
        requires fit { IsOf self.now.table.shared.table_id owner.old }
        requires may { MayRestore (sight owner.old) }
        ensures stays { Stays owner.old owner.new }
        ensures view { sight owner.new ≡ restored (sight owner.old) }
    {
        self.get::<Brand, ()>(owner, SEATS, ());
    }

    /// The second half is planned, with the first members of the patches that are to be retired.
    pub fn plan(&self, owner: &mut MeshSeat, retire: &[ElemName])
        requires fit { IsOf self.now.table.shared.table_id owner.old }
        requires may { MayPlan (sight owner.old) }
        ensures stays { Stays owner.old owner.new }
        ensures view { sight owner.new ≡ planned (sight owner.old) (map name_code retire.now) }
    {
        self.get::<Brand, &[ElemName]>(owner, SEATS, retire);
    }

    /// Blocks that no pass can come to become free.
    pub fn free(&self, owner: &mut MeshSeat, blocks: &[u32])
        requires fit { IsOf self.now.table.shared.table_id owner.old }
        requires may { MayFree (sight owner.old) blocks.now }
        ensures stays { Stays owner.old owner.new }
        ensures view { sight owner.new ≡ freed (sight owner.old) blocks.now }
    {
        self.get::<Brand, &[u32]>(owner, SEATS, blocks);
    }
}
