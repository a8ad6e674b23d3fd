//! Loads of the owner before a round, which tell which versions stand at a place.
ghost use Rattle.std.specs.Prelude.{◌≡◌, ◌≢◌, ℕ, ◌+◌, ◌<◌, ◌≤◌, ◌⊎◌};
ghost use Rattle.table_words.specs.Entries.{HasEntry, Noted};
ghost use Rattle.table_words.specs.Layout.{IsElemAt};
ghost use Rattle.table_words.specs.Places.{member_of, place_number};
ghost use Rattle.table_words.specs.Views.{FirstHalf, Owner, Resting};
ghost use Rattle.table_words.specs.Words.{node, node_of};
ghost use Rattle.table_state.specs.Ghosts.{Placed, stands};
ghost use Rattle.mesh_table.specs.Told.{IsOf, Stays, sight};
ghost use Rattle.table_rounds.specs.Patches.{StandsAt};
ghost use Rattle.mesh_table.specs.Rounds.{counted_cursor};
ghost use Rattle.table_rounds.specs.Kinds.{BlocksTold};
ghost use Rattle.mesh_table.specs.Sights.{setup_at};
ghost use Rattle.table_rounds.specs.Rows.{RowsFit};
ghost use Rattle.table_rounds.specs.Stocks.{RoomTold};
ghost use Rattle.table_rounds.specs.Versions.{Falls, IsRooted, LeadsTo, NamesLiving, NotesMore, TwoPlaces};

use mesh_table::rule::MeshSeat;
use mesh_table::steps::Tells;
use mesh_table::table::MeshTable;
use std::marker::Brand;
use table_words::layout::{CURSOR, ElemAt, SEATS};

/// Loads the LINK word of a place before a round, and notes DIED of the block that it names, which
/// is the word's retired round.
pub fn look_version<'m>(table: &MeshTable<'m>, owner: &mut MeshSeat, at: ElemAt) -> u64
    requires fit { IsOf table.now.table.shared.table_id owner.old }
    requires place { IsElemAt table.now.site.layout at }
    requires rules { (sight owner.old).kind ≡ Owner }
    requires rests { (sight owner.old).ruling.phase ≡ Resting }
    requires rooted { IsRooted table.now.site.layout.elements (sight owner.old) (place_number table.now.site.layout at) }
    ensures stays { Stays owner.old owner.new }
    ensures more { NotesMore (sight owner.old) (sight owner.new) }
    ensures head { Noted (sight owner.new).owned.head (place_number table.now.site.layout at) (node_of result) }
    ensures leads { LeadsTo table.now.site.layout.pool (sight owner.new) (place_number table.now.site.layout at) (node_of result) }
    ensures living { NamesLiving (sight owner.new) (place_number table.now.site.layout at) (node_of result) }
    ensures two { TwoPlaces (sight owner.new) }
{
    table.get::<Brand, ElemAt>(owner, table.layout().link(at), at)
}

/// Loads the HISTORY word of a member that stands at a place, and notes DIED of the block that it
/// names: the version before.
pub fn look_older<'m>(
    table: &MeshTable<'m>,
    owner: &mut MeshSeat,
    block: u32,
    second: bool,
    at: ElemAt,
) -> u64
    requires fit { IsOf table.now.table.shared.table_id owner.old }
    requires block { block < table.now.site.layout.pool }
    requires rules { (sight owner.old).kind ≡ Owner }
    requires rests { (sight owner.old).ruling.phase ≡ Resting }
    requires stands { (y m : ℕ) × HasEntry (sight owner.old).ruling.placed (block, y, m) × (stands (Placed y m) second ≡ place_number table.now.site.layout at + 1) }
    ensures stays { Stays owner.old owner.new }
    ensures more { NotesMore (sight owner.old) (sight owner.new) }
    ensures history { Noted (sight owner.new).owned.history (member_of block second) (node_of result) }
    ensures leads { LeadsTo table.now.site.layout.pool (sight owner.new) (place_number table.now.site.layout at) (node_of result) }
    ensures retired { (node_of result ≡ node 0 0) ⊎ (0 < (node_of result).died) }
    ensures falls { Falls (sight owner.old) block (node_of result).died }
{
    table.get::<Brand, (u32, bool, ElemAt)>(
        owner,
        table.layout().history(block, second),
        (block, second, at),
    )
}

/// Loads DIED of a block that was given up.
pub fn look_last<'m>(table: &MeshTable<'m>, owner: &mut MeshSeat, block: u32) -> u64
    requires fit { IsOf table.now.table.shared.table_id owner.old }
    requires block { block < table.now.site.layout.pool }
    requires rules { (sight owner.old).kind ≡ Owner }
    requires rests { (sight owner.old).ruling.phase ≡ Resting }
    ensures stays { Stays owner.old owner.new }
    ensures more { NotesMore (sight owner.old) (sight owner.new) }
    ensures died { Noted (sight owner.new).owned.died block result }
    ensures kept { HasEntry (sight owner.old).ruling.kept block → (0 < result) × (result ≤ (sight owner.old).ruling.finished) }
{
    table.get::<Brand, u32>(owner, table.layout().died(block), block)
}

/// A load of SEATS, which tells of which kinds the noted blocks are.
pub fn look_blocks<'m>(table: &MeshTable<'m>, owner: &mut MeshSeat)
    requires fit { IsOf table.now.table.shared.table_id owner.old }
    requires rules { (sight owner.old).kind ≡ Owner }
    ensures stays { Stays owner.old owner.new }
    ensures same { sight owner.new ≡ sight owner.old }
    ensures told { BlocksTold table.now.site.layout.elements (sight owner.old) }
{
    table.get::<Brand, ()>(owner, SEATS, ());
}

/// Loads CURSOR after the first half of a round, which tells that the blocks of the hand and the
/// rows that were not drawn fit into the pool.
pub fn look_drawn<'m>(table: &MeshTable<'m>, owner: &mut MeshSeat) -> u64
    requires fit { IsOf table.now.table.shared.table_id owner.old }
    requires rules { (sight owner.old).kind ≡ Owner }
    requires half { (sight owner.old).ruling.phase ≢ FirstHalf }
    ensures stays { Stays owner.old owner.new }
    ensures view { sight owner.new ≡ counted_cursor (sight owner.old) result }
    ensures fits { RowsFit (sight owner.old) table.now.site.layout.pool result }
{
    table.get::<Brand, ()>(owner, CURSOR, ())
}

/// A load of SEATS before a round, which tells how many free rows there are once all are laid.
pub fn look_room<'m>(table: &MeshTable<'m>, owner: &mut MeshSeat)
    requires fit { IsOf table.now.table.shared.table_id owner.old }
    requires rules { (sight owner.old).kind ≡ Owner }
    requires rests { (sight owner.old).ruling.phase ≡ Resting }
    ensures stays { Stays owner.old owner.new }
    ensures same { sight owner.new ≡ sight owner.old }
    ensures told { RoomTold (setup_at table.now.site) (sight owner.old) table.now.site.layout.pool }
    ensures few { (rows : ℕ) → (sight owner.old).ruling.free ≡ rows + 1 → rows ≤ table.now.site.layout.pool }
{
    table.get::<Brand, ()>(owner, SEATS, ());
}
