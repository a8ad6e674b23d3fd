//! A round begins.
ghost use Rattle.std.specs.Prelude.{◌≡◌, ◌+◌, ◌≤◌, length, []};
ghost use Rattle.table_words.specs.Views.{FirstHalf, Resting, Owner};
ghost use Rattle.table_state.specs.Fresh.{idle};
ghost use Rattle.mesh_table.specs.Sights.{setup_at};
ghost use Rattle.mesh_table.specs.Told.{IsOf, Stays, sight};
ghost use Rattle.table_rounds.specs.Rows.{CanBegin, IsHand};

use crate::rows::lay_rows;
use mesh_table::passes::Plans;
use mesh_table::rule::MeshSeat;
use mesh_table::table::MeshTable;

/// Lays the free rows anew and begins the first half of a round: how many free rows it has.
pub fn begin_round<'m, B: Plans>(
    table: &MeshTable<'m>,
    owner: &mut MeshSeat,
    hand: &[u32],
    rows: u32,
) -> u32
    requires fit { IsOf table.now.table.shared.table_id owner.old }
    requires begin { CanBegin (setup_at table.now.site) (sight owner.old) B.plan }
    requires home { (sight owner.old).ruling.workers ≡ 0 }
    requires free { ((sight owner.old).ruling.free ≡ rows + 1) × (rows ≤ table.now.site.layout.pool) }
    requires stock { (sight owner.old).ruling.high ≤ (sight owner.old).ruling.low }
    requires hand { IsHand (sight owner.old) table.now.site.layout.pool hand.now }
    ensures stays { Stays owner.old owner.new }
    ensures begun { sight owner.new ≡ record (sight owner.old) { work = idle; owned = (sight owner.new).owned; ruling = record (sight owner.old).ruling { phase = FirstHalf; plan = B.plan; hand = []; cursor = 0; free = result + 1; low = 0; high = 0 } } }
{
    let count = lay_rows(table, owner, hand, rows);
    table.begin::<B>(owner);
    count
}
