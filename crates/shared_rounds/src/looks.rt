//! A load of the owner in the first half of a round, which tells of the claims that it has.
ghost use Rattle.std.specs.Prelude.{◌≡◌, ◌≤◌};
ghost use Rattle.table_words.specs.Views.{FirstHalf, Owner};
ghost use Rattle.mesh_table.specs.Sights.{setup_at};
ghost use Rattle.mesh_table.specs.Told.{IsOf, Stays, sight};
ghost use Rattle.shared_rounds.specs.Claims.{ClaimsTold};

use mesh_table::rule::MeshSeat;
use mesh_table::steps::Tells;
use mesh_table::table::MeshTable;
use std::marker::Brand;
use table_words::layout::SEATS;

/// Loads SEATS, which tells that the claims that the owner has are each of another place and block, and that none has failed where the round fits into the pool.
pub fn look_claims<'m>(table: &MeshTable<'m>, owner: &mut MeshSeat)
    requires fit { IsOf table.now.table.shared.table_id owner.old }
    requires rules { (sight owner.old).kind ≡ Owner }
    requires half { (sight owner.old).ruling.phase ≡ FirstHalf }
    requires none { (sight owner.old).ruling.high ≤ (sight owner.old).ruling.low }
    ensures stays { Stays owner.old owner.new }
    ensures same { sight owner.new ≡ sight owner.old }
    ensures told { ClaimsTold (setup_at table.now.site) (sight owner.old) }
{
    table.get::<Brand, ()>(owner, SEATS, ());
}
