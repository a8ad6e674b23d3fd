//! Rounds of which no pin is out.
ghost use Rattle.std.specs.Prelude.{◌≡◌, ℕ, ◌+◌, ◌<◌, ◌≤◌, length, slice_index};
ghost use Rattle.table_words.specs.Entries.{HasEntry};
ghost use Rattle.table_words.specs.Views.{Owner};
ghost use Rattle.mesh_table.specs.Told.{IsOf, Stays, sight};
ghost use Rattle.table_rounds.specs.Drained.{AllDrained, AreLeft, MoreDrained};

use mesh_table::rule::MeshSeat;
use mesh_table::table::MeshTable;

/// Goes on from the round below which all are drained, until one is not: the new such round. The list
/// has how many pins were taken in each round that was left.
pub fn drained_rounds<'m>(
    table: &MeshTable<'m>,
    owner: &mut MeshSeat,
    left: &[u64],
    from: u32,
) -> u32
    requires fit { IsOf table.now.table.shared.table_id owner.old }
    requires rules { (sight owner.old).kind ≡ Owner }
    requires left { AreLeft (sight owner.old) left.now }
    requires rounds { (length left.now ≤ table.now.site.layout.rounds) × (from ≤ length left.now) }
    requires from { AllDrained (sight owner.old) from }
    ensures stays { Stays owner.old owner.new }
    ensures more { MoreDrained (sight owner.old) (sight owner.new) }
    ensures drained { AllDrained (sight owner.new) result }
    ensures on { from ≤ result }
    ensures within { result ≤ length left.now }
{
    for round in from..left.len() as u32 {
        let pins = left[round as usize];
        let released = table.look_drained(owner, round, pins);
        if released != pins {
            return round;
        }
    }
    left.len() as u32
}
