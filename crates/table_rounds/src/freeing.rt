//! Blocks that were given up become free.
ghost use Rattle.std.specs.Prelude.{◌≡◌, ℕ, ◌+◌, ◌<◌, ◌≤◌, IsTrue, ◌++◌, true};
ghost use Rattle.table_words.specs.Entries.{HasEntry};
ghost use Rattle.table_words.specs.Views.{Resting, Owner};
ghost use Rattle.mesh_table.specs.Rounds.{DrainedTo, freed};
ghost use Rattle.mesh_table.specs.Told.{IsOf, Stays, sight};
ghost use Rattle.table_rounds.specs.Freed.{MayTry, Tried};
ghost use Rattle.table_rounds.specs.Sweeps.{AreBack, AreFreed, AreGivenUp, AreKept, AreOld, MaySweep};

use crate::patch::Patch;
use crate::sweeps::{clear_all_words, sweep_all};
use mesh_table::rule::MeshSeat;
use mesh_table::table::MeshTable;

/// Frees blocks that were rolled back, where no pin of the last finished round is out: RELEASED is
/// loaded first, and ROUND after it.
pub fn free_rolled_back<'m>(
    table: &MeshTable<'m>,
    owner: &mut MeshSeat,
    blocks: &[u32],
    finished: u32,
) -> bool
    requires fit { IsOf table.now.table.shared.table_id owner.old }
    requires may { MayTry (sight owner.old) blocks.now }
    requires finished { ((sight owner.old).ruling.finished ≡ finished) × (finished ≤ table.now.site.layout.rounds) }
    ensures stays { Stays owner.old owner.new }
    ensures freed { Tried (sight owner.old) (sight owner.new) blocks.now result }
{
    let released = table.look_released(owner, finished);
    let round = table.look_quiet(owner);
    if released == round % 4294967296 {
        table.free(owner, blocks);
        true
    } else {
        false
    }
}

/// Whether no pin of the last finished round is out: RELEASED is loaded first, and ROUND after it.
pub fn find_quiet<'m>(table: &MeshTable<'m>, owner: &mut MeshSeat, finished: u32) -> bool
    requires fit { IsOf table.now.table.shared.table_id owner.old }
    requires rules { (sight owner.old).kind ≡ Owner }
    requires finished { ((sight owner.old).ruling.finished ≡ finished) × (finished ≤ table.now.site.layout.rounds) }
    ensures stays { Stays owner.old owner.new }
    ensures same { sight owner.new ≡ record (sight owner.old) { ruling = record (sight owner.old).ruling { seen = (sight owner.new).ruling.seen; quiet = (sight owner.new).ruling.quiet } } }
    ensures quiet { result ≡ true → (sight owner.new).ruling.quiet ≡ true }
{
    let released = table.look_released(owner, finished);
    let round = table.look_quiet(owner);
    released == round % 4294967296
}

/// Frees the blocks that were retired, where no pin is out of a round before the last finished one.
/// Those that were rolled back stay.
pub fn free_retired<'m>(
    table: &MeshTable<'m>,
    owner: &mut MeshSeat,
    places: &[Patch],
    kept: &[Patch],
    rolled_back: &[Patch],
    blocks: &[u32],
)
    requires fit { IsOf table.now.table.shared.table_id owner.old }
    requires may { MaySweep table.now.site.layout (sight owner.old) places.now }
    requires old { AreOld table.now.site.layout (sight owner.old) kept.now }
    requires back { AreBack table.now.site.layout (sight owner.old) rolled_back.now }
    requires blocks { AreKept (sight owner.old) blocks.now }
    ensures stays { Stays owner.old owner.new }
    ensures freed { AreFreed (sight owner.old) (sight owner.new) blocks.now }
{
    sweep_all(table, owner, places, kept);
    clear_all_words(table, owner, places, rolled_back);
    table.free(owner, blocks);
}

/// Frees all blocks that were given up, retired or rolled back, where no pin is out of a round
/// before the last finished one, and the last finished round is quiet.
pub fn free_given_up<'m>(
    table: &MeshTable<'m>,
    owner: &mut MeshSeat,
    places: &[Patch],
    kept: &[Patch],
    blocks: &[u32],
)
    requires fit { IsOf table.now.table.shared.table_id owner.old }
    requires may { MaySweep table.now.site.layout (sight owner.old) places.now }
    requires old { AreOld table.now.site.layout (sight owner.old) kept.now }
    requires quiet { (sight owner.old).ruling.quiet ≡ true }
    requires blocks { AreGivenUp (sight owner.old) blocks.now }
    ensures stays { Stays owner.old owner.new }
    ensures freed { AreFreed (sight owner.old) (sight owner.new) blocks.now }
{
    sweep_all(table, owner, places, kept);
    table.free(owner, blocks);
}
