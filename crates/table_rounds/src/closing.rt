//! The end of a round: claims end, blocks that were retired are stamped, and the round is finished.
ghost use Rattle.std.specs.Prelude.{◌≡◌, ℕ, ◌+◌, ◌%◌, ◌<◌, length, []};
ghost use Rattle.table_words.specs.Entries.{HasEntry, Noted};
ghost use Rattle.table_words.specs.Layout.{IsElemAt};
ghost use Rattle.table_words.specs.Places.{place_number};
ghost use Rattle.table_words.specs.Views.{Closing, Owner};
ghost use Rattle.mesh_table.specs.Passes.{IsStampedIn};
ghost use Rattle.mesh_table.specs.Rounds.{MayClose};
ghost use Rattle.mesh_table.specs.Sights.{setup_at};
ghost use Rattle.mesh_table.specs.Told.{IsOf, Stays, mate_number, sight};
ghost use Rattle.table_rounds.specs.Patches.{AllFit, AreRetired, Finished, IsLeft, IsPatch, IsSweepable, IsSwept, StampedTo, StampsStay, StandsAt, Swept, WereRetired, spot};

use crate::patch::Patch;
use mesh_table::passes::Forests;
use mesh_table::rule::MeshSeat;
use mesh_table::table::MeshTable;
use table_words::layout::ElemAt;

/// Ends the claims of the closed round, each with its living block: the blocks are noted with their places.
pub fn sweep_claims<'m>(table: &MeshTable<'m>, owner: &mut MeshSeat, claims: &[Patch])
    requires fit { IsOf table.now.table.shared.table_id owner.old }
    requires rules { (sight owner.old).kind ≡ Owner }
    requires closed { (sight owner.old).ruling.phase ≡ Closing }
    requires fits { AllFit table.now.site.layout claims.now }
    requires claims { IsSweepable table.now.site.layout (sight owner.old) claims.now }
    ensures stays { Stays owner.old owner.new }
    ensures swept { Swept table.now.site.layout (sight owner.old) (sight owner.new) claims.now }
{
    for patch in claims {
        table.unclaim(owner, patch.first, patch.second, patch.block);
    }
}

/// Looks at the LINK word of a place of a block that was retired in the round: where it names the
/// block, it gets the round.
pub fn stamp_at<'m>(table: &MeshTable<'m>, owner: &mut MeshSeat, at: ElemAt, block: u32, round: u32)
    requires fit { IsOf table.now.table.shared.table_id owner.old }
    requires swept { IsSwept (sight owner.old) round }
    requires small { round < 65536 }
    requires place { IsElemAt table.now.site.layout at }
    requires block { block < table.now.site.layout.pool }
    requires stands { StandsAt (sight owner.old) block (place_number table.now.site.layout at) }
    requires fair { HasEntry (sight owner.old).ruling.rolled_back block → ⊥ }
    requires died { Noted (sight owner.old).owned.died block round }
    ensures stays { Stays owner.old owner.new }
    ensures same { sight owner.new ≡ record (sight owner.old) { owned = record (sight owner.old).owned { head = (sight owner.new).owned.head } } }
    ensures stamped { IsStampedIn (sight owner.new) (place_number table.now.site.layout at) block }
    ensures others { StampsStay (sight owner.old) (sight owner.new) }
{
    let word = table.look_head(owner, at);
    if word / 2 % 2097152 == u64::from(block) + 1 && word / 4194304 % 65536 == 0 {
        table.stamp(owner, at, block, false, round);
    }
}

/// Stamps a block at the places of its members.
pub fn stamp_patch<'m>(table: &MeshTable<'m>, owner: &mut MeshSeat, patch: Patch, round: u32)
    requires fit { IsOf table.now.table.shared.table_id owner.old }
    requires swept { IsSwept (sight owner.old) round }
    requires small { round < 65536 }
    requires patch { IsPatch table.now.site.layout patch }
    requires retired { HasEntry (sight owner.old).ruling.retired patch.block }
    requires placed { HasEntry (sight owner.old).ruling.placed (spot table.now.site.layout patch) }
    ensures stays { Stays owner.old owner.new }
    ensures same { sight owner.new ≡ record (sight owner.old) { owned = (sight owner.new).owned } }
    ensures first { IsStampedIn (sight owner.new) (place_number table.now.site.layout patch.first) patch.block }
    ensures second { (y : ℕ) → mate_number table.now.site.layout patch.second ≡ y + 1 → IsStampedIn (sight owner.new) y patch.block }
    ensures others { StampsStay (sight owner.old) (sight owner.new) }
{
    table.look_died(owner, patch.block);
    stamp_at(table, owner, patch.first, patch.block, round);
    if let Some(at) = patch.second {
        stamp_at(table, owner, at, patch.block, round);
    }
}

/// Stamps the blocks that were retired in the round.
pub fn stamp_all<'m>(table: &MeshTable<'m>, owner: &mut MeshSeat, retired: &[Patch], round: u32)
    requires fit { IsOf table.now.table.shared.table_id owner.old }
    requires swept { IsSwept (sight owner.old) round }
    requires small { round < 65536 }
    requires fits { AllFit table.now.site.layout retired.now }
    requires retired { AreRetired table.now.site.layout (sight owner.old) retired.now }
    ensures stays { Stays owner.old owner.new }
    ensures stamped { StampedTo table.now.site.layout (sight owner.old) (sight owner.new) retired.now (length retired.now) }
{
    for patch in retired {
        stamp_patch(table, owner, *patch, round);
    }
}

/// Closes the round, whose passes are joined: the claims end, the blocks that were retired are stamped, and the round is finished for readers in one step. The answer is the old word, in whose lower half is how many pins were taken in the round before.
pub fn close_round<'m, B: Forests>(
    table: &MeshTable<'m>,
    owner: &mut MeshSeat,
    claims: &[Patch],
    retired: &[Patch],
    finished: u32,
) -> u64
    requires fit { IsOf table.now.table.shared.table_id owner.old }
    requires may { MayClose (setup_at table.now.site) (sight owner.old) }
    requires finished { (sight owner.old).ruling.finished ≡ finished }
    requires room { finished < table.now.site.layout.rounds }
    requires forest { IsLeft (setup_at table.now.site) (sight owner.old).ruling.plan B.forest }
    requires fits { AllFit table.now.site.layout claims.now × AllFit table.now.site.layout retired.now }
    requires claims { IsSweepable table.now.site.layout (sight owner.old) claims.now }
    requires retired { WereRetired table.now.site.layout (sight owner.old) retired.now }
    ensures stays { Stays owner.old owner.new }
    ensures finished { Finished table.now.site.layout (sight owner.old) (sight owner.new) claims.now B.forest (result % 4294967296) }
{
    table.close(owner);
    sweep_claims(table, owner, claims);
    stamp_all(table, owner, retired, finished + 1);
    table.advance::<B>(owner, finished)
}
