//! The end of a round over the owner's lists: blocks that were published and retired go into them.
ghost use Rattle.std.specs.Prelude.{◌≡◌, ℕ, ◌+◌, ◌++◌, ◌∷◌, ◌<◌, ◌≤◌, [], length, vec_capacity};
ghost use Rattle.mesh_table.specs.Rounds.{MayClose};
ghost use Rattle.mesh_table.specs.Sights.{setup_at};
ghost use Rattle.mesh_table.specs.Told.{IsOf, Stays, sight};
ghost use Rattle.table_rounds.specs.Patches.{AllFit, Finished, IsLeft, IsSweepable, WereRetired, nth};
ghost use Rattle.table_rounds.specs.Stocks.{EachOnce, IsStock, PlacesNoted};

use crate::closing::close_round;
use crate::looks::look_blocks;
use crate::patch::Patch;
use crate::stock::Stock;
use mesh_table::passes::Forests;
use mesh_table::rule::MeshSeat;
use mesh_table::table::MeshTable;

// Notes each patch at the number of its block.
pub(crate) fn note_places(places: &mut Vec<Patch>, patches: &[Patch])
    requires room { (k : ℕ) → k < length patches.now → (nth patches.now k).block < length places.old.items }
    ensures length { length places.new.items ≡ length places.old.items }
    ensures noted { PlacesNoted places.old.items places.new.items patches.now (length patches.now) }
{
    for patch in patches {
        places[patch.block as usize] = *patch;
    }
}

// Adds the patches to the list, which has room for them.
pub(crate) fn add_patches(list: &mut Vec<Patch>, patches: &[Patch])
    requires room { length list.old.items + length patches.now ≤ vec_capacity list.old }
    ensures items { list.new.items ≡ list.old.items ++ patches.now }
    ensures capacity { vec_capacity list.new ≡ vec_capacity list.old }
{
    for patch in patches {
        list.push_reserved(*patch);
    }
}

/// Closes the round, whose passes are joined, and finishes it for readers in one step: each block
/// that was published is listed with its places, and those that were retired are kept. The lists
/// are what the passes published and retired. It takes no memory.
pub fn finish_round<'m, B: Forests>(
    table: &MeshTable<'m>,
    owner: &mut MeshSeat,
    stock: &mut Stock,
    claims: &[Patch],
    retired: &[Patch],
)
    requires fit { IsOf table.now.table.shared.table_id owner.old }
    requires may { MayClose (setup_at table.now.site) (sight owner.old) }
    requires room { stock.old.finished < table.now.site.layout.rounds }
    requires forest { IsLeft (setup_at table.now.site) (sight owner.old).ruling.plan B.forest }
    requires fits { AllFit table.now.site.layout claims.now × AllFit table.now.site.layout retired.now }
    requires claims { IsSweepable table.now.site.layout (sight owner.old) claims.now }
    requires retired { WereRetired table.now.site.layout (sight owner.old) retired.now }
    requires once { EachOnce retired.now }
    requires stock { IsStock table.now.site.layout (sight owner.old) stock.old }
    ensures stays { Stays owner.old owner.new }
    ensures stock { IsStock table.now.site.layout (sight owner.new) stock.new }
    ensures finished { (pins : ℕ) × (stock.new.left.items ≡ stock.old.left.items ++ pins ∷ []) × Finished table.now.site.layout (sight owner.old) (sight owner.new) claims.now B.forest pins }
    ensures kept { stock.new.kept.items ≡ stock.old.kept.items ++ retired.now }
    ensures others { (stock.new.hand ≡ stock.old.hand) × (stock.new.rolled_back ≡ stock.old.rolled_back) × (stock.new.rows ≡ stock.old.rows) }
{
    look_blocks(table, owner);
    let word = close_round::<B>(table, owner, claims, retired, stock.finished);
    look_blocks(table, owner);
    note_places(&mut stock.places, claims);
    add_patches(&mut stock.kept, retired);
    stock.left.push_reserved(word % 4294967296);
    stock.finished += 1;
    stock.early = stock.readers;
}
