//! The blocks that passes retired in a round, each once, with the places at which the owner noted them.
ghost use Rattle.std.specs.Prelude.{◌≡◌, ℕ, ◌++◌, ◌+◌, ◌<◌, ◌≤◌, [], All, length, map, vec_capacity};
ghost use Rattle.std.specs.List.Sorted.{IsStrictlyIncreasing};
ghost use Rattle.table_words.specs.Entries.{HasEntry};
ghost use Rattle.table_words.specs.Views.{Owner};
ghost use Rattle.mesh_table.specs.Told.{IsOf, Stays, sight};
ghost use Rattle.table_rounds.specs.Kinds.{IsRetired};
ghost use Rattle.table_rounds.specs.Patches.{AllFit, WereRetired, nth};
ghost use Rattle.table_rounds.specs.Stocks.{EachOnce};
ghost use Rattle.table_rounds.specs.Sweeps.{ArePlaced};

use crate::looks::look_blocks;
use crate::patch::Patch;
use mesh_table::rule::MeshSeat;
use mesh_table::table::MeshTable;

// The numbers of the list in their order, each once.
fn each_once(blocks: Vec<u32>) -> Vec<u32>
    ensures once { IsStrictlyIncreasing result.items }
    ensures right { (b : ℕ) → HasEntry result.items b → HasEntry blocks.items b }
    ensures all { (b : ℕ) → HasEntry blocks.items b → HasEntry result.items b }
    ensures few { length result.items ≤ length blocks.items }
{
    let mut rest = blocks;
    rest.sort_unstable();
    rest.dedup();
    rest
}

// Appends the patches that the list of places has at these numbers to a list that has room for them.
fn add_placed(patches: &mut Vec<Patch>, places: &[Patch], blocks: &[u32])
    requires inside { All (λ b. b < length places.now) blocks.now }
    requires room { length patches.old.items + length blocks.now ≤ vec_capacity patches.old }
    ensures items { patches.new.items ≡ patches.old.items ++ map (λ b. nth places.now b) blocks.now }
    ensures capacity { vec_capacity patches.new ≡ vec_capacity patches.old }
{
    for block in blocks {
        patches.push_reserved(places[*block as usize]);
    }
}

/// The blocks that passes retired in the round, each with the places at which the owner noted it. They may be listed more than once, and in any order. It takes no memory.
pub fn retired_patches<'m>(
    table: &MeshTable<'m>,
    owner: &mut MeshSeat,
    places: &[Patch],
    blocks: Vec<u32>,
    room: Vec<Patch>,
) -> Vec<Patch>
    requires fit { IsOf table.now.table.shared.table_id owner.old }
    requires rules { (sight owner.old).kind ≡ Owner }
    requires placed { ArePlaced table.now.site.layout (sight owner.old) places.now }
    requires right { (b : ℕ) → HasEntry blocks.items b → IsRetired (sight owner.old) b }
    requires all { (b : ℕ) → IsRetired (sight owner.old) b → HasEntry blocks.items b }
    requires room { (room.items ≡ []) × (length blocks.items ≤ vec_capacity room) }
    ensures stays { Stays owner.old owner.new }
    ensures same { sight owner.new ≡ sight owner.old }
    ensures fits { AllFit table.now.site.layout result.items }
    ensures retired { WereRetired table.now.site.layout (sight owner.old) result.items }
    ensures once { EachOnce result.items }
{
    look_blocks(table, owner);
    let blocks = each_once(blocks);
    let mut patches = room;
    add_placed(&mut patches, places, &blocks);
    patches
}
