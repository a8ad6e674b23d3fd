//! A refused round over the owner's lists: blocks that are rolled back go into them.
ghost use Rattle.std.specs.Prelude.{◌≡◌, ℕ, ◌+◌, ◌++◌, ◌∷◌, ◌<◌, ◌≤◌, [], length, vec_capacity};
ghost use Rattle.mesh_table.specs.Rounds.{MayRefuse};
ghost use Rattle.mesh_table.specs.Told.{IsOf, Stays, sight};
ghost use Rattle.table_rounds.specs.Refusals.{AreHeld, HeldFit, RolledBackAll};
ghost use Rattle.table_rounds.specs.Stocks.{IsStock, patches_of};

use crate::finishing::note_places;
use crate::looks::look_blocks;
use crate::patch::{Held, Patch};
use crate::refusing::roll_back;
use crate::stock::Stock;
use mesh_table::rule::MeshSeat;
use mesh_table::table::MeshTable;

// Adds the block of a claim to the list, with its places, where the claim has one.
fn add_held(list: &mut Vec<Patch>, held: Held)
    requires room { length list.old.items + length (patches_of (held ∷ [])) ≤ vec_capacity list.old }
    ensures items { list.new.items ≡ list.old.items ++ patches_of (held ∷ []) }
    ensures capacity { vec_capacity list.new ≡ vec_capacity list.old }
{
    if let Some(block) = held.block {
        list.push_reserved(Patch {
            block,
            first: held.first,
            second: held.second,
        });
    }
}

// Adds the blocks of the claims to the list, which has room for them.
fn add_all_held(list: &mut Vec<Patch>, claims: &[Held])
    requires room { length list.old.items + length (patches_of claims.now) ≤ vec_capacity list.old }
    ensures items { list.new.items ≡ list.old.items ++ patches_of claims.now }
    ensures capacity { vec_capacity list.new ≡ vec_capacity list.old }
{
    for held in claims {
        add_held(list, *held);
    }
}

/// Refuses the round, whose passes are joined, and rolls it back: the blocks of its claims are
/// listed as rolled back, with their places. It takes no memory.
pub fn refuse_round<'m>(
    table: &MeshTable<'m>,
    owner: &mut MeshSeat,
    stock: &mut Stock,
    claims: &[Held],
)
    requires fit { IsOf table.now.table.shared.table_id owner.old }
    requires may { MayRefuse (sight owner.old) }
    requires room { stock.old.finished < table.now.site.layout.rounds }
    requires fits { HeldFit table.now.site.layout claims.now }
    requires claims { AreHeld table.now.site.layout (sight owner.old) claims.now }
    requires stock { IsStock table.now.site.layout (sight owner.old) stock.old }
    ensures stays { Stays owner.old owner.new }
    ensures stock { IsStock table.now.site.layout (sight owner.new) stock.new }
    ensures back { RolledBackAll table.now.site.layout (sight owner.old) (sight owner.new) claims.now }
    ensures rolled_back { stock.new.rolled_back.items ≡ stock.old.rolled_back.items ++ patches_of claims.now }
    ensures others { (stock.new.hand ≡ stock.old.hand) × (stock.new.kept ≡ stock.old.kept) × (stock.new.left ≡ stock.old.left) × (stock.new.rows ≡ stock.old.rows) }
{
    let start = stock.rolled_back.len();
    look_blocks(table, owner);
    roll_back(table, owner, claims, stock.finished + 1);
    look_blocks(table, owner);
    add_all_held(&mut stock.rolled_back, claims);
    note_places(&mut stock.places, &stock.rolled_back[start..]);
}
