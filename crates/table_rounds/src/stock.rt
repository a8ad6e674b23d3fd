//! The blocks that the owner has between rounds, and which of them become free.
ghost use Rattle.std.specs.Prelude.{IfOk, ◌≡◌, ℕ, ◌+◌, ◌++◌, ◌≤◌, ◌⊎◌, [], false, length, map, true, vec_capacity};
ghost use Rattle.table_words.specs.Views.{Owner, Resting};
ghost use Rattle.mesh_table.specs.Rounds.{DrainedTo};
ghost use Rattle.mesh_table.specs.Sights.{Sight, setup_at};
ghost use Rattle.table_state.specs.Fresh.{fresh_views};
ghost use Rattle.mesh_table.specs.Told.{IsOf, Stays, sight};
ghost use Rattle.table_rounds.specs.Drained.{MoreDrained};
ghost use Rattle.table_rounds.specs.Stocks.{AreDrained, IsStock, RoomLeft, blocks_of};

use crate::clearing::drained_rounds;
use crate::freeing::{find_quiet, free_given_up, free_retired};
use crate::looks::{look_blocks, look_room};
use crate::patch::Patch;
use crate::rows::lay_rows;
use mesh_table::rule::MeshSeat;
use mesh_table::table::MeshTable;
use std::alloc::{AllocError, Global};
use table_words::layout::{ElemAt, Layout};

/// The blocks that the owner has: free ones that are in no row, those that were retired and those
/// that were rolled back and are not free yet, and by block the places of each that is in use; and
/// what it knows of pins.
#[derive(Drop)]
pub struct Stock {
    pub hand: Vec<u32>,
    pub kept: Vec<Patch>,
    pub rolled_back: Vec<Patch>,
    pub places: Vec<Patch>,
    /// How many free rows there are.
    pub rows: u32,
    /// The last finished round.
    pub finished: u32,
    /// How many readers' passes are out.
    pub readers: u64,
    /// How many of them were made before that round was finished.
    pub early: u64,
    /// How many pins were taken in each round before it.
    pub left: Vec<u64>,
    /// No pin is out of a round below this one.
    pub drained: u32,
}

impl Stock {
    /// The lists of the owner of a fresh table: all blocks are in rows. There is memory for lists of
    /// the whole pool and of all rounds.
    pub fn new(alloc: Global, layout: Layout) -> Result<Stock, AllocError>
        ensures fresh { IfOk result (λ s. (v : Sight) → v.ruling ≡ (fresh_views layout.pool).ruling → IsStock layout v s) }
    {
        let pool = layout.pool as usize;
        let nowhere = Patch {
            block: 0,
            first: ElemAt::Macro(0),
            second: None,
        };
        Ok(Stock {
            hand: Vec::with_capacity(alloc, pool)?,
            kept: Vec::with_capacity(alloc, pool)?,
            rolled_back: Vec::with_capacity(alloc, pool)?,
            places: vec![in alloc; nowhere; pool]?,
            rows: layout.pool,
            finished: 0,
            readers: 0,
            early: 0,
            left: Vec::with_capacity(alloc, layout.rounds as usize)?,
            drained: 0,
        })
    }
}

/// How many blocks a call freed and kept.
#[derive(Clone, Copy, Debug, PartialEq, Eq)]
pub struct Reclaimed {
    pub freed: u32,
    pub kept: u32,
}

// Adds the blocks of the patches to the list, which has room for them.
fn add_blocks(hand: &mut Vec<u32>, patches: &[Patch])
    requires room { length hand.old.items + length patches.now ≤ vec_capacity hand.old }
    ensures items { hand.new.items ≡ hand.old.items ++ blocks_of patches.now }
    ensures capacity { vec_capacity hand.new ≡ vec_capacity hand.old }
{
    for patch in patches {
        hand.push_reserved(patch.block);
    }
}

// All blocks that were given up become free: the last finished round is quiet.
fn free_both<'m>(table: &MeshTable<'m>, owner: &mut MeshSeat, stock: &mut Stock)
    requires fit { IsOf table.now.table.shared.table_id owner.old }
    requires rules { (sight owner.old).kind ≡ Owner }
    requires rests { (sight owner.old).ruling.phase ≡ Resting }
    requires drained { AreDrained (sight owner.old) }
    requires quiet { (sight owner.old).ruling.quiet ≡ true }
    requires stock { IsStock table.now.site.layout (sight owner.old) stock.old }
    ensures stays { Stays owner.old owner.new }
    ensures stock { IsStock table.now.site.layout (sight owner.new) stock.new }
    ensures hand { stock.new.hand.items ≡ stock.old.hand.items ++ (blocks_of stock.old.kept.items ++ blocks_of stock.old.rolled_back.items) }
    ensures count { length stock.new.hand.items ≡ length stock.old.hand.items + length stock.old.kept.items + length stock.old.rolled_back.items }
    ensures none { (length stock.new.kept.items ≡ 0) × (length stock.new.rolled_back.items ≡ 0) }
{
    look_blocks(table, owner);
    let start = stock.hand.len();
    add_blocks(&mut stock.hand, &stock.kept);
    add_blocks(&mut stock.hand, &stock.rolled_back);
    free_given_up(
        table,
        owner,
        &stock.places,
        &stock.kept,
        &stock.hand[start..],
    );
    stock.kept.clear();
    stock.rolled_back.clear();
}

// The blocks that were retired become free.
fn free_kept<'m>(table: &MeshTable<'m>, owner: &mut MeshSeat, stock: &mut Stock)
    requires fit { IsOf table.now.table.shared.table_id owner.old }
    requires rules { (sight owner.old).kind ≡ Owner }
    requires rests { (sight owner.old).ruling.phase ≡ Resting }
    requires drained { AreDrained (sight owner.old) }
    requires stock { IsStock table.now.site.layout (sight owner.old) stock.old }
    ensures stays { Stays owner.old owner.new }
    ensures stock { IsStock table.now.site.layout (sight owner.new) stock.new }
    ensures hand { stock.new.hand.items ≡ stock.old.hand.items ++ blocks_of stock.old.kept.items }
    ensures count { length stock.new.hand.items ≡ length stock.old.hand.items + length stock.old.kept.items }
    ensures none { length stock.new.kept.items ≡ 0 }
    ensures back { stock.new.rolled_back.items ≡ stock.old.rolled_back.items }
{
    look_blocks(table, owner);
    let start = stock.hand.len();
    add_blocks(&mut stock.hand, &stock.kept);
    free_retired(
        table,
        owner,
        &stock.places,
        &stock.kept,
        &stock.rolled_back,
        &stock.hand[start..],
    );
    stock.kept.clear();
}

// Whether no pin is out of a round before the last finished one.
fn find_drained<'m>(table: &MeshTable<'m>, owner: &mut MeshSeat, stock: &mut Stock) -> bool
    requires fit { IsOf table.now.table.shared.table_id owner.old }
    requires rules { (sight owner.old).kind ≡ Owner }
    requires stock { IsStock table.now.site.layout (sight owner.old) stock.old }
    ensures stays { Stays owner.old owner.new }
    ensures more { MoreDrained (sight owner.old) (sight owner.new) }
    ensures stock { IsStock table.now.site.layout (sight owner.new) stock.new }
    ensures lists { (stock.new.kept.items ≡ stock.old.kept.items) × (stock.new.rolled_back.items ≡ stock.old.rolled_back.items) × (stock.new.hand.items ≡ stock.old.hand.items) }
    ensures drained { result ≡ true → AreDrained (sight owner.new) }
    ensures early { (sight owner.old).ruling.early ≡ 0 → result ≡ true }
{
    if stock.early == 0 {
        return true;
    }
    stock.drained = drained_rounds(table, owner, &stock.left, stock.drained);
    stock.drained == stock.finished
}

// The blocks that were retired become free, and those that were rolled back where the last finished
// round is quiet.
fn free_drained<'m>(table: &MeshTable<'m>, owner: &mut MeshSeat, stock: &mut Stock)
    requires fit { IsOf table.now.table.shared.table_id owner.old }
    requires rules { (sight owner.old).kind ≡ Owner }
    requires rests { (sight owner.old).ruling.phase ≡ Resting }
    requires drained { AreDrained (sight owner.old) }
    requires stock { IsStock table.now.site.layout (sight owner.old) stock.old }
    ensures stays { Stays owner.old owner.new }
    ensures stock { IsStock table.now.site.layout (sight owner.new) stock.new }
    ensures none { length stock.new.kept.items ≡ 0 }
    ensures back { (length stock.new.rolled_back.items ≡ 0) ⊎ (stock.new.rolled_back.items ≡ stock.old.rolled_back.items) }
    ensures hand { length stock.new.hand.items + length stock.new.rolled_back.items ≡ length stock.old.hand.items + length stock.old.kept.items + length stock.old.rolled_back.items }
{
    if find_quiet(table, owner, stock.finished) {
        free_both(table, owner, stock);
    } else {
        free_kept(table, owner, stock);
    }
}

/// Frees blocks that were given up, before a round: none while a pin is out of a round before the
/// last finished one; else all that were retired, and all that were rolled back where no pin of that
/// round is out either. It takes no memory.
pub fn reclaim<'m>(table: &MeshTable<'m>, owner: &mut MeshSeat, stock: &mut Stock) -> Reclaimed
    requires fit { IsOf table.now.table.shared.table_id owner.old }
    requires rules { (sight owner.old).kind ≡ Owner }
    requires rests { (sight owner.old).ruling.phase ≡ Resting }
    requires stock { IsStock table.now.site.layout (sight owner.old) stock.old }
    ensures stays { Stays owner.old owner.new }
    ensures stock { IsStock table.now.site.layout (sight owner.new) stock.new }
    ensures kept { length stock.new.kept.items + length stock.new.rolled_back.items ≡ result.kept }
    ensures freed { result.freed + result.kept ≡ length stock.old.kept.items + length stock.old.rolled_back.items }
    ensures hand { length stock.new.hand.items ≡ length stock.old.hand.items + result.freed }
    ensures all { (sight owner.old).ruling.early ≡ 0 → length stock.new.kept.items ≡ 0 }
{
    let given_up = stock.kept.len() + stock.rolled_back.len();
    if find_drained(table, owner, stock) {
        free_drained(table, owner, stock);
    }
    let kept = stock.kept.len() + stock.rolled_back.len();
    Reclaimed {
        freed: (given_up - kept) as u32,
        kept: kept as u32,
    }
}

/// Lays the free blocks of the hand into rows before a round: how many free rows there are. They are
/// the pool less the patches of the last forest and the blocks that were given up.
pub fn open_rows<'m>(table: &MeshTable<'m>, owner: &mut MeshSeat, stock: &mut Stock) -> u32
    requires fit { IsOf table.now.table.shared.table_id owner.old }
    requires rules { (sight owner.old).kind ≡ Owner }
    requires rests { (sight owner.old).ruling.phase ≡ Resting }
    requires home { (sight owner.old).ruling.workers ≡ 0 }
    requires stock { IsStock table.now.site.layout (sight owner.old) stock.old }
    ensures stays { Stays owner.old owner.new }
    ensures stock { IsStock table.now.site.layout (sight owner.new) stock.new }
    ensures opened { sight owner.new ≡ record (sight owner.old) { owned = (sight owner.new).owned; ruling = record (sight owner.old).ruling { hand = []; cursor = 1; free = result + 1; low = 0; high = 0 } } }
    ensures given { (stock.new.kept.items ≡ stock.old.kept.items) × (stock.new.rolled_back.items ≡ stock.old.rolled_back.items) }
    ensures room { RoomLeft (setup_at table.now.site) (sight owner.new) table.now.site.layout.pool result (length stock.new.kept.items + length stock.new.rolled_back.items) }
{
    let rows = lay_rows(table, owner, &stock.hand, stock.rows);
    look_blocks(table, owner);
    look_room(table, owner);
    stock.hand.clear();
    stock.rows = rows;
    rows
}
