//! Free rows before a round: only those that were drawn in the last one are laid anew, and further
//! ones where more blocks became free.
ghost use Rattle.std.specs.Prelude.{◌≡◌, ℕ, ◌+◌, ◌-◌, ◌<◌, ◌≤◌, [], length, slice_index, ◌⊎◌};
ghost use Rattle.table_words.specs.Entries.{HasEntry};
ghost use Rattle.table_words.specs.Views.{Resting, Owner};
ghost use Rattle.mesh_table.specs.Rounds.{MayLay, MayOpen, MayTake, MayZero, taken};
ghost use Rattle.mesh_table.specs.Told.{IsOf, Stays, sight};
ghost use Rattle.table_rounds.specs.Rows.{IsHand, IsShut, RowsLaid, laid};

use crate::looks::look_drawn;
use mesh_table::rule::MeshSeat;
use mesh_table::table::MeshTable;

/// Lays a free block into a row: its BORN becomes 0 before.
pub fn lay_block<'m>(table: &MeshTable<'m>, owner: &mut MeshSeat, row: u32, block: u32)
    requires fit { IsOf table.now.table.shared.table_id owner.old }
    requires row { row < table.now.site.layout.pool }
    requires block { block < table.now.site.layout.pool }
    requires zero { MayZero (sight owner.old) block }
    requires lay { MayLay (sight owner.old) row }
    ensures stays { Stays owner.old owner.new }
    ensures laid { sight owner.new ≡ laid (sight owner.old) row block }
{
    table.zero(owner, block);
    table.lay(owner, row, block);
}

/// The row of a block of the hand, by its number there.
fn row_of(next: u32, low: u32, rows: u32) -> u32
    requires low { low ≤ rows }
    requires room { next + rows < 4294967296 + low }
    ensures { ((next < low) × (result ≡ next)) ⊎ ((low ≤ next) × (result ≡ rows + (next - low))) }
{
    if next < low {
        next
    } else {
        rows + (next - low)
    }
}

/// Lays the blocks of the owner's hand: first into the rows below `low`, then into those from
/// `rows` on.
pub fn lay_hand<'m>(
    table: &MeshTable<'m>,
    owner: &mut MeshSeat,
    hand: &[u32],
    drawn: u64,
    low: u32,
    rows: u32,
)
    requires fit { IsOf table.now.table.shared.table_id owner.old }
    requires shut { IsShut (sight owner.old) drawn rows }
    requires hand { IsHand (sight owner.old) table.now.site.layout.pool hand.now }
    requires low { (low ≤ drawn) × (low ≤ rows) }
    requires room { (rows ≤ table.now.site.layout.pool) × (length hand.now + rows ≤ table.now.site.layout.pool + low) }
    ensures stays { Stays owner.old owner.new }
    ensures same { sight owner.new ≡ record (sight owner.old) { owned = (sight owner.new).owned } }
    ensures laid { RowsLaid (sight owner.new) hand.now (length hand.now) (length hand.now - (length hand.now - low)) rows (rows + (length hand.now - low)) }
{
    let mut next = 0;
    for block in hand {
        let row = row_of(next, low, rows);
        lay_block(table, owner, row, *block);
        next += 1;
    }
}

/// Takes the block of the stock's last row, and lays it into a row below the stock.
pub fn move_row<'m>(table: &MeshTable<'m>, owner: &mut MeshSeat, from: u32, row: u32)
    requires fit { IsOf table.now.table.shared.table_id owner.old }
    requires rules { ((sight owner.old).kind ≡ Owner) × ((sight owner.old).ruling.phase ≡ Resting) × ((sight owner.old).ruling.free ≡ 1) }
    requires take { MayTake (sight owner.old) from }
    requires rows { (row < (sight owner.old).ruling.low) × (row < table.now.site.layout.pool) × (from < table.now.site.layout.pool) }
    ensures stays { Stays owner.old owner.new }
    ensures moved { (b : ℕ) × (sight owner.new ≡ laid (taken (sight owner.old) from b) row b) × (HasEntry (sight owner.old).ruling.hand b → ⊥) }
{
    let block = table.take_row(owner, from) as u32;
    lay_block(table, owner, row, block);
}

/// Fills the rows from `from` on and below `low` with blocks of the stock, the last first: how many
/// rows are laid, and where the stock ends.
pub fn lay_stock<'m>(
    table: &MeshTable<'m>,
    owner: &mut MeshSeat,
    hand: &[u32],
    drawn: u64,
    low: u32,
    rows: u32,
) -> (u32, u32)
    requires fit { IsOf table.now.table.shared.table_id owner.old }
    requires shut { IsShut (sight owner.old) drawn rows }
    requires low { (low ≤ drawn) × (low ≤ rows) × (low < rows → drawn ≡ low) }
    requires room { rows ≤ table.now.site.layout.pool }
    requires few { length hand.now ≤ low }
    requires laid { RowsLaid (sight owner.old) hand.now (length hand.now) (length hand.now) rows rows }
    ensures stays { Stays owner.old owner.new }
    ensures same { sight owner.new ≡ record (sight owner.old) { owned = (sight owner.new).owned; ruling = record (sight owner.old).ruling { hand = (sight owner.new).ruling.hand; high = (sight owner.new).ruling.high } } }
    ensures high { (sight owner.new).ruling.high ≡ result.1 }
    ensures laid { RowsLaid (sight owner.new) hand.now (length hand.now) result.0 rows rows }
    ensures ends { (result.0 ≤ low) × (low ≤ result.1) × (result.1 ≤ rows) × (low < result.1 → result.0 ≡ low) }
{
    let mut next = hand.len() as u32;
    let mut high = rows;
    for _ in hand.len() as u32..low {
        if low < high {
            high -= 1;
            move_row(table, owner, high, next);
            next += 1;
        }
    }
    (next, high)
}

/// How many rows are to be laid anew.
fn low_of(drawn: u64, rows: u32) -> u32
    ensures { (result ≤ drawn) × (result ≤ rows) × (result < rows → drawn ≡ result) }
{
    if drawn < u64::from(rows) {
        drawn as u32
    } else {
        rows
    }
}

/// Fills what the hand left of the rows to be laid anew: how many rows there are then.
pub fn lay_rest<'m>(
    table: &MeshTable<'m>,
    owner: &mut MeshSeat,
    hand: &[u32],
    drawn: u64,
    low: u32,
    rows: u32,
) -> u32
    requires fit { IsOf table.now.table.shared.table_id owner.old }
    requires shut { IsShut (sight owner.old) drawn rows }
    requires low { (low ≤ drawn) × (low ≤ rows) × (low < rows → drawn ≡ low) }
    requires room { (rows ≤ table.now.site.layout.pool) × (length hand.now + rows ≤ table.now.site.layout.pool + low) }
    requires laid { RowsLaid (sight owner.old) hand.now (length hand.now) (length hand.now - (length hand.now - low)) rows (rows + (length hand.now - low)) }
    ensures stays { Stays owner.old owner.new }
    ensures same { sight owner.new ≡ record (sight owner.old) { owned = (sight owner.new).owned; ruling = record (sight owner.old).ruling { hand = (sight owner.new).ruling.hand; high = (sight owner.new).ruling.high } } }
    ensures may { MayOpen (sight owner.new) result }
{
    if hand.len() < low as usize {
        let (next, high) = lay_stock(table, owner, hand, drawn, low, rows);
        if low < high { high } else { next }
    } else {
        rows + (hand.len() as u32 - low)
    }
}

/// Lays the free rows anew before a round: the blocks of the owner's hand, and no more rows than
/// were drawn in the last round and blocks became free. FREE is then the number of rows.
pub fn lay_rows<'m>(table: &MeshTable<'m>, owner: &mut MeshSeat, hand: &[u32], rows: u32) -> u32
    requires fit { IsOf table.now.table.shared.table_id owner.old }
    requires rules { ((sight owner.old).kind ≡ Owner) × ((sight owner.old).ruling.phase ≡ Resting) × ((sight owner.old).ruling.workers ≡ 0) }
    requires free { ((sight owner.old).ruling.free ≡ rows + 1) × (rows ≤ table.now.site.layout.pool) }
    requires stock { (sight owner.old).ruling.high ≤ (sight owner.old).ruling.low }
    requires hand { IsHand (sight owner.old) table.now.site.layout.pool hand.now }
    ensures stays { Stays owner.old owner.new }
    ensures opened { sight owner.new ≡ record (sight owner.old) { owned = (sight owner.new).owned; ruling = record (sight owner.old).ruling { hand = []; cursor = 1; free = result + 1; low = 0; high = 0 } } }
{
    let drawn = look_drawn(table, owner);
    let low = low_of(drawn, rows);
    table.stop(owner, drawn, u64::from(rows));
    table.rewind(owner);
    lay_hand(table, owner, hand, drawn, low, rows);
    let count = lay_rest(table, owner, hand, drawn, low, rows);
    table.open(owner, count);
    count
}
