//! Words are led past blocks that were given up.
ghost use Rattle.std.specs.Prelude.{◌≡◌, ◌≢◌, ℕ, ◌+◌, ◌<◌, ◌≤◌, IfSome, false, true, length};
ghost use Rattle.table_words.specs.Entries.{HasEntry, Noted};
ghost use Rattle.table_words.specs.Layout.{IsElemAt};
ghost use Rattle.table_words.specs.Places.{member_of, place_number};
ghost use Rattle.table_words.specs.Words.{node_of};
ghost use Rattle.table_state.specs.Ghosts.{Placed, stands};
ghost use Rattle.mesh_table.specs.Told.{IsOf, Stays, mate_number, sight};
ghost use Rattle.table_rounds.specs.Patches.{IsPatch, StandsAt, nth, spot};
ghost use Rattle.table_rounds.specs.Versions.{IsRooted, LeadsTo, NamesLiving, TwoPlaces};
ghost use Rattle.table_rounds.specs.Sweeps.{AreBack, AreOld, BlockClear, ClearTo, IsOld, LedHead, LedOlder, MaySweep, OldClear, PlaceClear, StillClear, WordsClear, WordsTo};

use crate::looks::{look_last, look_older, look_version};
use crate::patch::Patch;
use mesh_table::rule::MeshSeat;
use mesh_table::table::MeshTable;
use table_words::layout::ElemAt;

/// The retired round in a LINK or HISTORY word, or 0.
fn retired_round(word: u64) -> u64
    ensures { result ≡ (node_of word).died }
{
    word / 4194304 % 65536
}

/// Whether the word names a block.
fn is_empty(word: u64) -> bool
    ensures some { result ≡ false → 0 < (node_of word).block }
    ensures none { result ≡ true → (node_of word).block ≡ 0 }
{
    word / 2 % 2097152 == 0
}

/// The block that the word names.
fn named_block(word: u64) -> u32
    requires { 0 < (node_of word).block }
    ensures { (node_of word).block ≡ result + 1 }
{
    (word / 2 % 2097152 - 1) as u32
}

/// Which member of the block stands at the place: whether it is the second.
fn side_at(places: &[Patch], block: u32, at: ElemAt) -> bool
    requires { block < length places.now }
    ensures first { result ≡ false → (nth places.now block).first ≡ at }
    ensures second { result ≡ true → (nth places.now block).first ≢ at }
{
    places[block as usize].first != at
}

/// Leads the LINK word of a place past the retired block that it names: its new content.
pub fn cut_head<'m>(
    table: &MeshTable<'m>,
    owner: &mut MeshSeat,
    places: &[Patch],
    at: ElemAt,
    word: u64,
) -> u64
    requires fit { IsOf table.now.table.shared.table_id owner.old }
    requires may { MaySweep table.now.site.layout (sight owner.old) places.now }
    requires place { IsElemAt table.now.site.layout at }
    requires led { LedHead table.now.site.layout.pool (sight owner.old) (sight owner.old) (place_number table.now.site.layout at) (node_of word) }
    requires dead { 0 < (node_of word).died }
    ensures stays { Stays owner.old owner.new }
    ensures led { LedHead table.now.site.layout.pool (sight owner.old) (sight owner.new) (place_number table.now.site.layout at) (node_of result) }
    ensures falls { (node_of result).died < (node_of word).died }
{
    let block = named_block(word);
    let second = side_at(places, block, at);
    let older = look_older(table, owner, block, second, at);
    table.cut_link(owner, at, block, second, older);
    older
}

/// Leads the LINK word of a place on until it names no retired block: its content then.
pub fn lead_head<'m>(
    table: &MeshTable<'m>,
    owner: &mut MeshSeat,
    places: &[Patch],
    at: ElemAt,
) -> u64
    requires fit { IsOf table.now.table.shared.table_id owner.old }
    requires may { MaySweep table.now.site.layout (sight owner.old) places.now }
    requires place { IsElemAt table.now.site.layout at }
    requires rooted { IsRooted table.now.site.layout.elements (sight owner.old) (place_number table.now.site.layout at) }
    ensures stays { Stays owner.old owner.new }
    ensures led { LedHead table.now.site.layout.pool (sight owner.old) (sight owner.new) (place_number table.now.site.layout at) (node_of result) }
    ensures living { (node_of result).died ≡ 0 }
{
    let mut word = look_version(table, owner, at);
    while retired_round(word) > 0 {
        word = cut_head(table, owner, places, at, word);
    }
    word
}

/// Leads the HISTORY word of a member, which stands at the place, past the block that it names: its
/// new content.
pub fn cut_older<'m>(
    table: &MeshTable<'m>,
    owner: &mut MeshSeat,
    places: &[Patch],
    holder: u32,
    side: bool,
    at: ElemAt,
    word: u64,
) -> u64
    requires fit { IsOf table.now.table.shared.table_id owner.old }
    requires may { MaySweep table.now.site.layout (sight owner.old) places.now }
    requires holder { holder < table.now.site.layout.pool }
    requires stands { (y m : ℕ) × HasEntry (sight owner.old).ruling.placed (holder, y, m) × (stands (Placed y m) side ≡ place_number table.now.site.layout at + 1) }
    requires place { IsElemAt table.now.site.layout at }
    requires led { LedOlder table.now.site.layout.pool (sight owner.old) (sight owner.old) (place_number table.now.site.layout at) holder side (node_of word) }
    requires dead { 0 < (node_of word).died }
    ensures stays { Stays owner.old owner.new }
    ensures led { LedOlder table.now.site.layout.pool (sight owner.old) (sight owner.new) (place_number table.now.site.layout at) holder side (node_of result) }
    ensures falls { (node_of result).died < (node_of word).died }
{
    let block = named_block(word);
    let second = side_at(places, block, at);
    let older = look_older(table, owner, block, second, at);
    table.cut_history(owner, holder, side, at, block, second, older);
    older
}

/// Leads the HISTORY word of a member, which stands at the place, on until it names no block.
pub fn lead_older<'m>(
    table: &MeshTable<'m>,
    owner: &mut MeshSeat,
    places: &[Patch],
    holder: u32,
    side: bool,
    at: ElemAt,
)
    requires fit { IsOf table.now.table.shared.table_id owner.old }
    requires may { MaySweep table.now.site.layout (sight owner.old) places.now }
    requires holder { holder < table.now.site.layout.pool }
    requires stands { (y m : ℕ) × HasEntry (sight owner.old).ruling.placed (holder, y, m) × (stands (Placed y m) side ≡ place_number table.now.site.layout at + 1) }
    requires place { IsElemAt table.now.site.layout at }
    ensures stays { Stays owner.old owner.new }
    ensures still { StillClear (sight owner.old) (sight owner.new) }
    ensures clear { OldClear (sight owner.new) holder side }
{
    let mut word = look_older(table, owner, holder, side, at);
    while retired_round(word) > 0 {
        word = cut_older(table, owner, places, holder, side, at, word);
    }
}

/// Clears a place of a retired block: its LINK word, and the HISTORY word of the block that is not
/// retired there.
pub fn sweep_place<'m>(table: &MeshTable<'m>, owner: &mut MeshSeat, places: &[Patch], at: ElemAt)
    requires fit { IsOf table.now.table.shared.table_id owner.old }
    requires may { MaySweep table.now.site.layout (sight owner.old) places.now }
    requires place { IsElemAt table.now.site.layout at }
    requires rooted { IsRooted table.now.site.layout.elements (sight owner.old) (place_number table.now.site.layout at) }
    ensures stays { Stays owner.old owner.new }
    ensures still { StillClear (sight owner.old) (sight owner.new) }
    ensures clear { PlaceClear (sight owner.new) (place_number table.now.site.layout at) }
{
    let word = lead_head(table, owner, places, at);
    if !is_empty(word) {
        let block = named_block(word);
        let second = side_at(places, block, at);
        lead_older(table, owner, places, block, second, at);
    }
}

/// Clears the place of a second member, where there is one.
pub fn sweep_second<'m>(
    table: &MeshTable<'m>,
    owner: &mut MeshSeat,
    places: &[Patch],
    second: Option<ElemAt>,
)
    requires fit { IsOf table.now.table.shared.table_id owner.old }
    requires may { MaySweep table.now.site.layout (sight owner.old) places.now }
    requires place { IfSome second (IsElemAt table.now.site.layout) }
    requires rooted { (y : ℕ) → mate_number table.now.site.layout second ≡ y + 1 → IsRooted table.now.site.layout.elements (sight owner.old) y }
    ensures stays { Stays owner.old owner.new }
    ensures still { StillClear (sight owner.old) (sight owner.new) }
    ensures clear { (y : ℕ) → mate_number table.now.site.layout second ≡ y + 1 → PlaceClear (sight owner.new) y }
{
    if let Some(at) = second {
        sweep_place(table, owner, places, at);
    }
}

/// Clears the places of a retired block, and loads its DIED.
pub fn sweep_block<'m>(table: &MeshTable<'m>, owner: &mut MeshSeat, places: &[Patch], patch: Patch)
    requires fit { IsOf table.now.table.shared.table_id owner.old }
    requires may { MaySweep table.now.site.layout (sight owner.old) places.now }
    requires old { IsOld table.now.site.layout (sight owner.old) patch }
    ensures stays { Stays owner.old owner.new }
    ensures still { StillClear (sight owner.old) (sight owner.new) }
    ensures clear { BlockClear (sight owner.new) patch.block }
{
    look_last(table, owner, patch.block);
    sweep_place(table, owner, places, patch.first);
    sweep_second(table, owner, places, patch.second);
}

/// Clears the places of all retired blocks.
pub fn sweep_all<'m>(table: &MeshTable<'m>, owner: &mut MeshSeat, places: &[Patch], kept: &[Patch])
    requires fit { IsOf table.now.table.shared.table_id owner.old }
    requires may { MaySweep table.now.site.layout (sight owner.old) places.now }
    requires old { AreOld table.now.site.layout (sight owner.old) kept.now }
    ensures stays { Stays owner.old owner.new }
    ensures clear { ClearTo table.now.site.layout (sight owner.old) (sight owner.new) kept.now (length kept.now) }
{
    for patch in kept {
        sweep_block(table, owner, places, *patch);
    }
}

/// Clears the HISTORY words of a block that was rolled back and stays.
pub fn clear_words<'m>(table: &MeshTable<'m>, owner: &mut MeshSeat, places: &[Patch], patch: Patch)
    requires fit { IsOf table.now.table.shared.table_id owner.old }
    requires may { MaySweep table.now.site.layout (sight owner.old) places.now }
    requires fits { IsPatch table.now.site.layout patch }
    requires placed { HasEntry (sight owner.old).ruling.placed (spot table.now.site.layout patch) }
    ensures stays { Stays owner.old owner.new }
    ensures still { StillClear (sight owner.old) (sight owner.new) }
    ensures clear { WordsClear (sight owner.new) patch.block }
{
    lead_older(table, owner, places, patch.block, false, patch.first);
    if let Some(second) = patch.second {
        lead_older(table, owner, places, patch.block, true, second);
    }
}

/// Clears the HISTORY words of all blocks that were rolled back and stay.
pub fn clear_all_words<'m>(
    table: &MeshTable<'m>,
    owner: &mut MeshSeat,
    places: &[Patch],
    rolled_back: &[Patch],
)
    requires fit { IsOf table.now.table.shared.table_id owner.old }
    requires may { MaySweep table.now.site.layout (sight owner.old) places.now }
    requires back { AreBack table.now.site.layout (sight owner.old) rolled_back.now }
    ensures stays { Stays owner.old owner.new }
    ensures clear { WordsTo table.now.site.layout (sight owner.old) (sight owner.new) rolled_back.now (length rolled_back.now) }
{
    for patch in rolled_back {
        clear_words(table, owner, places, *patch);
    }
}
