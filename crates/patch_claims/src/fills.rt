//! The words of a block that was drawn for a patch.
ghost use Rattle.std.specs.Prelude.{◌≡◌, ℕ, ◌+◌, ◌*◌, ◌<◌, ◌≤◌, ◌∷◌, [], IfErr, IfOk, true};
ghost use Rattle.table_words.specs.Claims.{Claimed, Drawn, Failed, Half, Living, Whole, claim, moved_on};
ghost use Rattle.table_words.specs.Entries.{HasEntry};
ghost use Rattle.table_words.specs.Layout.{IsElemAt};
ghost use Rattle.table_words.specs.NameWords.{name_code};
ghost use Rattle.table_words.specs.Links.{IsLink, after};
ghost use Rattle.table_words.specs.Words.{node, node_of};
ghost use Rattle.table_words.specs.Places.{place_number};
ghost use Rattle.table_words.specs.Views.{Worker};
ghost use Rattle.mesh_table.specs.Saw.{SawBirth, SawClaim, SawDraw, SawFree};
ghost use Rattle.mesh_table.specs.Sights.{setup_at};
ghost use Rattle.mesh_table.specs.Told.{IsOf, MayClaim, MayFill, MayLink, Stays, codes, mate_number, noted_children, sight};
ghost use Rattle.mesh_table.specs.Lost.{AllLiving};
ghost use Rattle.patch_claims.specs.Claims.{AllLivingBut};
ghost use Rattle.patch_walk.specs.Works.{Works};
ghost use Rattle.patch_claims.specs.Ends.{IsUnfound};
ghost use Rattle.patch_claims.specs.Kept.{SameWork, SureOnly};

use mesh_names::name::ElemName;
use mesh_table::rule::MeshSeat;
use mesh_table::table::MeshTable;
use table_words::layout::ElemAt;
use table_words::link::Link;

// Fills the LINK words of a drawn block's children: no place that was found is one of theirs.
fn fill_children(table: &MeshTable, pass: &mut MeshSeat, block: u32)
    requires fit { IsOf table.now.table.shared.table_id pass.old }
    requires block { block < table.now.site.layout.pool }
    requires may { MayFill (sight pass.old) block }
    ensures stays { Stays pass.old pass.new }
    ensures view { sight pass.new ≡ noted_children (sight pass.old) table.now.site.layout.elements block }
    ensures apart { (y a c : ℕ) → HasEntry (sight pass.old).work.found (y, a) → c < 4 → y ≡ table.now.site.layout.elements + 4 * block + c → ⊥ }
{
    table.fill_child(pass, block, 0);
    table.fill_child(pass, block, 1);
    table.fill_child(pass, block, 2);
    table.fill_child(pass, block, 3);
}

// A HISTORY word of the old content of a LINK word.
fn past_of(word: u64) -> Link
    ensures { IsLink result × (node (after result.block) result.died ≡ node_of word) }
{
    let old = Link::read(word);
    Link {
        claimed: false,
        block: old.block,
        died: old.died,
    }
}

/// Fills the words of the block that was drawn for a patch of one member.
pub fn fill_alone(table: &MeshTable, pass: &mut MeshSeat, at: ElemAt, name: ElemName, block: u32)
    requires fit { IsOf table.now.table.shared.table_id pass.old }
    requires place { IsElemAt table.now.site.layout at }
    requires block { block < table.now.site.layout.pool }
    requires works { (sight pass.old).kind ≡ Worker }
    requires drew { HasEntry (sight pass.old).claims (claim (place_number table.now.site.layout at) 0 (Drawn block)) }
    requires found { HasEntry (sight pass.old).work.found (place_number table.now.site.layout at, name_code name) }
    requires leads { ((setup_at table.now.site).leads (name_code name) ≡ true) × ((setup_at table.now.site).mate (name_code name) ≡ 0) }
    ensures stays { Stays pass.old pass.new }
    ensures same { SureOnly (sight pass.old) (sight pass.new) }
    ensures may { MayLink (setup_at table.now.site) (sight pass.new) (place_number table.now.site.layout at) 0 block (name_code name) }
    ensures unfound { IsUnfound (setup_at table.now.site) (sight pass.old) block }
{
    table.fill_died(pass, block);
    table.fill_name(pass, block, false, Some(name));
    table.fill_name(pass, block, true, None);
    fill_children(table, pass, block);
    let past = past_of(table.look_link(pass, at));
    table.fill_history(pass, block, false, past);
    let none = Link {
        claimed: false,
        block: None,
        died: 0,
    };
    table.fill_history(pass, block, true, none);
}

/// Fills the words of the block that was drawn for a patch of two members.
pub fn fill_pair(
    table: &MeshTable,
    pass: &mut MeshSeat,
    at: ElemAt,
    other: ElemAt,
    name: ElemName,
    partner: ElemName,
    block: u32,
)
    requires fit { IsOf table.now.table.shared.table_id pass.old }
    requires place { IsElemAt table.now.site.layout at }
    requires other { IsElemAt table.now.site.layout other }
    requires block { block < table.now.site.layout.pool }
    requires works { (sight pass.old).kind ≡ Worker }
    requires drew { HasEntry (sight pass.old).claims (claim (place_number table.now.site.layout at) (place_number table.now.site.layout other + 1) (Drawn block)) }
    requires found { HasEntry (sight pass.old).work.found (place_number table.now.site.layout at, name_code name) }
    requires mate { HasEntry (sight pass.old).work.found (place_number table.now.site.layout other, name_code partner) }
    requires apart { place_number table.now.site.layout at ≡ place_number table.now.site.layout other → ⊥ }
    requires leads { ((setup_at table.now.site).leads (name_code name) ≡ true) × ((setup_at table.now.site).mate (name_code name) ≡ name_code partner) }
    ensures stays { Stays pass.old pass.new }
    ensures same { SureOnly (sight pass.old) (sight pass.new) }
    ensures may { MayLink (setup_at table.now.site) (sight pass.new) (place_number table.now.site.layout at) (place_number table.now.site.layout other + 1) block (name_code name) }
    ensures unfound { IsUnfound (setup_at table.now.site) (sight pass.old) block }
{
    table.fill_died(pass, block);
    table.fill_name(pass, block, false, Some(name));
    table.fill_name(pass, block, true, Some(partner));
    fill_children(table, pass, block);
    let past = past_of(table.look_link(pass, at));
    table.fill_history(pass, block, false, past);
    let second = past_of(table.look_link(pass, other));
    table.fill_history(pass, block, true, second);
}
