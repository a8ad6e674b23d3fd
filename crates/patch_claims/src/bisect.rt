//! The bisection of a patch, from its claim to its publication.
ghost use Rattle.std.specs.Prelude.{◌≡◌, ℕ, ◌+◌, ◌*◌, ◌<◌, ◌≤◌, ◌∷◌, [], IfErr, IfOk, true};
ghost use Rattle.table_words.specs.Claims.{Claimed, Drawn, Failed, Half, Living, Whole, claim, moved_on};
ghost use Rattle.table_words.specs.Entries.{HasEntry};
ghost use Rattle.table_words.specs.Layout.{IsElemAt};
ghost use Rattle.table_words.specs.NameWords.{name_code};
ghost use Rattle.table_words.specs.Places.{place_number};
ghost use Rattle.table_words.specs.Views.{Worker};
ghost use Rattle.mesh_table.specs.Saw.{SawBirth, SawClaim, SawDraw, SawFree};
ghost use Rattle.mesh_table.specs.Sights.{setup_at};
ghost use Rattle.mesh_table.specs.Told.{IsOf, MayClaim, MayFill, MayLink, Stays, codes, mate_number, noted_children, sight};
ghost use Rattle.mesh_table.specs.Lost.{AllLiving};
ghost use Rattle.patch_claims.specs.Claims.{AllLivingBut};
ghost use Rattle.patch_walk.specs.Works.{Works};
ghost use Rattle.patch_claims.specs.Kept.{SameWork, SureOnly};
ghost use Rattle.patch_claims.specs.Ends.{Ends, IsUnfound};

use crate::draws::draw_block;
use crate::fills::{fill_alone, fill_pair};
use mesh_io::{Gate, GatePoint};
use mesh_names::name::ElemName;
use mesh_table::rule::MeshSeat;
use mesh_table::table::MeshTable;
use table_words::layout::ElemAt;

/// How the bisection of a patch ends.
#[derive(Clone, Copy, Debug)]
pub enum Bisected {
    /// The claim bit was set in this word: the patch is claimed.
    Claimed(u64),
    /// The claim's draw found this number, which is not below the number of free blocks.
    Full { drawn: u64, free: u64 },
    /// It is published as this block.
    Published(u32),
}

// From a drawn block to publication, of a patch of one member.
fn finish_alone(
    table: &MeshTable,
    pass: &mut MeshSeat,
    at: ElemAt,
    name: ElemName,
    block: u32,
    round: u32,
)
    requires fit { IsOf table.now.table.shared.table_id pass.old }
    requires place { IsElemAt table.now.site.layout at }
    requires block { block < table.now.site.layout.pool }
    requires works { (sight pass.old).kind ≡ Worker }
    requires round { (sight pass.old).work.round ≡ round }
    requires drew { HasEntry (sight pass.old).claims (claim (place_number table.now.site.layout at) 0 (Drawn block)) }
    requires found { HasEntry (sight pass.old).work.found (place_number table.now.site.layout at, name_code name) }
    requires leads { ((setup_at table.now.site).leads (name_code name) ≡ true) × ((setup_at table.now.site).mate (name_code name) ≡ 0) }
    ensures stays { Stays pass.old pass.new }
    ensures works { Works (sight pass.old) (sight pass.new) }
    ensures lives { HasEntry (sight pass.new).claims (claim (place_number table.now.site.layout at) 0 (Living block)) }
    ensures others { AllLivingBut (place_number table.now.site.layout at) (sight pass.old).claims → AllLiving (sight pass.new).claims }
    ensures moved { (sight pass.new).claims ≡ moved_on (sight pass.old).claims (place_number table.now.site.layout at) (Living block) }
    ensures unfound { IsUnfound (setup_at table.now.site) (sight pass.old) block }
    ensures known { (k : ℕ) → HasEntry (name_code name ∷ []) k → HasEntry (sight pass.new).work.known k }
    ensures saw { (sight pass.new).saw ≡ SawBirth block ∷ (sight pass.old).saw }
{
    fill_alone(table, pass, at, name, block);
    table.link_first(pass, at, None, name, block);
    table.publish(pass, at, None, name, None, block, round);
}

// And of a patch of two.
fn finish_pair(
    table: &MeshTable,
    pass: &mut MeshSeat,
    at: ElemAt,
    other: ElemAt,
    name: ElemName,
    partner: ElemName,
    block: u32,
    round: u32,
)
    requires fit { IsOf table.now.table.shared.table_id pass.old }
    requires place { IsElemAt table.now.site.layout at }
    requires other { IsElemAt table.now.site.layout other }
    requires block { block < table.now.site.layout.pool }
    requires works { (sight pass.old).kind ≡ Worker }
    requires round { (sight pass.old).work.round ≡ round }
    requires drew { HasEntry (sight pass.old).claims (claim (place_number table.now.site.layout at) (place_number table.now.site.layout other + 1) (Drawn block)) }
    requires found { HasEntry (sight pass.old).work.found (place_number table.now.site.layout at, name_code name) }
    requires mate { HasEntry (sight pass.old).work.found (place_number table.now.site.layout other, name_code partner) }
    requires apart { place_number table.now.site.layout at ≡ place_number table.now.site.layout other → ⊥ }
    requires leads { ((setup_at table.now.site).leads (name_code name) ≡ true) × ((setup_at table.now.site).mate (name_code name) ≡ name_code partner) }
    ensures stays { Stays pass.old pass.new }
    ensures works { Works (sight pass.old) (sight pass.new) }
    ensures lives { HasEntry (sight pass.new).claims (claim (place_number table.now.site.layout at) (place_number table.now.site.layout other + 1) (Living block)) }
    ensures others { AllLivingBut (place_number table.now.site.layout at) (sight pass.old).claims → AllLiving (sight pass.new).claims }
    ensures moved { (sight pass.new).claims ≡ moved_on (sight pass.old).claims (place_number table.now.site.layout at) (Living block) }
    ensures unfound { IsUnfound (setup_at table.now.site) (sight pass.old) block }
    ensures known { (k : ℕ) → HasEntry (name_code name ∷ name_code partner ∷ []) k → HasEntry (sight pass.new).work.known k }
    ensures saw { (sight pass.new).saw ≡ SawBirth block ∷ (sight pass.old).saw }
{
    fill_pair(table, pass, at, other, name, partner, block);
    table.link_first(pass, at, Some(other), name, block);
    table.link_second(pass, at, other, block);
    table.publish(pass, at, Some(other), name, Some(partner), block, round);
}

/// Bisects an element that is its patch's one member.
pub fn bisect_alone<G: Gate>(
    table: &MeshTable,
    pass: &mut MeshSeat,
    at: ElemAt,
    name: ElemName,
    round: u32,
    gate: &G,
    number: u32,
) -> Bisected
    requires fit { IsOf table.now.table.shared.table_id pass.old }
    requires place { IsElemAt table.now.site.layout at }
    requires may { MayClaim (setup_at table.now.site) (sight pass.old) (place_number table.now.site.layout at) 0 (name_code name) }
    requires round { (sight pass.old).work.round ≡ round }
    ensures stays { Stays pass.old pass.new }
    ensures works { Works (sight pass.old) (sight pass.new) }
    ensures ends { Ends (setup_at table.now.site) (sight pass.old) (sight pass.new) (place_number table.now.site.layout at) 0 (name_code name) table.now.site.layout.pool (name_code name ∷ []) result }
{
    let word = table.claim(pass, at, None, name);
    if word % 2 == 1 {
        return Bisected::Claimed(word);
    }
    gate.at(GatePoint::Claimed, number);
    match draw_block(table, pass, at, None) {
        Err((drawn, free)) => Bisected::Full { drawn, free },
        Ok(block) => {
            finish_alone(table, pass, at, name, block, round);
            gate.at(GatePoint::Published, number);
            Bisected::Published(block)
        }
    }
}

/// Bisects the two elements of a patch, of which the first owns it.
pub fn bisect_pair<G: Gate>(
    table: &MeshTable,
    pass: &mut MeshSeat,
    at: ElemAt,
    other: ElemAt,
    name: ElemName,
    partner: ElemName,
    round: u32,
    gate: &G,
    number: u32,
) -> Bisected
    requires fit { IsOf table.now.table.shared.table_id pass.old }
    requires place { IsElemAt table.now.site.layout at }
    requires other { IsElemAt table.now.site.layout other }
    requires may { MayClaim (setup_at table.now.site) (sight pass.old) (place_number table.now.site.layout at) (place_number table.now.site.layout other + 1) (name_code name) }
    requires mate { HasEntry (sight pass.old).work.found (place_number table.now.site.layout other, name_code partner) }
    requires second { (setup_at table.now.site).mate (name_code name) ≡ name_code partner }
    requires two { name_code name ≡ name_code partner → ⊥ }
    requires round { (sight pass.old).work.round ≡ round }
    ensures stays { Stays pass.old pass.new }
    ensures works { Works (sight pass.old) (sight pass.new) }
    ensures ends { Ends (setup_at table.now.site) (sight pass.old) (sight pass.new) (place_number table.now.site.layout at) (place_number table.now.site.layout other + 1) (name_code name) table.now.site.layout.pool (name_code name ∷ name_code partner ∷ []) result }
{
    let word = table.claim(pass, at, Some(other), name);
    if word % 2 == 1 {
        return Bisected::Claimed(word);
    }
    gate.at(GatePoint::Claimed, number);
    match draw_block(table, pass, at, Some(other)) {
        Err((drawn, free)) => Bisected::Full { drawn, free },
        Ok(block) => {
            finish_pair(table, pass, at, other, name, partner, block, round);
            gate.at(GatePoint::Published, number);
            Bisected::Published(block)
        }
    }
}
