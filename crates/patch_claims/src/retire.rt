//! A patch is retired.
ghost use Rattle.std.specs.Prelude.{◌≡◌, ℕ, Bool, List, ◌<◌, ◌≤◌, ◌+◌, ◌∷◌, ◌++◌, IfErr, IfOk, IfSome, length, vec_capacity, true, false, []};
ghost use Rattle.compat_check.specs.Meshes.{across_in, shape_of};
ghost use Rattle.mesh_names.specs.Patches.{patch_of};
ghost use Rattle.mesh_names.specs.Triangles.{level, size};
ghost use Rattle.table_words.specs.Entries.{HasEntry};
ghost use Rattle.table_words.specs.Layout.{IsElemAt};
ghost use Rattle.table_words.specs.NameWords.{name_code, name_word};
ghost use Rattle.table_words.specs.Places.{child_place, place_number};
ghost use Rattle.mesh_table.specs.Saw.{Saw, SawDied};
ghost use Rattle.mesh_table.specs.SecondHalf.{IsOld, MayRetire, WorksLate};
ghost use Rattle.mesh_table.specs.Sights.{setup_at};
ghost use Rattle.mesh_table.specs.Told.{IsOf, Stays, sight};
ghost use Rattle.patch_walk.specs.Finished.{Has, NothingRetired, StillKnows};
ghost use Rattle.patch_claims.specs.Retired.{AreRetired, ChildrenOld, IsDeeper, IsDeeperIn, IsInner, IsListOld, IsListWhole, IsRetired, IsUndead};

use mesh_io::{Gate, GatePoint};
use mesh_names::name::ElemName;
use mesh_names::patch::PatchName;
use mesh_table::rule::MeshSeat;
use mesh_table::table::MeshTable;
use patch_walk::finished::{stand_finished, visit_finished};
use table_words::layout::ElemAt;

/// Why a patch was not retired.
#[derive(Clone, Copy, Debug)]
pub enum RetireRefusal {
    /// A child of a member is bisected by this block, which was not retired by then.
    Deeper { block: u32 },
}

// Loads DIED of the block by which the last finished round bisects a name.
fn look_word(table: &MeshTable, pass: &mut MeshSeat, name: ElemName, block: u32) -> u64
    requires fit { IsOf table.now.table.shared.table_id pass.old }
    requires works { WorksLate (sight pass.old) }
    requires block { block < table.now.site.layout.pool }
    requires had { HasEntry (sight pass.old).work.had (block, name_code name) }
    ensures stays { Stays pass.old pass.new }
    ensures keeps { StillKnows (sight pass.old) (sight pass.new) }
    ensures idle { NothingRetired (sight pass.old) (sight pass.new) }
    ensures saw { (sight pass.new).saw ≡ SawDied block result ∷ (sight pass.old).saw }
    ensures open_ { (result ≡ 0 → ⊥) → HasEntry (sight pass.new).work.open_ (name_code name) }
    ensures target { HasEntry (sight pass.old).work.plan.target (name_code name) }
    ensures undead { result ≡ 0 → HasEntry (sight pass.old).work.open_ (name_code name) → ⊥ }
{
    table.look_dying(pass, name, block)
}

// Looks whether the element at a place is bisected.
fn open_at(
    table: &MeshTable,
    pass: &mut MeshSeat,
    at: ElemAt,
    name: ElemName,
    round: u32,
) -> Result<(), RetireRefusal>
    requires fit { IsOf table.now.table.shared.table_id pass.old }
    requires works { WorksLate (sight pass.old) }
    requires round { (sight pass.old).work.round ≡ round }
    requires place { IsElemAt table.now.site.layout at }
    requires stood { HasEntry (sight pass.old).work.stood (place_number table.now.site.layout at, name_code name) }
    requires old { HasEntry (sight pass.old).work.plan.target (name_code name) → IsOld (sight pass.old) (name_code name) }
    ensures stays { Stays pass.old pass.new }
    ensures keeps { StillKnows (sight pass.old) (sight pass.new) }
    ensures idle { NothingRetired (sight pass.old) (sight pass.new) }
    ensures saw { (news : List Saw) × ((sight pass.new).saw ≡ news ++ (sight pass.old).saw) }
    ensures open_ { IfOk result (λ _. HasEntry (sight pass.new).work.open_ (name_code name)) }
    ensures deeper { IfErr result (IsUndead (sight pass.old) (sight pass.new) (name_code name)) }
{
    match visit_finished(table, pass, at, name, round) {
        None => {
            table.look_told(pass);
            table.look_leaf(pass, at, name);
            Ok(())
        }
        Some((block, _)) => {
            let word = look_word(table, pass, name, block);
            if word == 0 {
                return Err(RetireRefusal::Deeper { block });
            }
            Ok(())
        }
    }
}

// Looks whether one child is bisected.
fn open_child(
    table: &MeshTable,
    pass: &mut MeshSeat,
    name: ElemName,
    block: u32,
    second: bool,
    side: bool,
    round: u32,
) -> Result<(), RetireRefusal>
    requires fit { IsOf table.now.table.shared.table_id pass.old }
    requires works { WorksLate (sight pass.old) }
    requires round { (sight pass.old).work.round ≡ round }
    requires block { block < table.now.site.layout.pool }
    requires root { name.0 < size (shape_of table.now.site.mesh.now) }
    requires level { level (shape_of table.now.site.mesh.now) name < 24 }
    requires stood { HasEntry (sight pass.old).work.stood (child_place table.now.site.layout.elements block second side, (setup_at table.now.site).child (name_code name) side) }
    requires old { ChildrenOld (setup_at table.now.site) (sight pass.old) (name_code name) }
    ensures stays { Stays pass.old pass.new }
    ensures keeps { StillKnows (sight pass.old) (sight pass.new) }
    ensures idle { NothingRetired (sight pass.old) (sight pass.new) }
    ensures saw { (news : List Saw) × ((sight pass.new).saw ≡ news ++ (sight pass.old).saw) }
    ensures open_ { IfOk result (λ _. HasEntry (sight pass.new).work.open_ ((setup_at table.now.site).child (name_code name) side)) }
    ensures deeper { IfErr result (IsUndead (sight pass.old) (sight pass.new) ((setup_at table.now.site).child (name_code name) side)) }
{
    let at = ElemAt::Child {
        block,
        child: 2 * (second as u8) + side as u8,
    };
    open_at(table, pass, at, name.child_at(side), round)
}

// Looks whether a child of a name is bisected.
fn open_children(
    table: &MeshTable,
    pass: &mut MeshSeat,
    name: ElemName,
    block: u32,
    second: bool,
    round: u32,
) -> Result<(), RetireRefusal>
    requires fit { IsOf table.now.table.shared.table_id pass.old }
    requires works { WorksLate (sight pass.old) }
    requires round { (sight pass.old).work.round ≡ round }
    requires block { block < table.now.site.layout.pool }
    requires root { name.0 < size (shape_of table.now.site.mesh.now) }
    requires level { level (shape_of table.now.site.mesh.now) name < 24 }
    requires stood { (u : Bool) → HasEntry (sight pass.old).work.stood (child_place table.now.site.layout.elements block second u, (setup_at table.now.site).child (name_code name) u) }
    requires old { ChildrenOld (setup_at table.now.site) (sight pass.old) (name_code name) }
    ensures stays { Stays pass.old pass.new }
    ensures keeps { StillKnows (sight pass.old) (sight pass.new) }
    ensures idle { NothingRetired (sight pass.old) (sight pass.new) }
    ensures saw { (news : List Saw) × ((sight pass.new).saw ≡ news ++ (sight pass.old).saw) }
    ensures open_ { IfOk result (λ _. (c : Bool) → HasEntry (sight pass.new).work.open_ ((setup_at table.now.site).child (name_code name) c)) }
    ensures deeper { IfErr result (IsDeeperIn (setup_at table.now.site) (sight pass.old) (sight pass.new) (name_code name)) }
{
    match open_child(table, pass, name, block, second, false, round) {
        Err(refusal) => return Err(refusal),
        Ok(()) => {}
    }
    match open_child(table, pass, name, block, second, true, round) {
        Err(refusal) => Err(refusal),
        Ok(()) => Ok(()),
    }
}

// Looks whether a child of a patch's members is bisected.
fn open_patch(
    table: &MeshTable,
    pass: &mut MeshSeat,
    first: ElemName,
    second: Option<ElemName>,
    block: u32,
    side: bool,
    round: u32,
) -> Result<(), RetireRefusal>
    requires fit { IsOf table.now.table.shared.table_id pass.old }
    requires works { WorksLate (sight pass.old) }
    requires round { (sight pass.old).work.round ≡ round }
    requires block { block < table.now.site.layout.pool }
    requires first { IsInner (shape_of table.now.site.mesh.now) first }
    requires second { IfSome second (IsInner (shape_of table.now.site.mesh.now)) }
    requires leads { (setup_at table.now.site).leads (name_code first) ≡ true }
    requires mate { (setup_at table.now.site).mate (name_code first) ≡ name_word second }
    requires has { Has (setup_at table.now.site) (sight pass.old) (name_code first) block side }
    requires old { ChildrenOld (setup_at table.now.site) (sight pass.old) (name_code first) × IfSome second (λ m. ChildrenOld (setup_at table.now.site) (sight pass.old) (name_code m)) }
    ensures stays { Stays pass.old pass.new }
    ensures keeps { StillKnows (sight pass.old) (sight pass.new) }
    ensures idle { NothingRetired (sight pass.old) (sight pass.new) }
    ensures saw { (news : List Saw) × ((sight pass.new).saw ≡ news ++ (sight pass.old).saw) }
    ensures first { IfOk result (λ _. (c : Bool) → HasEntry (sight pass.new).work.open_ ((setup_at table.now.site).child (name_code first) c)) }
    ensures second { IfOk result (λ _. (i : ℕ) → (setup_at table.now.site).mate (name_code first) ≡ i + 1 → (c : Bool) → HasEntry (sight pass.new).work.open_ ((setup_at table.now.site).child (i + 1) c)) }
    ensures deeper { IfErr result (IsDeeper (setup_at table.now.site) (sight pass.old) (sight pass.new) (name_code first)) }
{
    match open_children(table, pass, first, block, side, round) {
        Err(refusal) => return Err(refusal),
        Ok(()) => {}
    }
    let Some(other) = second else { return Ok(()) };
    table.look_mate(pass, first, block);
    match open_children(table, pass, other, block, true, round) {
        Err(refusal) => Err(refusal),
        Ok(()) => Ok(()),
    }
}

// Lists a block if it was retired.
fn list_if(retired: &mut Vec<u32>, block: u32, done: bool)
    requires room { length retired.old.items < vec_capacity retired.old }
    ensures more { done ≡ true → retired.new.items ≡ retired.old.items ++ block ∷ [] }
    ensures same { done ≡ false → retired.new.items ≡ retired.old.items }
    ensures count { length retired.new.items ≤ length retired.old.items + 1 }
    ensures capacity { vec_capacity retired.new ≡ vec_capacity retired.old }
{
    if done {
        retired.push_reserved(block);
    }
}

// Writes the round into DIED of a patch's block, and lists the block where this call retired it.
fn retire_found<G: Gate>(
    table: &MeshTable,
    pass: &mut MeshSeat,
    retired: &mut Vec<u32>,
    first: ElemName,
    block: u32,
    round: u32,
    gate: &G,
    number: u32,
) -> bool
    requires fit { IsOf table.now.table.shared.table_id pass.old }
    requires round { ((sight pass.old).work.round ≡ round) × (0 < round) }
    requires block { block < table.now.site.layout.pool }
    requires may { MayRetire (setup_at table.now.site) (sight pass.old) block (name_code first) }
    requires room { length retired.old.items < vec_capacity retired.old }
    requires listed { AreRetired (sight pass.old) retired.old.items }
    ensures stays { Stays pass.old pass.new }
    ensures keeps { StillKnows (sight pass.old) (sight pass.new) }
    ensures retired { IsRetired (setup_at table.now.site) (sight pass.old) (sight pass.new) (name_code first) result }
    ensures listed { AreRetired (sight pass.new) retired.new.items }
    ensures count { length retired.new.items ≤ length retired.old.items + 1 }
    ensures capacity { vec_capacity retired.new ≡ vec_capacity retired.old }
{
    let old = table.retire_block(pass, first, block, round);
    gate.at(GatePoint::Retired, number);
    list_if(retired, block, old == 0);
    old == 0
}

/// Retires a patch of the retire list: true where this call did it. Then it is retired, and its members are known as not bisected. Where a child of a member is still bisected, it retires nothing and names the block, which is that of a patch of the list; that never happens where each child of the target was known as not bisected. The blocks that it retires come to the end of the list, which takes no memory. It never waits.
pub fn retire<G: Gate>(
    table: &MeshTable,
    pass: &mut MeshSeat,
    retired: &mut Vec<u32>,
    patch: PatchName,
    round: u32,
    gate: &G,
    number: u32,
) -> Result<bool, RetireRefusal>
    requires fit { IsOf table.now.table.shared.table_id pass.old }
    requires works { WorksLate (sight pass.old) }
    requires round { ((sight pass.old).work.round ≡ round) × (0 < round) }
    requires inner { IsInner (shape_of table.now.site.mesh.now) patch.first }
    requires patch { patch_of (across_in table.now.site.mesh.now) patch.first ≡ patch }
    requires aimed { HasEntry (sight pass.old).work.plan.retire (name_code patch.first) }
    requires old { IsListOld (setup_at table.now.site) (sight pass.old) }
    requires whole { IsListWhole (setup_at table.now.site) (sight pass.old) }
    requires room { length retired.old.items < vec_capacity retired.old }
    requires listed { AreRetired (sight pass.old) retired.old.items }
    ensures stays { Stays pass.old pass.new }
    ensures keeps { StillKnows (sight pass.old) (sight pass.new) }
    ensures retired { IfOk result (IsRetired (setup_at table.now.site) (sight pass.old) (sight pass.new) (name_code patch.first)) }
    ensures deeper { IfErr result (λ e. IsDeeper (setup_at table.now.site) (sight pass.old) (sight pass.new) (name_code patch.first) e × NothingRetired (sight pass.old) (sight pass.new)) }
    ensures listed { AreRetired (sight pass.new) retired.new.items }
    ensures count { length retired.new.items ≤ length retired.old.items + 1 }
    ensures capacity { vec_capacity retired.new ≡ vec_capacity retired.old }
{
    let _count = table.mesh().element_count();
    let PatchName { first, second } = patch;
    let Some(at) = stand_finished(table, pass, first, round) else {
        table.look_told(pass);
        return Ok(false);
    };
    let Some((block, side)) = visit_finished(table, pass, at, first, round) else {
        table.look_told(pass);
        return Ok(false);
    };
    match open_patch(table, pass, first, second, block, side, round) {
        Err(refusal) => return Err(refusal),
        Ok(()) => {}
    }
    let done = retire_found(table, pass, retired, first, block, round, gate, number);
    Ok(done)
}
