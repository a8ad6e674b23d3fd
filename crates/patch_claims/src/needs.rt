//! A name is made bisected, with all that is above it.
ghost use Rattle.std.specs.Prelude.{◌≡◌, ℕ, ◌+◌, ◌^◌, ◌<◌, ◌≤◌, ◌⊎◌, ◌∷◌, ◌++◌, Bool, List, Some, None, option_map, true, false, [], IfErr, IfOk, length, vec_capacity};
ghost use Rattle.compat_check.specs.Meshes.{shape_of, across_in};
ghost use Rattle.mesh_names.specs.Chains.{chain_of};
ghost use Rattle.mesh_names.specs.Forests.{Has};
ghost use Rattle.mesh_names.specs.Names.{Name};
ghost use Rattle.mesh_names.specs.Partners.{partner as partner_in};
ghost use Rattle.mesh_names.specs.Patches.{patch_of};
ghost use Rattle.mesh_names.specs.Triangles.{level, size};
ghost use Rattle.table_words.specs.Entries.{HasEntry};
ghost use Rattle.table_words.specs.Layout.{IsElemAt};
ghost use Rattle.table_words.specs.NameWords.{name_code};
ghost use Rattle.table_words.specs.Places.{place_number};
ghost use Rattle.table_words.specs.Views.{FirstHalf, Worker};
ghost use Rattle.table_state.specs.Lists.{IsClosed};
ghost use Rattle.mesh_table.specs.Sights.{setup_at};
ghost use Rattle.mesh_table.specs.Told.{IsOf, MayClaim, Stays, sight};
ghost use Rattle.mesh_table.specs.Lost.{AllLiving};
ghost use Rattle.patch_claims.specs.Listed.{AreKept, AreListed, IsUnclaimed, failed_by};
ghost use Rattle.patch_claims.specs.Needs.{IsMade, IsStood, Refused};
ghost use Rattle.patch_walk.specs.Works.{Works};

use crate::bisect::{Bisected, bisect_alone, bisect_pair};
use crate::descents::descend;
use crate::patch::{Patch, Spot, keep};
use mesh_io::Gate;
use mesh_names::name::ElemName;
use mesh_names::patch::PatchName;
use mesh_table::rule::MeshSeat;
use mesh_table::table::MeshTable;
use patch_walk::visits::visit;
use table_words::layout::ElemAt;

/// Why a name was not made bisected.
#[derive(Clone, Copy, Debug)]
pub enum ClaimRefusal {
    /// The patch of this owner, which the name needs, is claimed, and no living block shows: this was its LINK word.
    Deferred { owner: ElemName, old_word: u64 },
    /// A draw found this number, which is not below the number of free blocks. It was for the claim of the patch at these places.
    Full { drawn: u64, free: u64, spot: Spot },
}

/// By which block, and as which member, a name is bisected, and how many blocks were published for it.
#[derive(Clone, Copy, Debug)]
pub struct Made {
    pub block: u32,
    pub second: bool,
    pub patches: u32,
}

/// Where an element stands, and how many blocks were published for it.
#[derive(Clone, Copy, Debug)]
pub struct Stood {
    pub at: ElemAt,
    pub patches: u32,
}

/// Bisects an element that has no partner, or finds it bisected by then. A patch that it publishes comes to the end of the list.
pub fn take_alone<G: Gate>(
    table: &MeshTable,
    pass: &mut MeshSeat,
    published: &mut Vec<Patch>,
    at: ElemAt,
    name: ElemName,
    round: u32,
    gate: &G,
    number: u32,
) -> Result<Made, ClaimRefusal>
    requires fit { IsOf table.now.table.shared.table_id pass.old }
    requires place { IsElemAt table.now.site.layout at }
    requires may { MayClaim (setup_at table.now.site) (sight pass.old) (place_number table.now.site.layout at) 0 (name_code name) }
    requires half { (sight pass.old).work.half ≡ FirstHalf }
    requires round { (sight pass.old).work.round ≡ round }
    requires living { AllLiving (sight pass.old).claims }
    requires listed { AreListed table.now.site (sight pass.old) (sight pass.old).claims published.old.items }
    requires room { table.now.site.layout.pool ≤ vec_capacity published.old }
    requires owner { (patch_of (across_in table.now.site.mesh.now) name).first ≡ name }
    requires unclaimed { IsUnclaimed (setup_at table.now.site) (sight pass.old) (name_code name) }
    ensures stays { Stays pass.old pass.new }
    ensures works { Works (sight pass.old) (sight pass.new) }
    ensures made { IfOk result (λ r. IsMade (setup_at table.now.site) (sight pass.old) (sight pass.new) (name_code name) r × (r.patches ≤ 1)) }
    ensures refused { IfErr result (Refused (across_in table.now.site.mesh.now) (λ m. m ≡ name) (sight pass.old) (sight pass.new)) }
    ensures listed { IfOk result (λ r. AreListed table.now.site (sight pass.new) (sight pass.new).claims published.new.items) }
    ensures kept { IfErr result (λ e. AreKept table.now.site (sight pass.new) published.new.items (failed_by e)) }
    ensures capacity { vec_capacity published.new ≡ vec_capacity published.old }
{
    match bisect_alone(table, pass, at, name, round, gate, number) {
        Bisected::Claimed(old_word) => match visit(table, pass, at, name, round) {
            Some((block, second)) => Ok(Made {
                block,
                second,
                patches: 0,
            }),
            None => Err(ClaimRefusal::Deferred {
                owner: name,
                old_word,
            }),
        },
        Bisected::Full { drawn, free } => Err(ClaimRefusal::Full {
            drawn,
            free,
            spot: Spot {
                first: at,
                second: None,
            },
        }),
        Bisected::Published(block) => {
            table.walk_own(pass, at, None, at, name, block, false);
            let alone = PatchName {
                first: name,
                second: None,
            };
            keep(published, block, at, None, alone);
            Ok(Made {
                block,
                second: false,
                patches: 1,
            })
        }
    }
}

/// Bisects a patch of two elements for one of them, or finds this bisected by then. A patch that it publishes comes to the end of the list.
pub fn take_pair<G: Gate>(
    table: &MeshTable,
    pass: &mut MeshSeat,
    published: &mut Vec<Patch>,
    first: ElemAt,
    second: ElemAt,
    owner: ElemName,
    partner: ElemName,
    at: ElemAt,
    name: ElemName,
    side: bool,
    round: u32,
    gate: &G,
    number: u32,
) -> Result<Made, ClaimRefusal>
    requires fit { IsOf table.now.table.shared.table_id pass.old }
    requires first { IsElemAt table.now.site.layout first }
    requires second { IsElemAt table.now.site.layout second }
    requires may { MayClaim (setup_at table.now.site) (sight pass.old) (place_number table.now.site.layout first) (place_number table.now.site.layout second + 1) (name_code owner) }
    requires mate { HasEntry (sight pass.old).work.found (place_number table.now.site.layout second, name_code partner) }
    requires seconds { (setup_at table.now.site).mate (name_code owner) ≡ name_code partner }
    requires two { name_code owner ≡ name_code partner → ⊥ }
    requires half { (sight pass.old).work.half ≡ FirstHalf }
    requires round { (sight pass.old).work.round ≡ round }
    requires living { AllLiving (sight pass.old).claims }
    requires listed { AreListed table.now.site (sight pass.old) (sight pass.old).claims published.old.items }
    requires room { table.now.site.layout.pool ≤ vec_capacity published.old }
    requires owner { (patch_of (across_in table.now.site.mesh.now) name).first ≡ owner }
    requires unclaimed { IsUnclaimed (setup_at table.now.site) (sight pass.old) (name_code name) }
    requires which { ((side ≡ false) × (name ≡ owner)) ⊎ ((side ≡ true) × (name ≡ partner)) }
    requires place { IsElemAt table.now.site.layout at }
    requires found { HasEntry (sight pass.old).work.found (place_number table.now.site.layout at, name_code name) }
    requires member { ((side ≡ false) × (place_number table.now.site.layout at ≡ place_number table.now.site.layout first)) ⊎ ((side ≡ true) × (place_number table.now.site.layout second + 1 ≡ place_number table.now.site.layout at + 1)) }
    ensures stays { Stays pass.old pass.new }
    ensures works { Works (sight pass.old) (sight pass.new) }
    ensures made { IfOk result (λ r. IsMade (setup_at table.now.site) (sight pass.old) (sight pass.new) (name_code name) r × (r.patches ≤ 1)) }
    ensures refused { IfErr result (Refused (across_in table.now.site.mesh.now) (λ m. m ≡ name) (sight pass.old) (sight pass.new)) }
    ensures listed { IfOk result (λ r. AreListed table.now.site (sight pass.new) (sight pass.new).claims published.new.items) }
    ensures kept { IfErr result (λ e. AreKept table.now.site (sight pass.new) published.new.items (failed_by e)) }
    ensures capacity { vec_capacity published.new ≡ vec_capacity published.old }
{
    match bisect_pair(
        table, pass, first, second, owner, partner, round, gate, number,
    ) {
        Bisected::Claimed(old_word) => match visit(table, pass, at, name, round) {
            Some((block, second)) => Ok(Made {
                block,
                second,
                patches: 0,
            }),
            None => Err(ClaimRefusal::Deferred { owner, old_word }),
        },
        Bisected::Full { drawn, free } => Err(ClaimRefusal::Full {
            drawn,
            free,
            spot: Spot {
                first,
                second: Some(second),
            },
        }),
        Bisected::Published(block) => {
            table.walk_own(pass, first, Some(second), at, name, block, side);
            let pair = PatchName {
                first: owner,
                second: Some(partner),
            };
            keep(published, block, first, Some(second), pair);
            Ok(Made {
                block,
                second: side,
                patches: 1,
            })
        }
    }
}

/// Finds the place of a name, after all above it was made bisected.
#[cycle(needs)]
pub fn stand<G: Gate>(
    table: &MeshTable,
    pass: &mut MeshSeat,
    published: &mut Vec<Patch>,
    name: ElemName,
    round: u32,
    gate: &G,
    number: u32,
) -> Result<Stood, ClaimRefusal>
    requires fit { IsOf table.now.table.shared.table_id pass.old }
    requires works { (sight pass.old).kind ≡ Worker }
    requires half { (sight pass.old).work.half ≡ FirstHalf }
    requires round { (sight pass.old).work.round ≡ round }
    requires root { name.0 < size (shape_of table.now.site.mesh.now) }
    requires level { level (shape_of table.now.site.mesh.now) name < 24 }
    requires aimed { HasEntry (sight pass.old).work.plan.target (name_code name) }
    requires closed { IsClosed (setup_at table.now.site) (HasEntry (sight pass.old).work.plan.target) }
    requires living { AllLiving (sight pass.old).claims }
    requires listed { AreListed table.now.site (sight pass.old) (sight pass.old).claims published.old.items }
    requires room { table.now.site.layout.pool ≤ vec_capacity published.old }
    ensures stays { Stays pass.old pass.new }
    ensures works { Works (sight pass.old) (sight pass.new) }
    ensures stood { IfOk result (λ r. IsStood table.now.site.layout (sight pass.old) (sight pass.new) (name_code name) r × (r.patches < 2 ^ level (shape_of table.now.site.mesh.now) name)) }
    ensures refused { IfErr result (Refused (across_in table.now.site.mesh.now) (λ m. (b : Bool) × (w : List Bool) × (name.1 ≡ b ∷ w) × Has (chain_of (shape_of table.now.site.mesh.now) (across_in table.now.site.mesh.now) (name.0, w)) m) (sight pass.old) (sight pass.new)) }
    ensures listed { IfOk result (λ r. AreListed table.now.site (sight pass.new) (sight pass.new).claims published.new.items) }
    ensures kept { IfErr result (λ e. AreKept table.now.site (sight pass.new) published.new.items (failed_by e)) }
    ensures capacity { vec_capacity published.new ≡ vec_capacity published.old }
{
    if let Some(at) = descend(table, pass, name, round) {
        return Ok(Stood { at, patches: 0 });
    }
    match stand_above(table, pass, published, name, round, gate, number) {
        Err(refusal) => Err(refusal),
        Ok(stood) => Ok(stood),
    }
}

// Makes all above a name bisected, from its parent on, and finds its place.
#[cycle(needs)]
fn stand_above<G: Gate>(
    table: &MeshTable,
    pass: &mut MeshSeat,
    published: &mut Vec<Patch>,
    name: ElemName,
    round: u32,
    gate: &G,
    number: u32,
) -> Result<Stood, ClaimRefusal>
    requires fit { IsOf table.now.table.shared.table_id pass.old }
    requires works { (sight pass.old).kind ≡ Worker }
    requires half { (sight pass.old).work.half ≡ FirstHalf }
    requires round { (sight pass.old).work.round ≡ round }
    requires root { name.0 < size (shape_of table.now.site.mesh.now) }
    requires level { level (shape_of table.now.site.mesh.now) name < 24 }
    requires aimed { HasEntry (sight pass.old).work.plan.target (name_code name) }
    requires closed { IsClosed (setup_at table.now.site) (HasEntry (sight pass.old).work.plan.target) }
    requires living { AllLiving (sight pass.old).claims }
    requires listed { AreListed table.now.site (sight pass.old) (sight pass.old).claims published.old.items }
    requires room { table.now.site.layout.pool ≤ vec_capacity published.old }
    ensures stays { Stays pass.old pass.new }
    ensures works { Works (sight pass.old) (sight pass.new) }
    ensures stood { IfOk result (λ r. IsStood table.now.site.layout (sight pass.old) (sight pass.new) (name_code name) r × (r.patches < 2 ^ level (shape_of table.now.site.mesh.now) name)) }
    ensures refused { IfErr result (Refused (across_in table.now.site.mesh.now) (λ m. (b : Bool) × (w : List Bool) × (name.1 ≡ b ∷ w) × Has (chain_of (shape_of table.now.site.mesh.now) (across_in table.now.site.mesh.now) (name.0, w)) m) (sight pass.old) (sight pass.new)) }
    ensures listed { IfOk result (λ r. AreListed table.now.site (sight pass.new) (sight pass.new).claims published.new.items) }
    ensures kept { IfErr result (λ e. AreKept table.now.site (sight pass.new) published.new.items (failed_by e)) }
    ensures capacity { vec_capacity published.new ≡ vec_capacity published.old }
{
    match name.split() {
        None => {
            table.note_top(pass, name.root());
            Ok(Stood {
                at: ElemAt::Macro(name.root()),
                patches: 0,
            })
        }
        Some((parent, side)) => {
            match make_bisected(table, pass, published, parent, round, gate, number) {
                Err(refusal) => Err(refusal),
                Ok(made) => Ok(Stood {
                    at: ElemAt::Child {
                        block: made.block,
                        child: 2 * (made.second as u8) + side as u8,
                    },
                    patches: made.patches,
                }),
            }
        }
    }
}

/// Makes a name bisected, after all above it, and tells by which block.
#[cycle(needs)]
pub fn make_bisected<G: Gate>(
    table: &MeshTable,
    pass: &mut MeshSeat,
    published: &mut Vec<Patch>,
    name: ElemName,
    round: u32,
    gate: &G,
    number: u32,
) -> Result<Made, ClaimRefusal>
    requires fit { IsOf table.now.table.shared.table_id pass.old }
    requires works { (sight pass.old).kind ≡ Worker }
    requires half { (sight pass.old).work.half ≡ FirstHalf }
    requires round { (sight pass.old).work.round ≡ round }
    requires root { name.0 < size (shape_of table.now.site.mesh.now) }
    requires level { level (shape_of table.now.site.mesh.now) name < 24 }
    requires aimed { HasEntry (sight pass.old).work.plan.target (name_code name) }
    requires closed { IsClosed (setup_at table.now.site) (HasEntry (sight pass.old).work.plan.target) }
    requires living { AllLiving (sight pass.old).claims }
    requires listed { AreListed table.now.site (sight pass.old) (sight pass.old).claims published.old.items }
    requires room { table.now.site.layout.pool ≤ vec_capacity published.old }
    ensures stays { Stays pass.old pass.new }
    ensures works { Works (sight pass.old) (sight pass.new) }
    ensures made { IfOk result (λ r. IsMade (setup_at table.now.site) (sight pass.old) (sight pass.new) (name_code name) r × (r.patches < 2 ^ (level (shape_of table.now.site.mesh.now) name + 1))) }
    ensures refused { IfErr result (Refused (across_in table.now.site.mesh.now) (Has (chain_of (shape_of table.now.site.mesh.now) (across_in table.now.site.mesh.now) name)) (sight pass.old) (sight pass.new)) }
    ensures listed { IfOk result (λ r. AreListed table.now.site (sight pass.new) (sight pass.new).claims published.new.items) }
    ensures kept { IfErr result (λ e. AreKept table.now.site (sight pass.new) published.new.items (failed_by e)) }
    ensures capacity { vec_capacity published.new ≡ vec_capacity published.old }
{
    let _count = table.mesh().element_count();
    let stood = match stand(table, pass, published, name, round, gate, number) {
        Err(refusal) => return Err(refusal),
        Ok(stood) => stood,
    };
    if let Some((block, second)) = visit(table, pass, stood.at, name, round) {
        return Ok(Made {
            block,
            second,
            patches: stood.patches,
        });
    }
    let Some(other) = table.mesh().partner(name) else {
        return match take_alone(table, pass, published, stood.at, name, round, gate, number) {
            Err(refusal) => Err(refusal),
            Ok(made) => Ok(Made {
                block: made.block,
                second: made.second,
                patches: stood.patches + made.patches,
            }),
        };
    };
    let beside = match stand(table, pass, published, other, round, gate, number) {
        Err(refusal) => return Err(refusal),
        Ok(beside) => beside,
    };
    match take_beside(
        table, pass, published, stood.at, beside.at, name, other, round, gate, number,
    ) {
        Err(refusal) => Err(refusal),
        Ok(made) => Ok(Made {
            block: made.block,
            second: made.second,
            patches: stood.patches + beside.patches + made.patches,
        }),
    }
}

/// Bisects a name with its partner, unless it is bisected by then.
pub fn take_beside<G: Gate>(
    table: &MeshTable,
    pass: &mut MeshSeat,
    published: &mut Vec<Patch>,
    at: ElemAt,
    beside: ElemAt,
    name: ElemName,
    other: ElemName,
    round: u32,
    gate: &G,
    number: u32,
) -> Result<Made, ClaimRefusal>
    requires fit { IsOf table.now.table.shared.table_id pass.old }
    requires works { (sight pass.old).kind ≡ Worker }
    requires half { (sight pass.old).work.half ≡ FirstHalf }
    requires round { (sight pass.old).work.round ≡ round }
    requires root { name.0 < size (shape_of table.now.site.mesh.now) }
    requires level { level (shape_of table.now.site.mesh.now) name < 24 }
    requires partner { Some other ≡ option_map (λ m. m.0) (partner_in (across_in table.now.site.mesh.now) name.0 name.1) }
    requires aimed { HasEntry (sight pass.old).work.plan.target (name_code name) }
    requires aims { HasEntry (sight pass.old).work.plan.target (name_code other) }
    requires living { AllLiving (sight pass.old).claims }
    requires listed { AreListed table.now.site (sight pass.old) (sight pass.old).claims published.old.items }
    requires room { table.now.site.layout.pool ≤ vec_capacity published.old }
    requires at { IsElemAt table.now.site.layout at }
    requires beside { IsElemAt table.now.site.layout beside }
    requires found { HasEntry (sight pass.old).work.found (place_number table.now.site.layout at, name_code name) }
    requires mate { HasEntry (sight pass.old).work.found (place_number table.now.site.layout beside, name_code other) }
    ensures stays { Stays pass.old pass.new }
    ensures works { Works (sight pass.old) (sight pass.new) }
    ensures made { IfOk result (λ r. IsMade (setup_at table.now.site) (sight pass.old) (sight pass.new) (name_code name) r × (r.patches ≤ 1)) }
    ensures refused { IfErr result (Refused (across_in table.now.site.mesh.now) (λ m. m ≡ name) (sight pass.old) (sight pass.new)) }
    ensures listed { IfOk result (λ r. AreListed table.now.site (sight pass.new) (sight pass.new).claims published.new.items) }
    ensures kept { IfErr result (λ e. AreKept table.now.site (sight pass.new) published.new.items (failed_by e)) }
    ensures capacity { vec_capacity published.new ≡ vec_capacity published.old }
{
    if let Some((block, second)) = visit(table, pass, at, name, round) {
        return Ok(Made {
            block,
            second,
            patches: 0,
        });
    }
    match take_one(
        table, pass, published, at, beside, name, other, round, gate, number,
    ) {
        Err(refusal) => Err(refusal),
        Ok(made) => Ok(made),
    }
}

/// Bisects a name with its partner, whichever comes first.
pub fn take_one<G: Gate>(
    table: &MeshTable,
    pass: &mut MeshSeat,
    published: &mut Vec<Patch>,
    at: ElemAt,
    beside: ElemAt,
    name: ElemName,
    other: ElemName,
    round: u32,
    gate: &G,
    number: u32,
) -> Result<Made, ClaimRefusal>
    requires fit { IsOf table.now.table.shared.table_id pass.old }
    requires works { (sight pass.old).kind ≡ Worker }
    requires half { (sight pass.old).work.half ≡ FirstHalf }
    requires round { (sight pass.old).work.round ≡ round }
    requires root { name.0 < size (shape_of table.now.site.mesh.now) }
    requires level { level (shape_of table.now.site.mesh.now) name < 24 }
    requires partner { Some other ≡ option_map (λ m. m.0) (partner_in (across_in table.now.site.mesh.now) name.0 name.1) }
    requires aimed { HasEntry (sight pass.old).work.plan.target (name_code name) }
    requires aims { HasEntry (sight pass.old).work.plan.target (name_code other) }
    requires living { AllLiving (sight pass.old).claims }
    requires listed { AreListed table.now.site (sight pass.old) (sight pass.old).claims published.old.items }
    requires room { table.now.site.layout.pool ≤ vec_capacity published.old }
    requires at { IsElemAt table.now.site.layout at }
    requires beside { IsElemAt table.now.site.layout beside }
    requires found { HasEntry (sight pass.old).work.found (place_number table.now.site.layout at, name_code name) }
    requires mate { HasEntry (sight pass.old).work.found (place_number table.now.site.layout beside, name_code other) }
    requires absent { HasEntry (sight pass.old).work.absent (name_code name) }
    requires unclaimed { IsUnclaimed (setup_at table.now.site) (sight pass.old) (name_code name) }
    ensures stays { Stays pass.old pass.new }
    ensures works { Works (sight pass.old) (sight pass.new) }
    ensures made { IfOk result (λ r. IsMade (setup_at table.now.site) (sight pass.old) (sight pass.new) (name_code name) r × (r.patches ≤ 1)) }
    ensures refused { IfErr result (Refused (across_in table.now.site.mesh.now) (λ m. m ≡ name) (sight pass.old) (sight pass.new)) }
    ensures listed { IfOk result (λ r. AreListed table.now.site (sight pass.new) (sight pass.new).claims published.new.items) }
    ensures kept { IfErr result (λ e. AreKept table.now.site (sight pass.new) published.new.items (failed_by e)) }
    ensures capacity { vec_capacity published.new ≡ vec_capacity published.old }
{
    let _count = table.mesh().element_count();
    if name < other {
        take_pair(
            table, pass, published, at, beside, name, other, at, name, false, round, gate, number,
        )
    } else {
        take_pair(
            table, pass, published, beside, at, other, name, at, name, true, round, gate, number,
        )
    }
}
