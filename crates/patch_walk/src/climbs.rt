//! The element of a name's chain that is to be bisected first.
ghost use Rattle.std.specs.Prelude.{◌≡◌, ℕ, ◌+◌, ◌^◌, ◌<◌, ◌≤◌, ◌⊎◌, ◌∷◌, ◌++◌, Bool, List, Some, None, option_map, true, false, [], IfErr, IfNone, IfOk, IfSome};
ghost use Rattle.compat_check.specs.Meshes.{shape_of, across_in};
ghost use Rattle.mesh_names.specs.Chains.{chain_of};
ghost use Rattle.mesh_names.specs.Forests.{Has};
ghost use Rattle.mesh_names.specs.Names.{Name};
ghost use Rattle.mesh_names.specs.Partners.{partner as partner_in};
ghost use Rattle.mesh_names.specs.Patches.{patch_of};
ghost use Rattle.mesh_names.specs.Triangles.{level, size};
ghost use Rattle.table_words.specs.Entries.{HasEntry};
ghost use Rattle.table_words.specs.Layout.{IsElemAt};
ghost use Rattle.table_words.specs.NameWords.{name_code};
ghost use Rattle.table_words.specs.Places.{place_number};
ghost use Rattle.table_words.specs.Views.{FirstHalf, Worker};
ghost use Rattle.mesh_table.specs.Saw.{Saw};
ghost use Rattle.mesh_table.specs.Sights.{setup_at};
ghost use Rattle.mesh_table.specs.Told.{IsOf, MayClaim, Stays, sight};
ghost use Rattle.patch_walk.specs.Wiser.{KnowsBisected};
ghost use Rattle.patch_walk.specs.Tops.{EndedIn, IsTop, ParentKnown};
ghost use Rattle.patch_walk.specs.Works.{Works};

use crate::visits::visit;
use mesh_names::name::ElemName;
use mesh_table::rule::MeshSeat;
use mesh_table::table::MeshTable;
use table_words::layout::ElemAt;

/// The place of a name whose parent is bisected, or what is to be bisected first for that.
#[cycle(climbs)]
pub fn reach(
    table: &MeshTable,
    pass: &mut MeshSeat,
    name: ElemName,
    round: u32,
) -> Result<ElemAt, ElemName>
    requires fit { IsOf table.now.table.shared.table_id pass.old }
    requires works { (sight pass.old).kind ≡ Worker }
    requires half { (sight pass.old).work.half ≡ FirstHalf }
    requires round { (sight pass.old).work.round ≡ round }
    requires root { name.0 < size (shape_of table.now.site.mesh.now) }
    requires level { level (shape_of table.now.site.mesh.now) name ≤ 24 }
    ensures stays { Stays pass.old pass.new }
    ensures works { Works (sight pass.old) (sight pass.new) }
    ensures saw { (news : List Saw) × ((sight pass.new).saw ≡ news ++ (sight pass.old).saw) }
    ensures at { IfOk result (λ at. IsElemAt table.now.site.layout at × HasEntry (sight pass.new).work.found (place_number table.now.site.layout at, name_code name) × ParentKnown (sight pass.new) name) }
    ensures top { IfErr result (IsTop (across_in table.now.site.mesh.now) (λ m. (b : Bool) × (w : List Bool) × (name.1 ≡ b ∷ w) × Has (chain_of (shape_of table.now.site.mesh.now) (across_in table.now.site.mesh.now) (name.0, w)) m) (sight pass.old) (sight pass.new)) }
{
    match name.split() {
        None => {
            table.note_top(pass, name.root());
            Ok(ElemAt::Macro(name.root()))
        }
        Some((parent, side)) => match climb_to(table, pass, parent, round) {
            Err(top) => Err(top),
            Ok((block, second)) => Ok(ElemAt::Child {
                block,
                child: 2 * (second as u8) + side as u8,
            }),
        },
    }
}

/// By which block a name is bisected, or what is to be bisected first for that.
#[cycle(climbs)]
pub fn climb_to(
    table: &MeshTable,
    pass: &mut MeshSeat,
    name: ElemName,
    round: u32,
) -> Result<(u32, bool), ElemName>
    requires fit { IsOf table.now.table.shared.table_id pass.old }
    requires works { (sight pass.old).kind ≡ Worker }
    requires half { (sight pass.old).work.half ≡ FirstHalf }
    requires round { (sight pass.old).work.round ≡ round }
    requires root { name.0 < size (shape_of table.now.site.mesh.now) }
    requires level { level (shape_of table.now.site.mesh.now) name < 24 }
    ensures stays { Stays pass.old pass.new }
    ensures works { Works (sight pass.old) (sight pass.new) }
    ensures saw { (news : List Saw) × ((sight pass.new).saw ≡ news ++ (sight pass.old).saw) }
    ensures bisected { IfOk result (λ p. (p.0 < table.now.site.layout.pool) × KnowsBisected (setup_at table.now.site) (sight pass.new) (name_code name) p.0 p.1) }
    ensures top { IfErr result (IsTop (across_in table.now.site.mesh.now) (Has (chain_of (shape_of table.now.site.mesh.now) (across_in table.now.site.mesh.now) name)) (sight pass.old) (sight pass.new)) }
{
    let _count = table.mesh().element_count();
    let at = match reach(table, pass, name, round) {
        Err(top) => return Err(top),
        Ok(at) => at,
    };
    if let Some(found) = visit(table, pass, at, name, round) {
        return Ok(found);
    }
    let Some(other) = table.mesh().partner(name) else {
        return Err(name);
    };
    match reach(table, pass, other, round) {
        Err(top) => Err(top),
        Ok(_) => Err(name),
    }
}

/// The element at the top of a name's chain: it is not bisected, and its parent and its partner's are. None where the name is bisected.
pub fn climb(table: &MeshTable, pass: &mut MeshSeat, name: ElemName, round: u32) -> Option<ElemName>
    requires fit { IsOf table.now.table.shared.table_id pass.old }
    requires works { (sight pass.old).kind ≡ Worker }
    requires half { (sight pass.old).work.half ≡ FirstHalf }
    requires round { (sight pass.old).work.round ≡ round }
    requires root { name.0 < size (shape_of table.now.site.mesh.now) }
    requires level { level (shape_of table.now.site.mesh.now) name < 24 }
    ensures stays { Stays pass.old pass.new }
    ensures works { Works (sight pass.old) (sight pass.new) }
    ensures saw { (news : List Saw) × ((sight pass.new).saw ≡ news ++ (sight pass.old).saw) }
    ensures none { IfNone result (HasEntry (sight pass.new).work.known (name_code name)) }
    ensures top { IfSome result (IsTop (across_in table.now.site.mesh.now) (Has (chain_of (shape_of table.now.site.mesh.now) (across_in table.now.site.mesh.now) name)) (sight pass.old) (sight pass.new)) }
{
    match climb_to(table, pass, name, round) {
        Ok(_) => None,
        Err(top) => Some(top),
    }
}
