//! The rows of a round, tried in order.
ghost use Rattle.std.specs.Prelude.{◌≡◌, ◌<◌, ◌≤◌, false, All, cond, length, IfErr, IfNone, IfSome, OnOk};
ghost use Rattle.mesh_names.specs.Triangles.{level, size};
ghost use Rattle.mesh_names.specs.Forests.{IsLeaf};
ghost use Rattle.mesh_names.specs.Marks.{IsWellFormed, bisections, is_mark};
ghost use Rattle.compat_check.specs.Meshes.{shape_of};
ghost use Rattle.forest_plain.specs.Rounds.{Bisects, BisectsEvery, IsDeepest, IsDeepestLeaf, IsFine, IsFirstFault, IsGreatestIn, IsRowFault, NamesLeaf, named};

use crate::leaves::is_leaf;
use crate::names::Asked;
use crate::refusal::RoundRefusal;
use compat_check::mesh::MacroMesh;
use mesh_names::name::ElemName;
use mesh_names::rows::{MarkRow, Place, What};

/// Tries each row, where `deepest` is the greatest level of all leaves, if a row is a mark above 0 of
/// every leaf.
pub fn try_rows<S: Asked>(
    mesh: &MacroMesh,
    members: &mut S,
    deepest: u32,
    rows: &[MarkRow],
) -> Result<(), RoundRefusal>
    requires deepest { All (λ row. BisectsEvery row → IsDeepestLeaf (shape_of mesh.now) (S.names members.old) deepest) rows.now }
    requires small { deepest < 512 }
    requires formed { All IsWellFormed rows.now }
    ensures same { S.names members.new ≡ S.names members.old }
    ensures ok { OnOk result (All (IsFine (shape_of mesh.now) (S.names members.old)) rows.now) }
    ensures refused { IfErr result (IsFirstFault (shape_of mesh.now) (S.names members.old) rows.now) }
{
    for row in rows {
        if let Err(refusal) = try_row(mesh, members, deepest, row) {
            return Err(refusal);
        }
    }
    Ok(())
}

/// Whether a row is a mark above 0 of every leaf.
pub fn bisects_every(rows: &[MarkRow]) -> bool
    ensures { result ≡ false → All (λ row. BisectsEvery row → ⊥) rows.now }
{
    for row in rows {
        if is_of_every(row) {
            return true;
        }
    }
    false
}

// Whether the row is a mark above 0 of every leaf.
fn is_of_every(row: &MarkRow) -> bool
    ensures { result ≡ false → BisectsEvery row.now → ⊥ }
{
    row.what == What::Mark && row.number > 0 && named(row.place).is_none()
}

// Tries one row.
fn try_row<S: Asked>(
    mesh: &MacroMesh,
    members: &mut S,
    deepest: u32,
    row: &MarkRow,
) -> Result<(), RoundRefusal>
    requires deepest { BisectsEvery row.now → IsDeepestLeaf (shape_of mesh.now) (S.names members.old) deepest }
    requires small { deepest < 512 }
    requires formed { IsWellFormed row.now }
    ensures same { S.names members.new ≡ S.names members.old }
    ensures ok { OnOk result (IsFine (shape_of mesh.now) (S.names members.old) row.now) }
    ensures refused { IfErr result (IsRowFault (shape_of mesh.now) (S.names members.old) row.now) }
{
    let Some(reached) = reached(mesh, members, deepest, row) else {
        return Err(RoundRefusal::NotALeaf { row: row.row });
    };
    let times = times(row);
    if times > 0 && reached + times > 24 {
        return Err(RoundRefusal::LevelTooDeep {
            row: row.row,
            level: reached + times,
        });
    }
    Ok(())
}

// How many bisections a row asks for: a value asks for none.
fn times(row: &MarkRow) -> u32
    requires { IsWellFormed row.now }
    ensures times { result ≡ cond (is_mark row.now.what) (bisections row.now.number) 0 }
    ensures small { result ≤ 24 }
{
    if row.what != What::Mark || row.number <= 0 {
        return 0;
    }
    row.number as u32
}

// The greatest level of the leaves that a row names; `None` where its element is no leaf. Where it
// names a corner, it is that of the corner's element.
fn reached<S: Asked>(mesh: &MacroMesh, members: &mut S, deepest: u32, row: &MarkRow) -> Option<u32>
    requires deepest { BisectsEvery row.now → IsDeepestLeaf (shape_of mesh.now) (S.names members.old) deepest }
    requires small { deepest < 512 }
    ensures same { S.names members.new ≡ S.names members.old }
    ensures named { IfSome result (λ _. NamesLeaf (shape_of mesh.now) (S.names members.old) row.now) }
    ensures deepest { Bisects row.now → IfSome result (IsDeepest (shape_of mesh.now) (S.names members.old) row.now) }
    ensures small { IfSome result (λ g. g < 512) }
    ensures none { IfNone result (NamesLeaf (shape_of mesh.now) (S.names members.old) row.now → ⊥) }
{
    match named(row.place) {
        None => Some(deepest),
        Some(name) => level_of_leaf(mesh, members, name),
    }
}

// The level of the name, where it is a leaf.
fn level_of_leaf<S: Asked>(mesh: &MacroMesh, members: &mut S, name: ElemName) -> Option<u32>
    ensures same { S.names members.new ≡ S.names members.old }
    ensures some { IfSome result (λ g. IsLeaf (shape_of mesh.now) (S.names members.old) name × (g ≡ level (shape_of mesh.now) name)) }
    ensures small { IfSome result (λ g. g < 512) }
    ensures none { IfNone result (IsLeaf (shape_of mesh.now) (S.names members.old) name → ⊥) }
{
    if is_leaf(mesh, members, name) {
        Some(mesh.level(name))
    } else {
        None
    }
}

// The element that a row names.
fn named(place: Place) -> Option<ElemName>
    ensures { result ≡ named place }
{
    match place {
        Place::EveryLeaf => None,
        Place::Elem(name) => Some(name),
        Place::Corner(name, _) => Some(name),
    }
}

/// The greatest level of these leaves.
pub fn greatest_level(mesh: &MacroMesh, leaves: &[ElemName]) -> u32
    requires rooted { All (λ n. n.0 < size (shape_of mesh.now)) leaves.now }
    requires some { 0 < length leaves.now }
    ensures { IsGreatestIn (shape_of mesh.now) leaves.now result }
{
    let mut greatest = mesh.level(leaves[0]);
    for leaf in leaves {
        greatest = greatest.max(mesh.level(*leaf));
    }
    greatest
}
