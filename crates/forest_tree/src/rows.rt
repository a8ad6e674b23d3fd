//! The rows of a round, tried in order.
ghost use Rattle.std.specs.Prelude.{◌<◌, All, IfErr, IfOk, OnOk};
ghost use Rattle.mesh_names.specs.Forests.{IsForest};
ghost use Rattle.mesh_names.specs.Marks.{IsWellFormed};
ghost use Rattle.compat_check.specs.Meshes.{shape_of};
ghost use Rattle.forest_plain.specs.Rounds.{BisectsEvery, IsDeepestLeaf, IsFine, IsRowsRefusal};

use crate::held::HeldNames;
use crate::leaves::leaf_list;
use compat_check::mesh::MacroMesh;
use forest_plain::refusal::RoundRefusal;
use forest_plain::rows::{bisects_every, greatest_level, try_rows};
use mesh_names::rows::MarkRow;
use std::alloc::{AllocError, Global};

/// Tries each row.
pub(crate) fn try_all(
    alloc: Global,
    mesh: &MacroMesh,
    members: &HeldNames,
    rows: &[MarkRow],
) -> Result<(), RoundRefusal>
    requires forest { IsForest (shape_of mesh.now) members.now }
    requires formed { All IsWellFormed rows.now }
    ensures ok { OnOk result (All (IsFine (shape_of mesh.now) members.now) rows.now) }
    ensures refused { IfErr result (IsRowsRefusal (shape_of mesh.now) members.now rows.now) }
{
    let deepest = deepest(alloc, mesh, members, rows)?;
    if let Err(refusal) = try_rows(mesh, &mut members.finder(), deepest, rows) {
        return Err(refusal);
    }
    Ok(())
}

// The greatest level of all leaves, if a row is a mark above 0 of every leaf; else 0.
fn deepest(
    alloc: Global,
    mesh: &MacroMesh,
    members: &HeldNames,
    rows: &[MarkRow],
) -> Result<u32, AllocError>
    requires { IsForest (shape_of mesh.now) members.now }
    ensures deepest { IfOk result (λ d. All (λ row. BisectsEvery row → IsDeepestLeaf (shape_of mesh.now) members.now d) rows.now) }
    ensures small { IfOk result (λ d. d < 512) }
{
    if !bisects_every(rows) {
        return Ok(0);
    }
    let found = greatest_of_all(alloc, mesh, members)?;
    Ok(found)
}

// The greatest level of all leaves.
fn greatest_of_all(alloc: Global, mesh: &MacroMesh, members: &HeldNames) -> Result<u32, AllocError>
    requires { IsForest (shape_of mesh.now) members.now }
    ensures deepest { IfOk result (IsDeepestLeaf (shape_of mesh.now) members.now) }
    ensures small { IfOk result (λ d. d < 512) }
{
    let _checked = mesh.element_count();
    let leaves = leaf_list(alloc, mesh, members)?;
    Ok(greatest_level(mesh, &leaves))
}
