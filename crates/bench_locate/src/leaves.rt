//! Grids, and their leaves where each element is bisected so often.
ghost use Rattle.std.specs.Prelude.{◌≤◌, All, IfOk};
ghost use Rattle.mesh_names.specs.Marks.{IsWellFormed};
ghost use Rattle.locate_point.specs.Locating.{AreLeaves};

use anyhow::{Result, anyhow};
use compat_check::{MacroMesh, check};
use forest_plain::Forest;
use forest_plain::forest::PlainForest;
use mesh_names::name::ElemName;
use mesh_names::rows::{MarkRow, Place, RoundMarks, What};
use soak::grid;
use std::alloc::Global;

/// A grid of squares, each of two triangles.
pub fn grid_mesh(alloc: Global, side: u32) -> Result<MacroMesh>
    requires { (1 ≤ side) × (side ≤ 128) }
{
    let text = grid(alloc, side)?;
    match check(alloc, text) {
        Ok(mesh) => Ok(mesh),
        Err(_) => Err(anyhow!("the grid was refused")),
    }
}

// The round in which every leaf is bisected so often.
fn every_leaf(alloc: Global, times: u8) -> Result<RoundMarks>
    requires { times ≤ 24 }
    ensures { IfOk result (λ r. All IsWellFormed r.rows.items) }
{
    let mut rows = Vec::new(alloc);
    rows.push(MarkRow {
        row: 2,
        what: What::Mark,
        place: Place::EveryLeaf,
        number: i64::from(times),
    })?;
    Ok(RoundMarks { number: 1, rows })
}

/// The leaves of a mesh, each element of which is bisected so often.
pub fn refined(alloc: Global, mesh: &MacroMesh, times: u8) -> Result<Vec<ElemName>>
    requires { times ≤ 24 }
    ensures { IfOk result (λ v. AreLeaves mesh.now v.items) }
{
    let marks = every_leaf(alloc, times)?;
    let mut forest = PlainForest::new(alloc, mesh, 1_048_576);
    let Ok(_delta) = forest.round(&marks) else {
        return Err(anyhow!("the round was refused"));
    };
    let Ok(leaves) = forest.leaves() else {
        return Err(anyhow!("out of memory"));
    };
    Ok(leaves)
}
