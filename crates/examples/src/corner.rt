//! Refining a mesh at a vertex.
ghost use Rattle.std.specs.Prelude.{All, IfOk};
ghost use Rattle.mesh_names.specs.Forests.{IsInMesh};
ghost use Rattle.mesh_names.specs.Marks.{IsWellFormed};
ghost use Rattle.compat_check.specs.Meshes.{shape_of};

use anyhow::{Result, anyhow};
use compat_check::mesh::MacroMesh;
use forest_tree::forest::TreeForest;
use mesh_names::name::ElemName;
use mesh_names::patch::VertexKey;
use mesh_names::rows::{MarkRow, Place, RoundMarks, What};
use mesh_rounds::adaptive::AdaptiveMesh;
use std::alloc::Global;

// A mark of 2 for each leaf that has the vertex as a corner.
fn marks_at(
    alloc: Global,
    mesh: &MacroMesh,
    leaves: &[ElemName],
    vertex: VertexKey,
    number: u32,
) -> Result<RoundMarks>
    requires { All (IsInMesh (shape_of mesh.now)) leaves.now }
    ensures { IfOk result (λ marks. All IsWellFormed marks.rows.items) }
{
    let mut rows = Vec::new(alloc);
    for leaf in leaves {
        if mesh.corners(*leaf).contains(&vertex) {
            rows.push(MarkRow {
                row: 0,
                what: What::Mark,
                place: Place::Elem(*leaf),
                number: 2,
            })?;
        }
    }
    Ok(RoundMarks { number, rows })
}

/// One round that bisects twice each leaf with the vertex as a corner.
pub fn refine_at(
    alloc: Global,
    mesh: &mut AdaptiveMesh<'_, TreeForest<'_>>,
    vertex: VertexKey,
    number: u32,
) -> Result<()> {
    let Ok(leaves) = mesh.leaves() else {
        return Err(anyhow!("out of memory"));
    };
    let marks = marks_at(alloc, mesh.macro_mesh(), &leaves, vertex, number)?;
    if mesh.round(&marks).is_err() {
        return Err(anyhow!("the round was refused"));
    }
    Ok(())
}
