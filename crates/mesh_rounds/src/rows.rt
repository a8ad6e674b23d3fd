//! Values that the rows of a round set.
ghost use Rattle.std.specs.Prelude.{◌≡◌, ◌≤◌, All, IsSome, length};
ghost use Rattle.mesh_names.specs.Forests.{IsInMesh};
ghost use Rattle.mesh_names.specs.Marks.{IsWellFormed};
ghost use Rattle.mesh_names.specs.Names.{Name};
ghost use Rattle.mesh_names.specs.Patches.{vertex_of};
ghost use Rattle.compat_check.specs.Meshes.{shape_of};
ghost use Rattle.dof_transfer.specs.Held.{value_of};
ghost use Rattle.mesh_rounds.specs.Taking.{HasCorners, IsAmong, IsEvery, IsStart, LeavesSet, LeavesTake, MeansLeaf, MeansVertex, NamesAmong, NamesCorners, NamesLive, VerticesSet, VerticesTake};

use crate::setting::{set_all_corners, set_corner, set_leaf, set_leaves};
use compat_check::mesh::MacroMesh;
use dof_transfer::{ElementValues, VertexValues};
use mesh_names::name::ElemName;
use mesh_names::rows::{MarkRow, Place, What};

// Where the rows of a kind begin that count: the last one for every leaf overrules all before it.
fn start(rows: &[MarkRow], what: What) -> usize
    ensures start { IsStart what rows.now result }
    ensures within { result ≤ length rows.now }
{
    let mut start = 0;
    for at in 0..rows.len() {
        if rows[at].what == what && rows[at].place == Place::EveryLeaf {
            start = at;
        }
    }
    start
}

// Sets what a row says of leaves.
fn set_leaf_row(elements: &mut ElementValues, leaves: &[ElemName], row: &MarkRow)
    requires formed { IsWellFormed row.now }
    requires leaves { All (λ n. IsSome (value_of elements.old n)) leaves.now }
    requires live { NamesLive elements.old row.now }
    ensures { LeavesTake (λ n. MeansLeaf leaves.now n row.now) row.now.number elements.old elements.new }
{
    if row.what != What::Elem {
        return;
    }
    match row.place {
        Place::EveryLeaf => set_leaves(elements, leaves, row.number),
        Place::Elem(leaf) => set_leaf(elements, leaf, row.number),
        Place::Corner(_, _) => {}
    }
}

// Sets what a row says of vertices.
fn set_vertex_row(mesh: &MacroMesh, vertices: &mut VertexValues, leaves: &[ElemName], row: &MarkRow)
    requires formed { IsWellFormed row.now }
    requires leaves { All (IsInMesh (shape_of mesh.now)) leaves.now }
    requires corners { All (HasCorners mesh.now vertices.old) leaves.now }
    requires live { NamesCorners mesh.now vertices.old row.now }
    ensures { VerticesTake mesh.now (λ v. MeansVertex (shape_of mesh.now) leaves.now v row.now) row.now.number vertices.old vertices.new }
{
    if row.what != What::Vert {
        return;
    }
    match row.place {
        Place::EveryLeaf => set_all_corners(mesh, vertices, leaves, row.number),
        Place::Corner(leaf, corner) => set_corner(mesh, vertices, leaf, corner, row.number),
        Place::Elem(_) => {}
    }
}

// Sets what the rows say of leaves, in order.
fn set_leaf_rows(elements: &mut ElementValues, leaves: &[ElemName], rows: &[MarkRow])
    requires formed { All IsWellFormed rows.now }
    requires leaves { All (λ n. IsSome (value_of elements.old n)) leaves.now }
    requires live { All (NamesLive elements.old) rows.now }
    ensures { LeavesSet leaves.now rows.now elements.old elements.new }
{
    for row in rows {
        set_leaf_row(elements, leaves, row);
    }
}

// Sets what the rows say of vertices, in order.
fn set_vertex_rows(
    mesh: &MacroMesh,
    vertices: &mut VertexValues,
    leaves: &[ElemName],
    rows: &[MarkRow],
)
    requires formed { All IsWellFormed rows.now }
    requires leaves { All (IsInMesh (shape_of mesh.now)) leaves.now }
    requires corners { All (HasCorners mesh.now vertices.old) leaves.now }
    requires live { All (NamesCorners mesh.now vertices.old) rows.now }
    ensures { VerticesSet mesh.now leaves.now rows.now vertices.old vertices.new }
{
    for row in rows {
        set_vertex_row(mesh, vertices, leaves, row);
    }
}

/// Sets the value of each leaf to the number of the last row that names it. The leaves need be listed
/// only where a row is for every leaf.
pub(crate) fn set_leaf_values(elements: &mut ElementValues, leaves: &[ElemName], rows: &[MarkRow])
    requires formed { All IsWellFormed rows.now }
    requires leaves { All (λ n. IsSome (value_of elements.old n)) leaves.now }
    requires live { All (NamesLive elements.old) rows.now }
    requires every { All (λ row. IsEvery What.Elem row → (n : Name) → IsSome (value_of elements.old n) → IsAmong n leaves.now) rows.now }
    ensures { LeavesSet leaves.now rows.now elements.old elements.new }
{
    let start = start(rows, What::Elem);
    set_leaf_rows(elements, leaves, &rows[start..]);
}

/// Sets the value of each vertex to the number of the last row that names it. The leaves need be listed
/// only where a row is for every leaf.
pub(crate) fn set_vertex_values(
    mesh: &MacroMesh,
    vertices: &mut VertexValues,
    leaves: &[ElemName],
    rows: &[MarkRow],
)
    requires formed { All IsWellFormed rows.now }
    requires leaves { All (IsInMesh (shape_of mesh.now)) leaves.now }
    requires corners { All (HasCorners mesh.now vertices.old) leaves.now }
    requires live { All (NamesCorners mesh.now vertices.old) rows.now }
    requires every { All (λ row. IsEvery What.Vert row → All (NamesAmong leaves.now) rows.now) rows.now }
    ensures { VerticesSet mesh.now leaves.now rows.now vertices.old vertices.new }
{
    let start = start(rows, What::Vert);
    set_vertex_rows(mesh, vertices, leaves, &rows[start..]);
}
