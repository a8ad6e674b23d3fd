//! Values of leaves and of vertices that are set.
ghost use Rattle.std.specs.Prelude.{◌≡◌, ◌<◌, ◌≤◌, ◌^◌, nat_abs, All, IsSome};
ghost use Rattle.mesh_names.specs.Forests.{IsInMesh};
ghost use Rattle.mesh_names.specs.Triangles.{IsCorner, triangle};
ghost use Rattle.compat_check.specs.Meshes.{shape_of};
ghost use Rattle.dof_transfer.specs.Held.{value_of};
ghost use Rattle.dof_transfer.specs.VertexValues.{IsKeyOf};
ghost use Rattle.mesh_rounds.specs.Setting.{corner_at};
ghost use Rattle.mesh_rounds.specs.Taking.{HasCorners, IsAmong, IsCornerAmong, LeavesTake, VerticesTake};

use compat_check::mesh::MacroMesh;
use dof_transfer::{ElementValues, VertexValues};
use mesh_names::laws;
use mesh_names::name::ElemName;
use mesh_names::patch::VertexKey;

// Sets the value of a leaf.
pub(crate) fn set_leaf(elements: &mut ElementValues, leaf: ElemName, number: i64)
    requires live { IsSome (value_of elements.old leaf) }
    requires small { nat_abs number ≤ 2 ^ 31 }
    ensures { LeavesTake (λ n. n ≡ leaf) number elements.old elements.new }
{
    elements.set_element(leaf, number);
}

// Sets the values of these leaves.
pub(crate) fn set_leaves(elements: &mut ElementValues, leaves: &[ElemName], number: i64)
    requires live { All (λ n. IsSome (value_of elements.old n)) leaves.now }
    requires small { nat_abs number ≤ 2 ^ 31 }
    ensures { LeavesTake (λ n. IsAmong n leaves.now) number elements.old elements.new }
{
    for leaf in leaves {
        set_leaf(elements, *leaf, number);
    }
}

// The key of a corner of an element.
fn corner_key(mesh: &MacroMesh, element: ElemName, corner: u8) -> VertexKey
    requires element { IsInMesh (shape_of mesh.now) element }
    requires corner { corner < 3 }
    ensures { IsKeyOf mesh.now result (corner_at (triangle (shape_of mesh.now) element) corner) }
{
    let [first, second, third] = mesh.corners(element);
    match corner {
        0 => first,
        1 => second,
        _ => third,
    }
}

// Sets the value of a corner of an element.
pub(crate) fn set_corner(
    mesh: &MacroMesh,
    vertices: &mut VertexValues,
    element: ElemName,
    corner: u8,
    number: i64,
)
    requires element { IsInMesh (shape_of mesh.now) element }
    requires corner { corner < 3 }
    requires live { HasCorners mesh.now vertices.old element }
    requires small { nat_abs number ≤ 2 ^ 31 }
    ensures { VerticesTake mesh.now (λ v. v ≡ corner_at (triangle (shape_of mesh.now) element) corner) number vertices.old vertices.new }
{
    laws::partner_is_only();
    laws::partners_pair();
    let _checked = mesh.element_count();
    vertices.set_vertex(corner_key(mesh, element, corner), number);
}

// Sets the values of an element's corners.
fn set_corners(mesh: &MacroMesh, vertices: &mut VertexValues, element: ElemName, number: i64)
    requires element { IsInMesh (shape_of mesh.now) element }
    requires live { HasCorners mesh.now vertices.old element }
    requires small { nat_abs number ≤ 2 ^ 31 }
    ensures { VerticesTake mesh.now (λ v. IsCorner v (triangle (shape_of mesh.now) element)) number vertices.old vertices.new }
{
    set_corner(mesh, vertices, element, 0, number);
    set_corner(mesh, vertices, element, 1, number);
    set_corner(mesh, vertices, element, 2, number);
}

// Sets the values of these elements' corners.
pub(crate) fn set_all_corners(
    mesh: &MacroMesh,
    vertices: &mut VertexValues,
    elements: &[ElemName],
    number: i64,
)
    requires elements { All (IsInMesh (shape_of mesh.now)) elements.now }
    requires live { All (HasCorners mesh.now vertices.old) elements.now }
    requires small { nat_abs number ≤ 2 ^ 31 }
    ensures { VerticesTake mesh.now (IsCornerAmong (shape_of mesh.now) elements.now) number vertices.old vertices.new }
{
    for element in elements {
        set_corners(mesh, vertices, *element, number);
    }
}
