//! The leaf around a point, from a macro triangle down.
ghost use Rattle.std.specs.Prelude.{◌≡◌, ◌↔◌, None, Some, IfSome, ◌<◌, [], true, false};
ghost use Rattle.std.specs.Bool.{OnFalse, OnTrue};
ghost use Rattle.mesh_names.specs.Triangles.{size};
ghost use Rattle.compat_check.specs.Faults.{IsFirst};
ghost use Rattle.compat_check.specs.Meshes.{shape_of};
ghost use Rattle.compat_check.specs.Points.{AreTenths};
ghost use Rattle.compat_check.specs.Within.{IsWithin};
ghost use Rattle.locate_point.specs.Covering.{AreWithin, Covers, IsAround, corners_of};
ghost use Rattle.locate_point.specs.Locating.{AreLeaves, IsPlace, LiesOutside};
ghost use Rattle.locate_point.specs.Ways.{IsOnWay, child_corners};

use crate::laws::contains_by_children;
use crate::ranks::{is_at, rank_from};
use crate::triangle::{Corners, Point, contains, corners_of, middle};
use compat_check::MacroMesh;
use mesh_names::name::ElemName;

// The first macro triangle that contains the point.
fn first_macro(mesh: &MacroMesh, point: Point) -> Option<u32>
    requires { IsWithin point }
    ensures first { IsFirst (size (shape_of mesh.now)) (λ r. IsAround mesh.now point (r, [])) result }
    ensures small { IfSome result (λ r. r < 65535) }
{
    for root in 0..mesh.element_count() {
        if contains(corners_of(mesh, ElemName::top(root)), point) {
            return Some(root);
        }
    }
    None
}

// The side of the child that is taken, and where its corners lie: child 0 where it contains the
// point, and else child 1.
fn child_around(corners: Corners, point: Point) -> (bool, Corners)
    requires corners { AreWithin corners }
    requires point { IsWithin point }
    ensures corners { result.1 ≡ child_corners corners result.0 }
    ensures first { OnFalse result.0 (Covers (child_corners corners false) point) }
    ensures second { OnTrue result.0 (Covers (child_corners corners false) point → ⊥) }
{
    let (first, second, apex) = corners;
    let middle = middle(first, second);
    let child = (apex, first, middle);
    if contains(child, point) {
        (false, child)
    } else {
        (true, (second, apex, middle))
    }
}

// The leaf at which the way from an element down ends.
pub(crate) fn leaf_below(
    mesh: &MacroMesh,
    leaves: &[ElemName],
    top: ElemName,
    point: Point,
) -> ElemName
    requires exact { AreTenths mesh.now.vertices }
    requires leaves { AreLeaves mesh.now leaves.now }
    requires point { IsWithin point }
    requires way { IsOnWay mesh.now leaves.now point top }
    ensures { IsPlace mesh.now leaves.now point (Some result) }
{
    contains_by_children();
    let mut name = top;
    let mut corners = corners_of(mesh, top);
    let mut rank = rank_from(leaves, 0, top);
    while !is_at(leaves, rank, name) {
        let (side, child) = child_around(corners, point);
        name = name.child_at(side);
        corners = child;
        rank = rank_from(leaves, rank, name);
    }
    name
}

// The same for a point.
fn descend(mesh: &MacroMesh, leaves: &[ElemName], point: Point) -> Option<ElemName>
    requires exact { AreTenths mesh.now.vertices }
    requires leaves { AreLeaves mesh.now leaves.now }
    requires point { IsWithin point }
    ensures place { IsPlace mesh.now leaves.now point result }
    ensures none { (result ≡ None) ↔ LiesOutside mesh.now point }
{
    contains_by_children();
    match first_macro(mesh, point) {
        None => None,
        Some(root) => Some(leaf_below(mesh, leaves, ElemName::top(root), point)),
    }
}

/// The least leaf whose triangle contains the point x, y, in fine units; `None` exactly where no
/// macro triangle contains it. The coordinates of the mesh are exact (`is_exact`), and the leaves are
/// those of a forest over the mesh, in order.
///
/// Takes no memory, and time for each macro element, and for each letter of the leaf that of a search
/// in the leaves below.
pub fn find(mesh: &MacroMesh, leaves: &[ElemName], x: i64, y: i64) -> Option<ElemName>
    requires exact { AreTenths mesh.now.vertices }
    requires leaves { AreLeaves mesh.now leaves.now }
    requires point { IsWithin (x, y) }
    ensures place { IsPlace mesh.now leaves.now (x, y) result }
    ensures none { (result ≡ None) ↔ LiesOutside mesh.now (x, y) }
{
    descend(mesh, leaves, (x, y))
}
