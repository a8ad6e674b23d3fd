//! The leaf around a point, by trying one leaf after another.
ghost use Rattle.compat_check.specs.Within.{IsWithin};
ghost use Rattle.locate_point.specs.Locating.{AreLeaves, IsPlace};

use crate::triangle::{Point, contains, corners_of};
use compat_check::MacroMesh;
use mesh_names::name::ElemName;

// The first of the leaves whose triangle contains the point.
fn first_around(mesh: &MacroMesh, leaves: &[ElemName], point: Point) -> Option<ElemName>
    requires leaves { AreLeaves mesh.now leaves.now }
    requires point { IsWithin point }
    ensures { IsPlace mesh.now leaves.now point result }
{
    for leaf in leaves {
        if contains(corners_of(mesh, *leaf), point) {
            return Some(*leaf);
        }
    }
    None
}

/// The least leaf whose triangle contains the point x, y, in fine units; `None` exactly where none does.
///
/// The leaves are those of a forest over the mesh, in order. Takes no memory, and time for each leaf.
pub fn find_plain(mesh: &MacroMesh, leaves: &[ElemName], x: i64, y: i64) -> Option<ElemName>
    requires leaves { AreLeaves mesh.now leaves.now }
    requires point { IsWithin (x, y) }
    ensures { IsPlace mesh.now leaves.now (x, y) result }
{
    first_around(mesh, leaves, (x, y))
}
