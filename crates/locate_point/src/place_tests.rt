//! Points are located by each of the three ways, on meshes in which nothing is bisected, or each element once.
ghost use Rattle.std.specs.Prelude.{IfOk, IsTrue, ◌↔◌};
ghost use Rattle.compat_check.specs.Within.{IsWithin};
ghost use Rattle.macro_file.specs.Limits.{AtMost};
ghost use Rattle.locate_point.specs.Locating.{AreLeaves};

use crate::making::macro_names;
use crate::tests::{SQUARE, mesh_of};
use crate::triangle::Point;
use crate::{Locator, find, find_plain, is_exact};
use compat_check::MacroMesh;
use mesh_names::name::ElemName;
use std::alloc::{AllocError, Global};
use std::test::Fail;

/// One unit of length in fine units.
const UNIT: i64 = 40_960_000_000_000;

// Two triangles that overlap, the first of which has a corner that is not exact.
const OVERLAPPING: &str = "number of vertices: 6
number of elements: 2
vertex coordinates: 0 0 1 0 0 0.33333333333333331 0 0 2 0 0 2
element vertices: 0 1 2 3 4 5
";

// The leaves of a mesh in which nothing is bisected.
fn top_leaves(alloc: Global, mesh: &MacroMesh) -> Result<Vec<ElemName>, AllocError>
    ensures { IfOk result (λ v. AreLeaves mesh.now v.items) }
{
    let names = macro_names(alloc, mesh)?;
    Ok(names)
}

// The leaves of a mesh in which each element is bisected once.
fn halves(alloc: Global, mesh: &MacroMesh) -> Result<Vec<ElemName>, AllocError>
    ensures { IfOk result (λ v. AreLeaves mesh.now v.items) }
{
    let mut names = Vec::new(alloc);
    for root in 0..mesh.element_count() {
        if mesh.grade(root) > 23 {
            return Err(AllocError);
        }
        names.push(ElemName::top(root).child_at(false))?;
        names.push(ElemName::top(root).child_at(true))?;
    }
    Ok(names)
}

// The leaves of either.
fn leaves_of(alloc: Global, mesh: &MacroMesh, bisected: bool) -> Result<Vec<ElemName>, AllocError>
    ensures { IfOk result (λ v. AreLeaves mesh.now v.items) }
{
    if bisected {
        halves(alloc, mesh)
    } else {
        top_leaves(alloc, mesh)
    }
}

// Whether a coordinate is in the range of a mesh.
fn is_in_range(coordinate: i64) -> bool
    ensures { IsTrue result ↔ AtMost 4096000000000000000 coordinate }
{
    coordinate.unsigned_abs() <= 4_096_000_000_000_000_000
}

// The macro element of a place, and the number that its letters spell.
fn spelled(place: Option<ElemName>) -> Option<(u32, u32)> {
    place.map(|name| (name.root(), name.bits()))
}

// Whether each of the three ways answers this place.
fn all_agree(
    alloc: Global,
    mesh: &MacroMesh,
    leaves: &[ElemName],
    point: Point,
    wanted: Option<(u32, u32)>,
) -> Result<bool, AllocError>
    requires leaves { AreLeaves mesh.now leaves.now }
    requires point { IsWithin point }
{
    let (x, y) = point;
    if is_exact(mesh) && spelled(find(mesh, leaves, x, y)) != wanted {
        return Ok(false);
    }
    let locator = Locator::new(alloc, mesh, leaves)?;
    let located = spelled(locator.place(point));
    Ok(located == wanted && spelled(find_plain(mesh, leaves, x, y)) == wanted)
}

// The same for any point, where each element is bisected once or none is; false out of range.
fn all_answer(
    alloc: Global,
    mesh: &MacroMesh,
    bisected: bool,
    point: Point,
    wanted: Option<(u32, u32)>,
) -> Result<bool, AllocError> {
    let leaves = leaves_of(alloc, mesh, bisected)?;
    if is_in_range(point.0) && is_in_range(point.1) {
        all_agree(alloc, mesh, &leaves, point, wanted)
    } else {
        Ok(false)
    }
}

#[test]
fn a_point_of_the_square_has_the_least_element(rt: HostRuntime) -> Result<(), Fail> {
    let alloc = rt.alloc();
    let mesh = mesh_of(alloc, SQUARE)?;
    let half = UNIT / 2;
    assert!(rt; all_answer(alloc, &mesh, false, (half, 0), Some((0, 0)))?);
    assert!(rt; all_answer(alloc, &mesh, false, (half, half), Some((0, 0)))?);
    assert!(rt; all_answer(alloc, &mesh, false, (UNIT, UNIT), Some((0, 0)))?);
    assert!(rt; all_answer(alloc, &mesh, false, (half, half + 1), Some((1, 0)))?);
    assert!(rt; all_answer(alloc, &mesh, false, (0, UNIT), Some((1, 0)))?);
    assert!(rt; all_answer(alloc, &mesh, false, (0, UNIT + 1), None)?);
    assert!(rt; all_answer(alloc, &mesh, false, (-1, 0), None)?);
    Ok(())
}

#[test]
fn a_point_of_the_bisected_square_has_the_least_leaf(rt: HostRuntime) -> Result<(), Fail> {
    let alloc = rt.alloc();
    let mesh = mesh_of(alloc, SQUARE)?;
    let half = UNIT / 2;
    assert!(rt; all_answer(alloc, &mesh, true, (half, half), Some((0, 0)))?);
    assert!(rt; all_answer(alloc, &mesh, true, (0, 0), Some((0, 1)))?);
    assert!(rt; all_answer(alloc, &mesh, true, (0, UNIT), Some((1, 0)))?);
    assert!(rt; all_answer(alloc, &mesh, true, (half, UNIT), Some((1, 1)))?);
    assert!(rt; all_answer(alloc, &mesh, true, (2 * UNIT, 0), None)?);
    Ok(())
}

#[test]
fn of_triangles_that_overlap_the_first_counts(rt: HostRuntime) -> Result<(), Fail> {
    let alloc = rt.alloc();
    let mesh = mesh_of(alloc, OVERLAPPING)?;
    assert!(rt; !is_exact(&mesh));
    assert!(rt; all_answer(alloc, &mesh, false, (0, UNIT / 4), Some((0, 0)))?);
    assert!(rt; all_answer(alloc, &mesh, false, (0, UNIT / 2), Some((1, 0)))?);
    assert!(rt; all_answer(alloc, &mesh, false, (0, 2 * UNIT + 1), None)?);
    assert!(rt; all_answer(alloc, &mesh, true, (0, UNIT / 4), Some((0, 0)))?);
    assert!(rt; all_answer(alloc, &mesh, true, (UNIT, UNIT / 2), Some((1, 1)))?);
    Ok(())
}
