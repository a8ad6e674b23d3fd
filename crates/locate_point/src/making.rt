//! The grid of a locator: how large its cells are.
ghost use Rattle.std.specs.Prelude.{◌≡◌, ◌<◌, ◌≤◌, IfOk, length};
ghost use Rattle.macro_file.specs.Limits.{AtMost};
ghost use Rattle.mesh_names.specs.Leaves.{tops};
ghost use Rattle.mesh_names.specs.Triangles.{size};
ghost use Rattle.compat_check.specs.Meshes.{shape_of};
ghost use Rattle.compat_check.specs.Within.{IsWithin};
ghost use Rattle.locate_point.specs.Grids.{AreRooted, IsGrid};

use crate::axis::Axis;
use crate::grid::{box_of, entries_of};
use crate::triangle::{Point, corners_of};
use compat_check::MacroMesh;
use mesh_names::name::ElemName;
use std::alloc::{AllocError, Global};

/// The most steps of an axis.
const MOST_STEPS: u32 = 1024;

// The lesser of the coordinates of two points.
fn lower(a: Point, b: Point) -> Point
    requires { IsWithin a × IsWithin b }
    ensures { IsWithin result }
{
    let x = if b.0 < a.0 { b.0 } else { a.0 };
    let y = if b.1 < a.1 { b.1 } else { a.1 };
    (x, y)
}

// The greater of the coordinates of two points.
fn upper(a: Point, b: Point) -> Point
    requires { IsWithin a × IsWithin b }
    ensures { IsWithin result }
{
    let x = if b.0 > a.0 { b.0 } else { a.0 };
    let y = if b.1 > a.1 { b.1 } else { a.1 };
    (x, y)
}

// The box around the triangle of a name.
fn box_around(mesh: &MacroMesh, name: ElemName) -> (Point, Point)
    requires { name.0 < size (shape_of mesh.now) }
    ensures { IsWithin result.0 × IsWithin result.1 }
{
    box_of(corners_of(mesh, name))
}

// A box around the triangles of all names.
fn box_around_all(mesh: &MacroMesh, names: &[ElemName]) -> (Point, Point)
    requires { AreRooted mesh.now names.now }
    ensures { IsWithin result.0 × IsWithin result.1 }
{
    let mut low = (4_096_000_000_000_000_000, 4_096_000_000_000_000_000);
    let mut high = (-4_096_000_000_000_000_000, -4_096_000_000_000_000_000);
    for name in names {
        let (left, right) = box_around(mesh, *name);
        low = lower(low, left);
        high = upper(high, right);
    }
    (low, high)
}

// The axis from one coordinate to another in so many steps.
fn axis(from: i64, to: i64, steps: u32) -> Axis
    requires { AtMost 4096000000000000000 from × AtMost 4096000000000000000 to × (0 < steps) × (steps ≤ 1024) }
{
    let span = if to > from { (to - from) as u64 } else { 0 };
    Axis {
        from,
        width: span / u64::from(steps) + 1,
        last: steps - 1,
    }
}

// How many cells the box around a name has.
fn cell_count(columns: Axis, rows: Axis, mesh: &MacroMesh, name: ElemName) -> u64
    requires { name.0 < size (shape_of mesh.now) }
{
    let (low, high) = box_around(mesh, name);
    let width = columns.across(high).saturating_sub(columns.across(low)) + 1;
    let height = rows.up(high).saturating_sub(rows.up(low)) + 1;
    u64::from(width) * u64::from(height)
}

// Whether the boxes around the names have no more than eight cells a name.
fn are_few(columns: Axis, rows: Axis, mesh: &MacroMesh, names: &[ElemName]) -> bool
    requires { AreRooted mesh.now names.now }
{
    let mut left = names.len() as u64 * 8;
    for name in names {
        let count = cell_count(columns, rows, mesh, *name);
        if count > left {
            return false;
        }
        left -= count;
    }
    true
}

// How many steps an axis has at first: as many cells as names, or a little fewer.
fn first_steps(count: usize) -> u32
    ensures { (0 < result) × (result ≤ 1024) }
{
    let mut steps = MOST_STEPS;
    while steps > 1 && (steps as usize) * (steps as usize) > count {
        steps /= 2;
    }
    steps
}

// The axes of the finest grid in which the names take few cells.
fn axes(mesh: &MacroMesh, names: &[ElemName]) -> (Axis, Axis)
    requires { AreRooted mesh.now names.now }
{
    let (low, high) = box_around_all(mesh, names);
    let mut steps = first_steps(names.len());
    loop {
        let columns = axis(low.0, high.0, steps);
        let rows = axis(low.1, high.1, steps);
        if steps == 1 || are_few(columns, rows, mesh, names) {
            return (columns, rows);
        }
        steps /= 2;
    }
}

// A grid of names: its axes, and its entries.
#[derive(Drop)]
pub(crate) struct Grid {
    pub(crate) columns: Axis,
    pub(crate) rows: Axis,
    pub(crate) entries: Vec<(u32, ElemName)>,
}

// The grid of these names.
pub(crate) fn grid_of(
    alloc: Global,
    mesh: &MacroMesh,
    names: &[ElemName],
) -> Result<Grid, AllocError>
    requires { AreRooted mesh.now names.now }
    ensures { IfOk result (λ grid. IsGrid mesh.now grid.columns grid.rows names.now grid.entries.items) }
{
    let (columns, rows) = axes(mesh, names);
    let entries = entries_of(alloc, columns, rows, mesh, names)?;
    Ok(Grid {
        columns,
        rows,
        entries,
    })
}

// The names of the macro elements.
pub(crate) fn macro_names(alloc: Global, mesh: &MacroMesh) -> Result<Vec<ElemName>, AllocError>
    ensures { IfOk result (λ names. names.items ≡ tops (size (shape_of mesh.now))) }
{
    let count = mesh.element_count();
    let mut names = Vec::with_capacity(alloc, count as usize)?;
    for root in 0..count {
        names.push(ElemName::top(root))?;
    }
    Ok(names)
}
