//! Names in the cells of a grid, by the boxes around their triangles.
ghost use Rattle.std.specs.Prelude.{◌≡◌, ◌≤ℤ◌, List, ℕ, ◌+◌, ◌*◌, ◌<◌, ◌≤◌, ◌^◌, OnOk, IfOk, length, slice_index_or};
ghost use Rattle.std.specs.List.{Contains};
ghost use Rattle.std.specs.List.Sorted.{IsSorted};
ghost use Rattle.macro_file.specs.Limits.{AtMost};
ghost use Rattle.mesh_names.specs.Names.{Name};
ghost use Rattle.mesh_names.specs.Triangles.{size};
ghost use Rattle.compat_check.specs.Meshes.{shape_of};
ghost use Rattle.compat_check.specs.Points.{Point};
ghost use Rattle.compat_check.specs.Within.{IsWithin};
ghost use Rattle.locate_point.specs.Covering.{AreWithin, IsAround};
ghost use Rattle.locate_point.specs.Grids.{AddsOnly, AreEntries, AreRooted, Entry, IsBox, IsGrid, cell, cell_at, entry_cmp, place};
ghost use Rattle.locate_point.specs.Locating.{IsPlace};

use crate::axis::Axis;
use crate::triangle::{Corners, Point, contains, corners_of};
use compat_check::MacroMesh;
use mesh_names::name::ElemName;
use std::alloc::{AllocError, Global};

impl Axis {
    // The step in which a coordinate lies.
    fn place(&self, z: i64) -> u32
        requires { AtMost 4096000000000000000 z }
        ensures place { result ≡ place self.now z }
        ensures within { result ≤ self.now.last }
    {
        if z < self.from {
            return 0;
        }
        let step = (z - self.from) as u64 / self.width;
        step.min(u64::from(self.last)) as u32
    }

    // The step in which the x of a point lies.
    pub(crate) fn across(&self, point: Point) -> u32
        requires { IsWithin point }
        ensures place { result ≡ place self.now point.0 }
        ensures within { result ≤ self.now.last }
    {
        self.place(point.0)
    }

    // The step in which the y of a point lies.
    pub(crate) fn up(&self, point: Point) -> u32
        requires { IsWithin point }
        ensures place { result ≡ place self.now point.1 }
        ensures within { result ≤ self.now.last }
    {
        self.place(point.1)
    }
}

// The least of three coordinates.
fn least(a: i64, b: i64, c: i64) -> i64
    requires { AtMost 4096000000000000000 a × AtMost 4096000000000000000 b × AtMost 4096000000000000000 c }
    ensures bound { (result ≤ℤ a) × (result ≤ℤ b) × (result ≤ℤ c) }
    ensures small { AtMost 4096000000000000000 result }
{
    let first = if b < a { b } else { a };
    if c < first { c } else { first }
}

// The greatest of three coordinates.
fn greatest(a: i64, b: i64, c: i64) -> i64
    requires { AtMost 4096000000000000000 a × AtMost 4096000000000000000 b × AtMost 4096000000000000000 c }
    ensures bound { (a ≤ℤ result) × (b ≤ℤ result) × (c ≤ℤ result) }
    ensures small { AtMost 4096000000000000000 result }
{
    let first = if b > a { b } else { a };
    if c > first { c } else { first }
}

// The lower left and the upper right corner of the box around a triangle.
pub(crate) fn box_of(corners: Corners) -> (Point, Point)
    requires { AreWithin corners }
    ensures { IsBox corners result.0 result.1 }
{
    let (first, second, apex) = corners;
    let low = (
        least(first.0, second.0, apex.0),
        least(first.1, second.1, apex.1),
    );
    let high = (
        greatest(first.0, second.0, apex.0),
        greatest(first.1, second.1, apex.1),
    );
    (low, high)
}

// Puts a name into the cells of a row, from one column to another.
fn push_row(
    entries: &mut Vec<(u32, ElemName)>,
    start: u32,
    from: u32,
    to: u32,
    name: ElemName,
) -> Result<(), AllocError>
    requires { start + to + 1 < 2 ^ 32 }
    ensures only { OnOk result (AddsOnly name entries.old.items entries.new.items) }
    ensures added { OnOk result ((column : ℕ) → from ≤ column → column ≤ to → Contains entries.new.items (start + column, name)) }
{
    for column in from..to + 1 {
        entries.push((start + column, name))?;
    }
    Ok(())
}

// Puts a name into the cells of a box.
fn push_box(
    entries: &mut Vec<(u32, ElemName)>,
    columns: Axis,
    rows: Axis,
    low: Point,
    high: Point,
    name: ElemName,
) -> Result<(), AllocError>
    requires { IsWithin low × IsWithin high }
    ensures only { OnOk result (AddsOnly name entries.old.items entries.new.items) }
    ensures added { OnOk result ((row column : ℕ) → place rows low.1 ≤ row → row ≤ place rows high.1 → place columns low.0 ≤ column → column ≤ place columns high.0 → Contains entries.new.items (cell_at columns row column, name)) }
{
    let left = columns.across(low);
    let right = columns.across(high);
    for row in rows.up(low)..rows.up(high) + 1 {
        push_row(entries, row * (columns.last + 1), left, right, name)?;
    }
    Ok(())
}

// Puts a name into the cells of all points that its triangle contains.
fn push_name(
    entries: &mut Vec<(u32, ElemName)>,
    columns: Axis,
    rows: Axis,
    mesh: &MacroMesh,
    name: ElemName,
) -> Result<(), AllocError>
    requires { name.0 < size (shape_of mesh.now) }
    ensures only { OnOk result (AddsOnly name entries.old.items entries.new.items) }
    ensures added { OnOk result ((p : Point) → IsAround mesh.now p name → Contains entries.new.items (cell columns rows p, name)) }
{
    let (low, high) = box_of(corners_of(mesh, name));
    push_box(entries, columns, rows, low, high, name)
}

// All names in their cells.
fn fill(
    entries: &mut Vec<(u32, ElemName)>,
    columns: Axis,
    rows: Axis,
    mesh: &MacroMesh,
    names: &[ElemName],
) -> Result<(), AllocError>
    requires rooted { AreRooted mesh.now names.now }
    requires empty { length entries.old.items ≡ 0 }
    ensures { OnOk result (AreEntries mesh.now columns rows names.now entries.new.items) }
{
    for name in names {
        push_name(entries, columns, rows, mesh, *name)?;
    }
    Ok(())
}

// All names in their cells, in order.
pub(crate) fn entries_of(
    alloc: Global,
    columns: Axis,
    rows: Axis,
    mesh: &MacroMesh,
    names: &[ElemName],
) -> Result<Vec<(u32, ElemName)>, AllocError>
    requires { AreRooted mesh.now names.now }
    ensures { IfOk result (λ entries. IsGrid mesh.now columns rows names.now entries.items) }
{
    let mut entries = Vec::new(alloc);
    fill(&mut entries, columns, rows, mesh, names)?;
    entries.sort_unstable();
    Ok(entries)
}

// The place of the first entry of a cell, or of a later one where it has none.
fn first_at(entries: &[(u32, ElemName)], number: u32) -> usize
    requires { IsSorted entry_cmp entries.now }
    ensures below { (k : ℕ) (d : Entry) → k < result → (slice_index_or entries.now k d).0 < number }
    ensures from { (k : ℕ) (d : Entry) → result ≤ k → k < length entries.now → number ≤ (slice_index_or entries.now k d).0 }
    ensures within { result ≤ length entries.now }
{
    let mut low = 0;
    let mut high = entries.len();
    while low < high {
        let middle = low + (high - low) / 2;
        if entries[middle].0 < number {
            low = middle + 1;
        } else {
            high = middle;
        }
    }
    low
}

// The least of the names whose triangle contains the point.
pub(crate) fn first_in(
    mesh: &MacroMesh,
    columns: Axis,
    rows: Axis,
    entries: &[(u32, ElemName)],
    point: Point,
) -> Option<ElemName>
    requires grid { (names : List Name) × IsGrid mesh.now columns rows names entries.now }
    requires point { IsWithin point }
    ensures { (names : List Name) → IsGrid mesh.now columns rows names entries.now → IsPlace mesh.now names point result }
{
    let number = rows.up(point) * (columns.last + 1) + columns.across(point);
    let mut at = first_at(entries, number);
    while at < entries.len() {
        let entry = entries[at];
        if entry.0 != number {
            return None;
        }
        if contains(corners_of(mesh, entry.1), point) {
            return Some(entry.1);
        }
        at += 1;
    }
    None
}
