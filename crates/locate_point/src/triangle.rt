//! Triangles and points.
ghost use Rattle.std.specs.Prelude.{◌≡◌, ◌↔◌, IsTrue, ◌-ℤ◌, ◌*ℤ◌, ◌<◌};
ghost use Rattle.macro_file.specs.Limits.{AtMost};
ghost use Rattle.compat_check.specs.Faults.{doubled_area};
ghost use Rattle.compat_check.specs.Points.{between};
ghost use Rattle.compat_check.specs.Within.{IsWithin};
ghost use Rattle.locate_point.specs.Covering.{AreWithin, Covers, NoneAbove, NoneBelow, corners_of};
ghost use Rattle.mesh_names.specs.Triangles.{size};
ghost use Rattle.compat_check.specs.Meshes.{shape_of};

use compat_check::MacroMesh;
use mesh_names::name::ElemName;

/// x and y in fine units, at most 4,096,000,000,000,000,000 in size.
pub type Point = (i64, i64);

/// Where the local vertices 0, 1 and 2 of a triangle lie.
pub type Corners = (Point, Point, Point);

// The way from one coordinate to another.
fn span(from: i64, to: i64) -> i128
    requires { AtMost 4096000000000000000 from × AtMost 4096000000000000000 to }
    ensures way { result ≡ to -ℤ from }
    ensures small { AtMost 8192000000000000000 result }
{
    i128::from(to) - i128::from(from)
}

// The way across from one point to a second, times the way up from it to a third.
fn rectangle(from: Point, across: Point, up: Point) -> i128
    requires { IsWithin from × IsWithin across × IsWithin up }
    ensures value { result ≡ (across.0 -ℤ from.0) *ℤ (up.1 -ℤ from.1) }
    ensures small { AtMost 67108864000000000000000000000000000000 result }
{
    span(from.0, across.0) * span(from.1, up.1)
}

// Twice the area of a triangle, below 0 where its corners go round to the right: in 128-bit numbers,
// which hold the area of every triangle in the range of the coordinates.
fn doubled_area(first: Point, second: Point, third: Point) -> i128
    requires { IsWithin first × IsWithin second × IsWithin third }
    ensures { result ≡ doubled_area first second third }
{
    rectangle(first, second, third) - rectangle(first, third, second)
}

// Whether one of the three is below 0.
fn some_below(a: i128, b: i128, c: i128) -> bool
    ensures { IsTrue result ↔ (NoneBelow (a, b, c) → ⊥) }
{
    a < 0 || b < 0 || c < 0
}

// Whether one of the three is above 0.
fn some_above(a: i128, b: i128, c: i128) -> bool
    ensures { IsTrue result ↔ (NoneAbove (a, b, c) → ⊥) }
{
    a > 0 || b > 0 || c > 0
}

/// Whether a triangle contains a point, inside or on an edge. A flat triangle contains none.
///
/// The point's areas with the three edges make up the area of the triangle: so it is flat where all
/// of them are 0.
pub fn contains(corners: Corners, point: Point) -> bool
    requires corners { AreWithin corners }
    requires point { IsWithin point }
    ensures { IsTrue result ↔ Covers corners point }
{
    let (first, second, apex) = corners;
    let a = doubled_area(second, apex, point);
    let b = doubled_area(apex, first, point);
    let c = doubled_area(first, second, point);
    some_below(a, b, c) != some_above(a, b, c)
}

// Where the corners of a name lie.
pub(crate) fn corners_of(mesh: &MacroMesh, name: ElemName) -> Corners
    requires { name.0 < size (shape_of mesh.now) }
    ensures corners { result ≡ corners_of mesh.now name }
    ensures within { AreWithin result }
{
    let [first, second, apex] = mesh.points(name);
    (first, second, apex)
}

// The point halfway between two, each coordinate rounded down.
pub(crate) fn middle(first: Point, second: Point) -> Point
    requires first { IsWithin first }
    requires second { IsWithin second }
    ensures between { result ≡ between first second }
    ensures within { IsWithin result }
{
    ((first.0 + second.0) >> 1, (first.1 + second.1) >> 1)
}
