//! Whether midpoints are exact.
ghost use Rattle.std.specs.Prelude.{◌↔◌, IsTrue};
ghost use Rattle.macro_file.specs.declared.text.MacroVertex.{MacroVertex};
ghost use Rattle.compat_check.specs.Points.{AreTenths, IsMultiple, LiesOn};

use compat_check::MacroMesh;
use macro_file::MacroVertex;

// Whether a coordinate has at most ten decimals: 4,096 fine units are one in the last of them.
fn is_tenth(coordinate: i64) -> bool
    ensures { IsTrue result ↔ IsMultiple 4096 coordinate }
{
    coordinate.unsigned_abs() % 4096 == 0
}

// Whether both coordinates of a vertex have.
fn lies_on_tenths(vertex: &MacroVertex) -> bool
    ensures { IsTrue result ↔ LiesOn 4096 (vertex.now.x, vertex.now.y) }
{
    is_tenth(vertex.x) && is_tenth(vertex.y)
}

/// Whether the coordinates of all vertices, also of those that no element has, are multiples of 4,096
/// fine units: then no midpoint is rounded at any level.
pub fn is_exact(mesh: &MacroMesh) -> bool
    ensures { IsTrue result ↔ AreTenths mesh.now.vertices }
{
    for number in 0..mesh.vertex_count() {
        if !lies_on_tenths(&mesh.vertex(number)) {
            return false;
        }
    }
    true
}
