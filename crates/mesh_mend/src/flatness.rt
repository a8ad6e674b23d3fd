//! Pieces without area.
ghost use Rattle.std.specs.Prelude.{◌≡◌, ◌*◌, ◌/◌, ◌%◌, ◌<◌, ◌≤◌, ◌↔◌, IsTrue, None, length, map, pos};
ghost use Rattle.macro_file.specs.Text.{vertex_of};
ghost use Rattle.compat_check.specs.Faults.{IsFirst, IsOutside, triple_in};
ghost use Rattle.compat_check.specs.Meshes.{edge_of};
ghost use Rattle.mesh_mend.specs.Centres.{centre_at};
ghost use Rattle.mesh_mend.specs.Refusals.{piece_area};

use crate::cutting::ends;
use compat_check::are_in_line;
use macro_file::{MacroElem, MacroVertex};

// Whether the piece of a triple at an edge has no area.
fn is_flat(vertices: &[MacroVertex], triple: &[u32; 3], centre: &MacroVertex, edge: usize) -> bool
    requires inside { IsOutside (length vertices.now) triple.now → ⊥ }
    requires centre { vertex_of centre.now ≡ centre_at vertices.now triple.now }
    requires edge { edge < 3 }
    ensures { IsTrue result ↔ (piece_area vertices.now triple.now (edge_of edge) ≡ pos 0) }
{
    let (from, to) = ends(triple, edge);
    are_in_line(&vertices[from as usize], &vertices[to as usize], centre)
}

/// The first piece without area, where pieces are counted by element and then by edge.
pub(crate) fn first_flat(
    vertices: &[MacroVertex],
    elements: &[MacroElem],
    centres: &[MacroVertex],
) -> Option<usize>
    requires few { length elements.now ≤ 65535 }
    requires inside { IsFirst (length elements.now) (λ r. IsOutside (length vertices.now) (triple_in (map (λ e. e.corners) elements.now) r)) None }
    requires centres { map vertex_of centres.now ≡ map (centre_at vertices.now) (map (λ e. e.corners) elements.now) }
    ensures { IsFirst (length elements.now * 3) (λ n. piece_area vertices.now (triple_in (map (λ e. e.corners) elements.now) (n / 3)) (edge_of (n % 3)) ≡ pos 0) result }
{
    for number in 0..elements.len() * 3 {
        let element = number / 3;
        if is_flat(
            vertices,
            &elements[element].corners,
            &centres[element],
            number % 3,
        ) {
            return Some(number);
        }
    }
    None
}
