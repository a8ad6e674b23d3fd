//! Rounds of drawn marks.
ghost use Rattle.std.specs.Prelude.{◌≡◌, ◌<◌, ◌++◌, All, IfOk, OnOk};
ghost use Rattle.mesh_names.specs.Marks.{IsWellFormed};
ghost use Rattle.mesh_names.specs.Triangles.{level, size};
ghost use Rattle.compat_check.specs.Meshes.{shape_of};
ghost use Rattle.soak.specs.Draws.{drawn, mark_at as mark_of_level, next_state};
ghost use Rattle.soak.specs.Rows.{IsDrawn, after, marked, row_after, rows_for, rows_of};

use crate::generator::{Draws, mark_at};
use compat_check::MacroMesh;
use mesh_names::name::ElemName;
use mesh_names::rows::{MarkRow, Place, RoundMarks, What};
use std::alloc::{AllocError, Global};

// Draws a number for a leaf, and appends the leaf's row, if it has one.
fn draw_row(
    mesh: &MacroMesh,
    draws: &mut Draws,
    leaf: ElemName,
    rows: &mut Vec<MarkRow>,
) -> Result<(), AllocError>
    requires { leaf.0 < size (shape_of mesh.now) }
    ensures rows { OnOk result (rows.new.items ≡ rows.old.items ++ rows_of draws.old.row (marked leaf (mark_of_level (level (shape_of mesh.now) leaf) (drawn (next_state draws.old.state))))) }
    ensures draws { OnOk result (draws.new ≡ record { state = next_state draws.old.state; row = row_after draws.old.row (marked leaf (mark_of_level (level (shape_of mesh.now) leaf) (drawn (next_state draws.old.state)))) }) }
{
    let Some(number) = mark_at(mesh.level(leaf), draws.next()) else {
        return Ok(());
    };
    rows.push(MarkRow {
        row: draws.next_row(),
        what: What::Mark,
        place: Place::Elem(leaf),
        number,
    })?;
    Ok(())
}

/// The rows of the round of this number over these leaves: a number is drawn for each leaf, in order,
/// also for those that have no row. The next round goes on where this one ended.
pub fn draw_round(
    alloc: Global,
    mesh: &MacroMesh,
    draws: &mut Draws,
    number: u32,
    leaves: &[ElemName],
) -> Result<RoundMarks, AllocError>
    requires { All (λ n. n.0 < size (shape_of mesh.now)) leaves.now }
    ensures number { IfOk result (λ r. r.number ≡ number) }
    ensures rows { IfOk result (λ r. r.rows.items ≡ rows_for (level (shape_of mesh.now)) draws.old leaves.now) }
    ensures draws { IfOk result (λ _. draws.new ≡ after (level (shape_of mesh.now)) draws.old leaves.now) }
    ensures formed { IfOk result (λ r. All IsWellFormed r.rows.items) }
    ensures drawn { IfOk result (λ r. All (IsDrawn (level (shape_of mesh.now)) leaves.now) r.rows.items) }
{
    let mut rows = Vec::new(alloc);
    for leaf in leaves {
        draw_row(mesh, draws, *leaf, &mut rows)?;
    }
    Ok(RoundMarks { number, rows })
}
