//! Tests of grids, of the generator and of rounds.
ghost use Rattle.std.specs.Prelude.{◌≤◌};

use crate::{Draws, draw_round, grid};
use compat_check::{MacroMesh, check};
use macro_file::{MacroText, put_macro, read_macro};
use mesh_names::name::ElemName;
use mesh_names::rows::{Place, RoundMarks, What};
use std::alloc::{AllocError, Global};
use std::test::Fail;

const UNIT: i64 = 40_960_000_000_000;

/// The grid of one square.
const SQUARE: &str =
    "DIM: 2\nDIM_OF_WORLD: 2\n\nnumber of vertices: 4\nnumber of elements: 2\n\nvertex coordinates:\n0 0\n1 0\n0 1\n1 1\n\nelement vertices:\n3 0 1\n0 3 2\n\nvertex values:\n0\n1\n2\n3\n\nelement values:\n0\n1\n";

#[test]
fn the_grid_of_one_square_is_written(rt: HostRuntime) -> Result<(), Fail> {
    let text = grid(rt.alloc(), 1)?;
    let written = put_macro(rt.alloc(), &text)?;
    assert_eq!(rt; written.as_slice(), SQUARE.as_bytes());
    assert!(rt; written.len() < 1000);
    let again = read_macro(rt.alloc(), written.as_slice())?;
    assert_eq!(rt; again.elements[1].corners, [0, 3, 2]);
    Ok(())
}

#[test]
fn four_squares_have_nine_vertices_and_eight_elements(rt: HostRuntime) -> Result<(), Fail> {
    let text = grid(rt.alloc(), 2)?;
    assert_eq!(rt; text.vertices.len(), 9);
    assert_eq!(rt; text.elements.len(), 8);
    let vertex = &text.vertices[5];
    assert_eq!(rt; (vertex.x, vertex.y, vertex.value), (2 * UNIT, UNIT, 5));
    assert_eq!(rt; text.elements[6].corners, [8, 4, 5]);
    assert_eq!(rt; text.elements[7].corners, [4, 8, 7]);
    assert_eq!(rt; text.elements[7].value, 7);
    assert_eq!(rt; (text.labels_given, text.neighbours_given), (false, false));
    Ok(())
}

#[test]
fn the_greatest_grid_passes_the_check(rt: HostRuntime) -> Result<(), Fail> {
    let text = grid(rt.alloc(), 128)?;
    let mesh = mesh_of(rt.alloc(), text)?;
    assert_eq!(rt; mesh.vertex_count(), 16_641);
    assert_eq!(rt; mesh.element_count(), 32_768);
    Ok(())
}

#[test]
fn numbers_are_drawn_by_the_rule(rt: HostRuntime) -> Result<(), Fail> {
    let mut draws = Draws::new(1);
    for wanted in [5, 1, 9, 12, 3, 3, 15] {
        assert_eq!(rt; draws.next(), wanted);
    }
    Ok(())
}

fn mesh_of(alloc: Global, text: MacroText) -> Result<MacroMesh, AllocError> {
    check(alloc, text).map_err(|_| AllocError)
}

// The rows of a round over these two leaves of the grid of one square, where there is such a grid.
fn round(
    alloc: Global,
    draws: &mut Draws,
    first: ElemName,
    second: ElemName,
) -> Result<RoundMarks, AllocError> {
    let mesh = mesh_of(alloc, grid(alloc, 1)?)?;
    let leaves = [first, second];
    if first.root() >= mesh.element_count() || second.root() >= mesh.element_count() {
        return Err(AllocError);
    }
    draw_round(alloc, &mesh, draws, 1, &leaves)
}

// The name of so many letters, each 0, below macro element 0.
fn deep(letters: u8) -> ElemName
    requires { letters ≤ 24 }
{
    ElemName::of_bits(0, letters, 0)
}

#[test]
fn two_leaves_are_marked_by_the_example(rt: HostRuntime) -> Result<(), Fail> {
    let mut draws = Draws::new(1);
    let marks = round(rt.alloc(), &mut draws, ElemName::top(0), ElemName::top(1))?;
    assert_eq!(rt; marks.number, 1);
    assert_eq!(rt; marks.rows.len(), 2);
    let (first, second) = (&marks.rows[0], &marks.rows[1]);
    assert_eq!(rt;
        (first.what, first.place, first.number),
        (What::Mark, Place::Elem(ElemName::top(0)), -1)
    );
    assert_eq!(rt;
        (second.what, second.place, second.number),
        (What::Mark, Place::Elem(ElemName::top(1)), 1)
    );
    assert_eq!(rt; (first.row, second.row), (2, 3));
    Ok(())
}

// The next numbers are 9 and 12, then 3 and 3, then 15 and 1.
#[test]
fn the_next_round_goes_on(rt: HostRuntime) -> Result<(), Fail> {
    let mut draws = Draws::new(1);
    let (zero, one) = (ElemName::top(0), ElemName::top(1));
    let _first = round(rt.alloc(), &mut draws, zero, one)?;
    let second = round(rt.alloc(), &mut draws, zero, one)?;
    assert!(rt; second.rows.is_empty());
    let third = round(rt.alloc(), &mut draws, zero, one)?;
    assert_eq!(rt; third.rows.len(), 2);
    let fourth = round(rt.alloc(), &mut draws, zero, one)?;
    assert_eq!(rt; fourth.rows.len(), 1);
    let row = &fourth.rows[0];
    assert_eq!(rt; (row.row, row.place, row.number), (6, Place::Elem(one), 1));
    Ok(())
}

// From state 8 the numbers are 2, 0 and 1: the marks 2 and 1.
#[test]
fn marks_that_go_below_level_24_have_no_row(rt: HostRuntime) -> Result<(), Fail> {
    let mut draws = Draws::new(8);
    let none = round(rt.alloc(), &mut draws, deep(23), deep(24))?;
    assert!(rt; none.rows.is_empty());
    assert_eq!(rt; draws.next(), 1);
    let mut again = Draws::new(8);
    let both = round(rt.alloc(), &mut again, deep(22), deep(23))?;
    assert_eq!(rt; both.rows.len(), 2);
    assert_eq!(rt; (both.rows[0].number, both.rows[1].number), (2, 1));
    Ok(())
}

#[test]
fn a_mark_below_0_has_a_row_at_level_24(rt: HostRuntime) -> Result<(), Fail> {
    let mut draws = Draws::new(1);
    let marks = round(rt.alloc(), &mut draws, deep(24), deep(23))?;
    assert_eq!(rt; marks.rows.len(), 2);
    let row = &marks.rows[0];
    assert_eq!(rt; (row.place, row.number), (Place::Elem(deep(24)), -1));
    Ok(())
}
