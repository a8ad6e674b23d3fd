//! Grids as macro texts.
ghost use Rattle.std.specs.Prelude.{◌≡◌, ◌+◌, ◌*◌, ◌<◌, ◌≤◌, IfOk, All, map};
ghost use Rattle.std.specs.List.{range_with_len};
ghost use Rattle.macro_file.specs.Text.{vertex_of, element_of, macro_of};
ghost use Rattle.soak.specs.Grid.{corners_at as corners_of_number, element_at as element_of_number, first_of, grid as grid_of, lower, upper, vertex_at as vertex_of_number};

use macro_file::{MacroElem, MacroText, MacroVertex};
use std::alloc::{AllocError, Global};

/// One unit of length in fine units.
const UNIT: i64 = 40_960_000_000_000;

// The vertex of this number.
fn vertex_at(side: u32, number: u32) -> MacroVertex
    requires { (side ≤ 128) × (number ≤ 65535) }
    ensures { vertex_of result ≡ vertex_of_number side number }
{
    let across = side + 1;
    MacroVertex {
        x: i64::from(number % across) * UNIT,
        y: i64::from(number / across) * UNIT,
        value: i64::from(number),
    }
}

// The vertex of least number of a square.
fn first_of(side: u32, square: u32) -> u32
    requires { (side ≤ 128) × (square < side * side) }
    ensures first { result ≡ first_of side square }
    ensures small { result ≤ 16511 }
{
    square / side * (side + 1) + square % side
}

// The corners of the element of this number.
fn corners_at(side: u32, number: u32) -> [u32; 3]
    requires { (side ≤ 128) × (number < 2 * (side * side)) }
    ensures corners { result ≡ corners_of_number side number }
    ensures small { All (λ c. c ≤ 65535) result }
{
    let first = first_of(side, number / 2);
    if number % 2 == 0 {
        [first + side + 2, first, first + 1]
    } else {
        [first, first + side + 2, first + side + 1]
    }
}

// The element of this number.
fn element_at(side: u32, number: u32) -> MacroElem
    requires { (side ≤ 128) × (number < 2 * (side * side)) }
    ensures { element_of result ≡ element_of_number side number }
{
    MacroElem {
        corners: corners_at(side, number),
        labels: [0; 3],
        neighbours: [0; 3],
        value: i64::from(number),
    }
}

fn vertices(alloc: Global, side: u32) -> Result<Vec<MacroVertex>, AllocError>
    requires { side ≤ 128 }
    ensures { IfOk result (λ v. map vertex_of v.items ≡ map (vertex_of_number side) (range_with_len 0 ((side + 1) * (side + 1)))) }
{
    let mut vertices = Vec::new(alloc);
    for number in 0..(side + 1) * (side + 1) {
        vertices.push(vertex_at(side, number))?;
    }
    Ok(vertices)
}

fn elements(alloc: Global, side: u32) -> Result<Vec<MacroElem>, AllocError>
    requires { side ≤ 128 }
    ensures { IfOk result (λ v. map element_of v.items ≡ map (element_of_number side) (range_with_len 0 (2 * (side * side)))) }
{
    let mut elements = Vec::new(alloc);
    for number in 0..2 * (side * side) {
        elements.push(element_at(side, number))?;
    }
    Ok(elements)
}

/// The grid of `side` squares by `side`, each cut into two triangles along its diagonal, as a
/// macro text. Each vertex and each element has its own number as value.
pub fn grid(alloc: Global, side: u32) -> Result<MacroText, AllocError>
    requires { (1 ≤ side) × (side ≤ 128) }
    ensures { IfOk result (λ t. macro_of t ≡ grid_of side) }
{
    Ok(MacroText {
        vertices: vertices(alloc, side)?,
        elements: elements(alloc, side)?,
        labels_given: false,
        neighbours_given: false,
    })
}
