//! Mending a macro text.
ghost use Rattle.std.specs.Prelude.{◌≡◌, IfErr, IfOk, OnOk, map};
ghost use Rattle.macro_file.specs.Text.{macro_of, vertex_of};
ghost use Rattle.compat_check.specs.Checks.{AreEdgeLabels, AtNoEdge, IsFaultless, count_of, triples_of};
ghost use Rattle.mesh_mend.specs.Centres.{centre_at};
ghost use Rattle.mesh_mend.specs.Mended.{mended};
ghost use Rattle.mesh_mend.specs.Promises.{HasNoGrades, KeepsSums, Passes};
ghost use Rattle.mesh_mend.specs.Refusals.{Fits, IsFlatPiece, IsMendRefusal, IsMendable};

use crate::centres::{centres, joined};
use crate::cutting::pieces;
use crate::flatness::first_flat;
use crate::refusal::MendRefusal;
use compat_check::{CheckRefusal, edge_labels};
use macro_file::{MacroText, MacroVertex};
use std::alloc::{AllocError, Global};

/// The most vertices, and elements, of a macro text.
const MOST: usize = 65_535;

// The labels of all edges, where the text is a triangulation.
fn labels_of(alloc: Global, text: &MacroText) -> Result<Vec<[i8; 3]>, MendRefusal>
    ensures ok { OnOk result (IsFaultless text.now) }
    ensures labels { IfOk result (λ labels. AreEdgeLabels text.now labels.items) }
    ensures refused { IfErr result (IsMendRefusal text.now) }
{
    match edge_labels(alloc, text) {
        Ok(labels) => Ok(labels),
        Err(CheckRefusal::Memory) => Err(MendRefusal::Memory),
        Err(refusal) => Err(MendRefusal::Check { refusal }),
    }
}

// Whether the mended text is not too large.
fn check_size(text: &MacroText) -> Result<(), MendRefusal>
    requires { IsFaultless text.now }
    ensures ok { OnOk result (Fits text.now) }
    ensures refused { IfErr result (IsMendRefusal text.now) }
{
    let vertices = text.vertices.len() + text.elements.len();
    let elements = text.elements.len() * 3;
    if vertices > MOST || elements > MOST {
        return Err(MendRefusal::TooLarge {
            vertices: vertices as u64,
            elements: elements as u64,
        });
    }
    Ok(())
}

// Whether each piece has an area.
fn check_pieces(text: &MacroText, centres: &[MacroVertex]) -> Result<(), MendRefusal>
    requires faultless { IsFaultless text.now }
    requires fits { Fits text.now }
    requires centres { map vertex_of centres.now ≡ map (centre_at text.now.vertices.items) (triples_of text.now) }
    ensures ok { OnOk result (AtNoEdge (count_of text.now) (IsFlatPiece text.now)) }
    ensures refused { IfErr result (IsMendRefusal text.now) }
{
    match first_flat(&text.vertices, &text.elements, centres) {
        None => Ok(()),
        Some(number) => Err(MendRefusal::FlatPiece {
            element: (number / 3) as u32,
            edge: (number % 3) as u8,
        }),
    }
}

// The mended text of these labels and centres.
fn assemble(
    alloc: Global,
    text: &MacroText,
    labels: &[[i8; 3]],
    centres: Vec<MacroVertex>,
) -> Result<MacroText, AllocError>
    requires faultless { IsFaultless text.now }
    requires fits { Fits text.now }
    requires labels { AreEdgeLabels text.now labels.now }
    requires centres { map vertex_of centres.items ≡ map (centre_at text.now.vertices.items) (triples_of text.now) }
    ensures { IfOk result (λ made. macro_of made ≡ mended text.now) }
{
    let vertices = joined(alloc, &text.vertices, centres)?;
    let elements = pieces(alloc, text, labels)?;
    Ok(MacroText {
        vertices,
        elements,
        labels_given: true,
        neighbours_given: false,
    })
}

/// The mended text: each element is cut at its centre into three, one at each edge, which is the
/// refinement edge of its piece. The vertices stay, and the centres follow them, with coordinates and
/// values rounded down; pieces keep the labels of the old edges, and share their element's value.
/// Takes n log n steps for n elements.
pub fn mend(alloc: Global, text: &MacroText) -> Result<MacroText, MendRefusal>
    ensures mendable { OnOk result (IsMendable text.now) }
    ensures mended { IfOk result (λ made. macro_of made ≡ mended text.now) }
    ensures passes { IfOk result Passes }
    ensures grades { IfOk result HasNoGrades }
    ensures sums { IfOk result (KeepsSums text.now) }
    ensures refused { IfErr result (IsMendRefusal text.now) }
{
    let labels = labels_of(alloc, text)?;
    check_size(text)?;
    let centres = centres(alloc, &text.vertices, &text.elements)?;
    check_pieces(text, &centres)?;
    let made = assemble(alloc, text, &labels, centres)?;
    Ok(made)
}
