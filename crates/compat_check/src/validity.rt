//! The check of a macro text as a triangulation, whose refinement edges may fit together or not.
ghost use Rattle.std.specs.Prelude.{IfErr, IfOk, OnOk};
ghost use Rattle.compat_check.specs.Checks.{AreEdgeLabels, AsksNoGrades, IsCheckRefusal, IsFaultless};

use crate::checking::{check_neighbours, corners_of, labels, valid_sides};
use crate::refusal::CheckRefusal;
use macro_file::MacroText;
use std::alloc::{AllocError, Global};

/// Whether a macro text is a triangulation: the refusals of `check` up to `NeighboursDiffer`, in
/// their order, and want of memory. Nothing is asked of the refinement edges. Takes n log n steps
/// for n elements.
pub fn check_valid(alloc: Global, text: &MacroText) -> Result<(), CheckRefusal>
    ensures ok { OnOk result (IsFaultless text.now) }
    ensures refused { IfErr result (λ refusal. AsksNoGrades refusal × IsCheckRefusal text.now refusal) }
{
    edge_labels(alloc, text)?;
    Ok(())
}

/// The labels of all edges of a triangulation: those that the text gives, or else 1 on the boundary
/// and 0 inside. It is refused as `check_valid` refuses it.
pub fn edge_labels(alloc: Global, text: &MacroText) -> Result<Vec<[i8; 3]>, CheckRefusal>
    ensures ok { OnOk result (IsFaultless text.now) }
    ensures labels { IfOk result (λ labels. AreEdgeLabels text.now labels.items) }
    ensures refused { IfErr result (λ refusal. AsksNoGrades refusal × IsCheckRefusal text.now refusal) }
{
    let triples = corners_of(alloc, &text.elements)?;
    let sides = valid_sides(alloc, &text.vertices, &triples)?;
    check_neighbours(text.neighbours_given, &text.elements, &sides)?;
    let labels = labels(alloc, text.labels_given, &text.elements, &sides)?;
    Ok(labels)
}
