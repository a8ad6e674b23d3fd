//! Orienting a macro text.
ghost use Rattle.std.specs.Prelude.{◌≡◌, ℕ, ◌<◌, IfErr, IfOk, OnOk, true, false};
ghost use Rattle.macro_file.specs.Text.{macro_of};
ghost use Rattle.mesh_names.specs.Triangles.{grade_of, size};
ghost use Rattle.compat_check.specs.Checks.{IsFaultless};
ghost use Rattle.compat_check.specs.Meshes.{shape_of};
ghost use Rattle.compat_check.specs.declared.refusal.CheckRefusal.TheVariants as fault;
ghost use Rattle.mesh_orient.specs.Orients.{IsOrientRefusal, IsOriented, IsPaired, Passes, TellsNeighbours};
ghost use Rattle.mesh_orient.specs.Turns.{IsTurned};

use crate::pairing::shifts;
use crate::refusal::OrientRefusal;
use crate::turning::{copied, turned};
use compat_check::{CheckRefusal, MacroMesh, check, check_valid};
use macro_file::MacroText;
use std::alloc::{AllocError, Global};

// Whether the text is a triangulation.
fn check_triangulation(alloc: Global, text: &MacroText) -> Result<(), OrientRefusal>
    ensures ok { OnOk result (IsFaultless text.now) }
    ensures refused { IfErr result (IsOrientRefusal text.now) }
{
    match check_valid(alloc, text) {
        Ok(()) => Ok(()),
        Err(CheckRefusal::Memory) => Err(OrientRefusal::Memory),
        Err(refusal) => Err(OrientRefusal::Check { refusal }),
    }
}

// No, but for want of memory.
fn no(refusal: CheckRefusal) -> Result<bool, AllocError>
    ensures { IfOk result (λ answer. (answer ≡ false) × (refusal ≡ fault.Memory → ⊥)) }
{
    match refusal {
        CheckRefusal::Memory => Err(AllocError),
        _ => Ok(false),
    }
}

// Whether the check accepts the text.
fn is_accepted(alloc: Global, text: &MacroText) -> Result<bool, AllocError>
    ensures accepted { IfOk result (λ accepted. accepted ≡ true → Passes text.now) }
    ensures refused { IfOk result (λ accepted. accepted ≡ false → Passes text.now → ⊥) }
{
    let copy = copied(alloc, text)?;
    match check(alloc, copy) {
        Ok(_mesh) => Ok(true),
        Err(refusal) => no(refusal),
    }
}

// Whether all grades are 0.
fn has_no_grades(mesh: &MacroMesh) -> bool
    ensures { result ≡ true → (r : ℕ) → r < size (shape_of mesh.now) → grade_of (shape_of mesh.now) r ≡ 0 }
{
    for element in 0..mesh.element_count() {
        if mesh.grade(element) != 0 {
            return false;
        }
    }
    true
}

// Whether the check accepts the text, with grades of 0.
fn is_paired(alloc: Global, text: &MacroText) -> Result<bool, AllocError>
    ensures { IfOk result (λ paired. paired ≡ true → IsPaired text.now) }
{
    let copy = copied(alloc, text)?;
    match check(alloc, copy) {
        Ok(mesh) => Ok(has_no_grades(&mesh)),
        Err(refusal) => no(refusal),
    }
}

// Whether the text is a triangulation; an answer of its own for no other fault.
fn is_triangulation(alloc: Global, text: &MacroText) -> Result<bool, AllocError>
    ensures { IfOk result (λ valid. valid ≡ true → IsFaultless text.now) }
{
    match check_valid(alloc, text) {
        Ok(()) => Ok(true),
        Err(refusal) => no(refusal),
    }
}

// The elements turned so that they are paired.
fn paired(alloc: Global, text: &MacroText) -> Result<MacroText, OrientRefusal>
    requires faultless { IsFaultless text.now }
    requires refused { Passes text.now → ⊥ }
    ensures turned { IfOk result (IsTurned text.now) }
    ensures paired { IfOk result IsPaired }
    ensures neighbours { IfOk result TellsNeighbours }
    ensures refused { IfErr result (IsOrientRefusal text.now) }
{
    let shifts = shifts(alloc, text)?;
    let made = turned(alloc, text, &shifts)?;
    if is_triangulation(alloc, &made)? && is_paired(alloc, &made)? {
        Ok(made)
    } else {
        Err(OrientRefusal::NotFound)
    }
}

/// The text with its elements turned so that the check accepts it: each keeps its corners in their
/// cyclic order, and each edge its label and its given neighbour. A text that the check accepts stays
/// as it is. In any other two elements at a refinement edge have it both, and all grades are 0.
/// Takes n log n steps for n elements, and those of the search for a pairing.
pub fn orient(alloc: Global, text: &MacroText) -> Result<MacroText, OrientRefusal>
    ensures oriented { IfOk result (IsOriented text.now) }
    ensures refused { IfErr result (IsOrientRefusal text.now) }
{
    check_triangulation(alloc, text)?;
    if is_accepted(alloc, text)? {
        let made = copied(alloc, text)?;
        return Ok(made);
    }
    paired(alloc, text)
}
