//! The overlay of two forests over one macro mesh.
ghost use Rattle.std.specs.Prelude.{◌≡◌, ◌≢◌, ◌≤◌, ◌+◌, IfErr, IfNone, IfOk, IfSome, length};
ghost use Rattle.mesh_names.specs.LeastForest.{IsLeast};
ghost use Rattle.compat_check.specs.Meshes.{shape_of};
ghost use Rattle.restart_file.specs.Kept.{IsKept, set_of};
ghost use Rattle.restart_file.specs.Joined.{IsJoined, KeepsForest};
ghost use Rattle.restart_file.specs.LeafCounts.{HasFewLeaves};
ghost use Rattle.restart_file.specs.Merges.{IsMerge};

use crate::reading::Restart;
use crate::refusal::RestartRefusal;
use crate::writing::put_restart;
use compat_check::MacroMesh;
use mesh_names::name::ElemName;
use std::alloc::{AllocError, Global};

// The names of two sorted lists, each once, in order.
fn merge(
    alloc: Global,
    first: &[ElemName],
    second: &[ElemName],
) -> Result<Vec<ElemName>, AllocError>
    ensures { IfOk result (λ v. IsMerge v.items first.now second.now) }
{
    let mut both = Vec::new(alloc);
    both.try_reserve(first.len().max(second.len()))?;
    let mut i = 0;
    let mut j = 0;
    while i < first.len() && j < second.len() {
        let one = first[i];
        let other = second[j];
        let order = one.cmp(&other);
        let least = if order.is_gt() { other } else { one };
        both.push(least)?;
        i += order.is_le() as usize;
        j += order.is_ge() as usize;
    }
    both.extend_from_slice(&first[i..])?;
    both.extend_from_slice(&second[j..])?;
    Ok(both)
}

/// The least conforming forest that holds two conforming forests over one mesh: the two together.
/// All three are lists of members in order. It has at most as many leaves as both together less the
/// macro elements. Takes one walk over both lists.
pub fn overlay(
    alloc: Global,
    mesh: &MacroMesh,
    first: &[ElemName],
    second: &[ElemName],
) -> Result<Vec<ElemName>, RestartRefusal>
    requires first { IsKept (shape_of mesh.now) first.now }
    requires second { IsKept (shape_of mesh.now) second.now }
    ensures kept { IfOk result (λ v. IsKept (shape_of mesh.now) v.items) }
    ensures least { IfOk result (λ v. IsLeast (shape_of mesh.now) (set_of first.now) (set_of second.now) (set_of v.items)) }
    ensures few { IfOk result (λ v. length v.items ≤ length first.now + length second.now) }
    ensures leaves { IfOk result (λ v. HasFewLeaves (shape_of mesh.now) first.now second.now v.items) }
    ensures err { IfErr result (λ r. r ≡ RestartRefusal.Memory) }
{
    let _count = mesh.element_count();
    let both = merge(alloc, first, second)?;
    Ok(both)
}

/// The restart file of the overlay of two, with the macro bytes of the first; `None` exactly where
/// their macro bytes differ.
pub fn join(
    alloc: Global,
    first: &Restart,
    second: &Restart,
) -> Result<Option<Vec<u8>>, RestartRefusal>
    requires first { KeepsForest first.now.macro_bytes.items first.now.mesh first.now.members.items }
    requires second { KeepsForest second.now.macro_bytes.items second.now.mesh second.now.members.items }
    ensures differ { IfOk result (λ o. IfNone o (first.now.macro_bytes.items ≢ second.now.macro_bytes.items)) }
    ensures alike { IfOk result (λ o. IfSome o (λ v. first.now.macro_bytes.items ≡ second.now.macro_bytes.items)) }
    ensures joined { IfOk result (λ o. IfSome o (λ v. IsJoined v.items first.now.macro_bytes.items first.now.mesh first.now.members.items second.now.members.items)) }
    ensures err { IfErr result (λ r. r ≡ RestartRefusal.Memory) }
{
    if first.macro_bytes.as_slice() != second.macro_bytes.as_slice() {
        return Ok(None);
    }
    let members = overlay(alloc, &first.mesh, &first.members, &second.members)?;
    let file = put_restart(alloc, &first.macro_bytes, &first.mesh, &members)?;
    Ok(Some(file))
}
