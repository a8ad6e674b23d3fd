//! A forest that is given whole: its patches, and its values.
ghost use Rattle.std.specs.Prelude.{◌≡◌, IfOk};
ghost use Rattle.std.specs.FinSet.{from_list};
ghost use Rattle.std.specs.List.Sorted.{IsStrictlySortedBy};
ghost use Rattle.mesh_names.specs.Names.{name_cmp};
ghost use Rattle.mesh_names.specs.Forests.{IsForest, IsInMesh, Names};
ghost use Rattle.mesh_names.specs.Patches.{owns, patch_count};
ghost use Rattle.compat_check.specs.Meshes.{across_in, shape_of};
ghost use Rattle.mesh_rounds.specs.Resumed.{IsResumed, IsWhole};
ghost use Rattle.mesh_rounds.specs.State.{IsState, with_values};

use crate::values::Values;
use compat_check::mesh::MacroMesh;
use dof_transfer::TransferRefusal;
use mesh_names::name::ElemName;
use mesh_names::patch::RoundDelta;
use std::alloc::Global;

/// The values of a forest to which these patches lead from the macro mesh: those of the macro mesh,
/// as they go along with one round that bisects the patches in order. Takes time by the patches.
pub fn resumed(
    alloc: Global,
    mesh: &MacroMesh,
    delta: &RoundDelta,
) -> Result<Values, TransferRefusal>
    requires { (members : Names) × IsWhole mesh.now members delta.now }
    ensures resumed { IfOk result (λ values. (members : Names) → IsWhole mesh.now members delta.now → IsResumed mesh.now (with_values members values)) }
    ensures state { IfOk result (λ values. (members : Names) → IsWhole mesh.now members delta.now → IsState mesh.now (with_values members values)) }
{
    let _checked = mesh.element_count();
    let mut values = Values::new(alloc, mesh)?;
    values.follow(mesh, delta)?;
    Ok(values)
}

// Whether the name has no partner, or comes before it.
fn is_owner(mesh: &MacroMesh, name: ElemName) -> bool
    requires { IsInMesh (shape_of mesh.now) name }
    ensures { result ≡ owns (across_in mesh.now) name }
{
    match mesh.partner(name) {
        None => true,
        Some(partner) => name < partner,
    }
}

/// How many patches a forest has whose members these are, in order. Takes no memory.
pub fn count_patches(mesh: &MacroMesh, members: &[ElemName]) -> usize
    requires forest { IsForest (shape_of mesh.now) (from_list members.now) }
    requires in_order { IsStrictlySortedBy name_cmp members.now }
    ensures { result ≡ patch_count (across_in mesh.now) (from_list members.now) }
{
    let mut count = 0;
    for name in members {
        if is_owner(mesh, *name) {
            count += 1;
        }
    }
    count
}
