//! Coarsening: patches are taken away while the marks of their members' children are below 0.
ghost use Rattle.std.specs.Prelude.{◌≡◌, ◌++◌, ◌∷◌, [], OnOk};
ghost use Rattle.mesh_names.specs.Coarsening.{IsCoarsened, MarkedForest};
ghost use Rattle.compat_check.specs.Meshes.{across_in, shape_of};
ghost use Rattle.forest_plain.specs.LeafMarks.{marked_so};
ghost use Rattle.forest_plain.specs.Coarsening.{IsReached, IsUnderway};
ghost use Rattle.forest_plain.specs.Tried.{IsTried};

use crate::leaf_marks::LeafMarks;
use crate::names::Shrinking;
use compat_check::mesh::MacroMesh;
use mesh_names::name::ElemName;
use std::alloc::AllocError;

/// Takes away each patch that can go, and then each that this makes fit to go, until none can.
pub fn coarsen<S: Shrinking>(
    mesh: &MacroMesh,
    members: &mut S,
    marks: &mut LeafMarks,
) -> Result<(), AllocError>
    requires { IsUnderway (shape_of mesh.now) (across_in mesh.now) (marked_so (S.left members.old) marks.old) marks.old.parents.items }
    ensures whole { S.whole members.new ≡ S.whole members.old }
    ensures coarsened { OnOk result ((first : MarkedForest) → IsReached (across_in mesh.now) first (marked_so (S.left members.old) marks.old) → IsCoarsened (across_in mesh.now) first (S.left members.new)) }
{
    let _count = mesh.element_count();
    while let Some(name) = marks.parents.pop() {
        try_patch(mesh, members, marks, name)?;
    }
    Ok(())
}

// Takes away the patch of a name, if it can go. Its members are leaves then, and their parents are
// to be tried.
fn try_patch<S: Shrinking>(
    mesh: &MacroMesh,
    members: &mut S,
    marks: &mut LeafMarks,
    name: ElemName,
) -> Result<(), AllocError>
    requires { IsUnderway (shape_of mesh.now) (across_in mesh.now) (marked_so (S.left members.old) marks.old) (marks.old.parents.items ++ name ∷ []) }
    ensures whole { S.whole members.new ≡ S.whole members.old }
    ensures tried { OnOk result (IsTried (shape_of mesh.now) (across_in mesh.now) (marked_so (S.left members.old) marks.old) (marked_so (S.left members.new) marks.new) marks.old.parents.items marks.new.parents.items) }
{
    let _count = mesh.element_count();
    if !members.is_left(name) {
        return Ok(());
    }
    let Some(mark) = marks.joined(name) else {
        return Ok(());
    };
    let Some(partner) = mesh.partner(name) else {
        members.take_away(name)?;
        marks.add(name, mark)?;
        return Ok(());
    };
    let Some(other) = marks.joined(partner) else {
        return Ok(());
    };
    members.take_away(name)?;
    members.take_away(partner)?;
    marks.add(name, mark)?;
    marks.add(partner, other)?;
    Ok(())
}
