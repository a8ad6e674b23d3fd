//! What coarsening takes away from a refined forest.
ghost use Rattle.std.specs.Prelude.{IfOk};
ghost use Rattle.std.specs.FinSet as set;
ghost use Rattle.mesh_names.specs.Forests.{Within};
ghost use Rattle.mesh_names.specs.Coarsening.{IsCoarsened, MarkedForest};
ghost use Rattle.compat_check.specs.Meshes.{across_in, shape_of};
ghost use Rattle.forest_plain.specs.LeafMarks.{marked_so};
ghost use Rattle.forest_plain.specs.Coarsening.{IsReached, IsUnderway};

use crate::held::HeldNames;
use crate::lessened::Lessened;
use compat_check::mesh::MacroMesh;
use forest_plain::coarsening::coarsen;
use forest_plain::leaf_marks::LeafMarks;
use forest_plain::name_set::NameSet;
use std::alloc::{AllocError, Global};

/// The members that coarsening takes away; `fresh` are those that the round added.
pub(crate) fn coarsen_away(
    alloc: Global,
    mesh: &MacroMesh,
    members: &HeldNames,
    fresh: &NameSet,
    marks: LeafMarks,
) -> Result<NameSet, AllocError>
    requires { IsUnderway (shape_of mesh.now) (across_in mesh.now) (marked_so (set.union members.now fresh.now) marks) marks.parents.items }
    ensures within { IfOk result (λ gone. Within gone (set.union members.now fresh.now)) }
    ensures coarsened { IfOk result (λ gone. (first : MarkedForest) → IsReached (across_in mesh.now) first (marked_so (set.union members.now fresh.now) marks) → IsCoarsened (across_in mesh.now) first (set.difference (set.union members.now fresh.now) gone)) }
{
    let mut marks = marks;
    let mut lessened = Lessened::new(alloc, members, fresh);
    coarsen(mesh, &mut lessened, &mut marks)?;
    Ok(lessened.into_gone())
}
