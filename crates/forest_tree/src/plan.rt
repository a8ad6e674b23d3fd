//! What a round leads to, before the forest is changed.
ghost use Rattle.std.specs.Prelude.{◌≡◌, ◌≤◌, All, IfErr, IfOk};
ghost use Rattle.std.specs.FinSet as set;
ghost use Rattle.mesh_names.specs.Forests.{IsForest};
ghost use Rattle.mesh_names.specs.Marks.{IsWellFormed};
ghost use Rattle.mesh_names.specs.Patches.{patch_count};
ghost use Rattle.compat_check.specs.Meshes.{across_in, shape_of};
ghost use Rattle.forest_plain.specs.Coarsening.{IsUnderway};
ghost use Rattle.forest_plain.specs.LeafMarks.{marked_so};
ghost use Rattle.forest_plain.specs.Rounds.{IsRoundRefusal, Stands};
ghost use Rattle.forest_tree.specs.Apart.{IsApart};
ghost use Rattle.forest_tree.specs.Plans.{IsChange, IsPlan, room_of};

use crate::coarsened::coarsen_away;
use crate::held::HeldNames;
use crate::refining::{Refinement, refine};
use crate::rows::try_all;
use compat_check::mesh::MacroMesh;
use forest_plain::delta::{born_patches, count_patches, died_patches};
use forest_plain::name_set::NameSet;
use forest_plain::refusal::RoundRefusal;
use mesh_names::name::ElemName;
use mesh_names::patch::RoundDelta;
use mesh_names::rows::MarkRow;
use std::alloc::{AllocError, Global};

/// What a round leads to: the members that it adds, those that it then takes away, the same as
/// patches, and how many patches there are afterwards.
#[derive(Drop)]
pub struct Plan {
    pub(crate) fresh: Vec<ElemName>,
    pub(crate) gone: Vec<ElemName>,
    pub(crate) delta: RoundDelta,
    pub(crate) patches: u32,
}

/// Plans a round on a forest of so many patches.
pub(crate) fn plan_round(
    alloc: Global,
    mesh: &MacroMesh,
    pool: u32,
    patches: u32,
    members: &HeldNames,
    rows: &[MarkRow],
) -> Result<Plan, RoundRefusal>
    requires stands { Stands (shape_of mesh.now) (across_in mesh.now) pool members.now }
    requires counted { patches ≡ patch_count (across_in mesh.now) members.now }
    requires formed { All IsWellFormed rows.now }
    ensures ok { IfOk result (IsPlan (shape_of mesh.now) (across_in mesh.now) pool members.now rows.now) }
    ensures refused { IfErr result (IsRoundRefusal (shape_of mesh.now) (across_in mesh.now) (room_of pool) members.now rows.now) }
{
    let _checked = mesh.element_count();
    if let Err(refusal) = try_all(alloc, mesh, members, rows) {
        return Err(refusal);
    }
    let refinement = refine(alloc, mesh, members, rows)?;
    let needed = (patches as usize).saturating_add(count_patches(mesh, &refinement.fresh));
    if needed > pool as usize {
        return Err(RoundRefusal::PoolFull {
            needed: needed.min(4_294_967_295) as u32,
            kept: 0,
            pool,
        });
    }
    let change = change(alloc, mesh, members, refinement, needed as u32)?;
    Ok(change)
}

// Coarsens a refined forest of so many patches, and tells what has changed.
fn change(
    alloc: Global,
    mesh: &MacroMesh,
    members: &HeldNames,
    refinement: Refinement,
    patches: u32,
) -> Result<Plan, AllocError>
    requires forest { IsForest (shape_of mesh.now) (set.union members.now refinement.fresh) }
    requires underway { IsUnderway (shape_of mesh.now) (across_in mesh.now) (marked_so (set.union members.now refinement.fresh) refinement.marks) refinement.marks.parents.items }
    requires apart { IsApart members.now refinement.fresh }
    requires counted { patches ≡ patch_count (across_in mesh.now) (set.union members.now refinement.fresh) }
    ensures { IfOk result (IsChange (shape_of mesh.now) (across_in mesh.now) members.now refinement) }
{
    let _checked = mesh.element_count();
    let Refinement { fresh, marks } = refinement;
    let gone = coarsen_away(alloc, mesh, members, &fresh, marks)?;
    let nothing = NameSet::new(alloc);
    let names = fresh.to_vec(alloc)?;
    let born = born_patches(alloc, mesh, &nothing, &names)?;
    let lost = gone.to_vec(alloc)?;
    let died = died_patches(alloc, mesh, &nothing, &lost)?;
    Ok(Plan {
        fresh: names,
        gone: lost,
        delta: RoundDelta { born, died },
        patches: patches - count_patches(mesh, &gone) as u32,
    })
}
