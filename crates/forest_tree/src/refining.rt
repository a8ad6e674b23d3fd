//! The refined forest of a round, beside the old one.
ghost use Rattle.std.specs.Prelude.{◌≡◌, All, IfOk};
ghost use Rattle.mesh_names.specs.Forests.{IsForest};
ghost use Rattle.mesh_names.specs.Conformity.{HoldsPartners};
ghost use Rattle.mesh_names.specs.Marks.{IsWellFormed};
ghost use Rattle.compat_check.specs.Meshes.{across_in, shape_of};
ghost use Rattle.forest_plain.specs.Refined.{IsReady};
ghost use Rattle.forest_plain.specs.Rounds.{IsFine};
ghost use Rattle.forest_tree.specs.Apart.{IsApart};
ghost use Rattle.forest_tree.specs.Refinement.{refined_by};

use crate::grown::Grown;
use crate::held::HeldNames;
use crate::marked::marked_leaves;
use compat_check::mesh::MacroMesh;
use forest_plain::closing::close;
use forest_plain::leaf_marks::LeafMarks;
use forest_plain::marks::Marks;
use forest_plain::name_set::NameSet;
use forest_plain::needs::needed_names;
use mesh_names::rows::MarkRow;
use std::alloc::{AllocError, Global};

/// The new members of a refined forest, and the marks of its leaves by which it is coarsened.
#[derive(Drop)]
pub struct Refinement {
    pub(crate) fresh: NameSet,
    pub(crate) marks: LeafMarks,
}

/// The least forest, where the rows can be done, with the marks of its leaves.
pub(crate) fn refine(
    alloc: Global,
    mesh: &MacroMesh,
    members: &HeldNames,
    rows: &[MarkRow],
) -> Result<Refinement, AllocError>
    requires forest { IsForest (shape_of mesh.now) members.now }
    requires partners { HoldsPartners (across_in mesh.now) members.now }
    requires fine { All (IsFine (shape_of mesh.now) members.now) rows.now }
    requires formed { All IsWellFormed rows.now }
    ensures apart { IfOk result (λ r. IsApart members.now r.fresh) }
    ensures ready { IfOk result (λ r. IsReady (shape_of mesh.now) (across_in mesh.now) members.now rows.now (refined_by members.now r)) }
{
    let _checked = mesh.element_count();
    let list = marked_leaves(alloc, mesh, members, rows)?;
    let marks = Marks::of_rows(alloc, rows)?;
    let needed = needed_names(alloc, &list, &marks)?;
    let mut grown = Grown::new(alloc, members);
    close(mesh, &mut grown, needed)?;
    let fresh = grown.into_fresh();
    let leaf_marks = LeafMarks::of_leaves(alloc, &list, &marks, &fresh)?;
    Ok(Refinement {
        fresh,
        marks: leaf_marks,
    })
}
