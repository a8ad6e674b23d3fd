//! The leaves of a forest.
ghost use Rattle.std.specs.Prelude.{IfOk};
ghost use Rattle.mesh_names.specs.Forests.{IsForest, IsListOf};
ghost use Rattle.mesh_names.specs.Leaves.{leaves};
ghost use Rattle.compat_check.specs.Meshes.{shape_of};

use crate::held::HeldNames;
use compat_check::mesh::MacroMesh;
use forest_plain::leaves::leaves_beside;
use mesh_names::name::ElemName;
use std::alloc::{AllocError, Global};

/// The leaves in the order of names.
pub(crate) fn leaf_list(
    alloc: Global,
    mesh: &MacroMesh,
    members: &HeldNames,
) -> Result<Vec<ElemName>, AllocError>
    requires { IsForest (shape_of mesh.now) members.now }
    ensures { IfOk result (λ v. IsListOf (leaves (shape_of mesh.now) members.now) v.items) }
{
    let names = members.to_vec(alloc, mesh.element_count())?;
    let mut finder = members.finder();
    leaves_beside(alloc, mesh, &mut finder, &names)
}
