//! The patches that are bisected.
ghost use Rattle.std.specs.Prelude.{◌+◌, ◌<◌, ◌≤◌};
ghost use Rattle.compat_check.specs.Meshes.{shape_of};
ghost use Rattle.mesh_names.specs.Names.{depth};
ghost use Rattle.mesh_names.specs.Triangles.{size};

use compat_check::mesh::MacroMesh;
use mesh_names::name::ElemName;
use std::alloc::{AllocError, Global};

/// So many levels of a mesh are bisected whole.
pub const LEVELS: u8 = 6;

// Appends the first members of the patches that are so many letters below a name.
fn push_below(
    mesh: &MacroMesh,
    name: ElemName,
    letters: u8,
    patches: &mut Vec<ElemName>,
) -> Result<(), AllocError>
    requires root { name.0 < size (shape_of mesh.now) }
    requires room { depth name + letters ≤ 24 }
{
    if letters == 0 {
        if mesh.level(name) < 24 && mesh.patch(name).first == name {
            patches.push(name)?;
        }
        return Ok(());
    }
    push_below(mesh, name.child_at(false), letters - 1, patches)?;
    push_below(mesh, name.child_at(true), letters - 1, patches)
}

/// The first members of all patches, by levels, and in leaf order in each.
pub fn patches(alloc: Global, mesh: &MacroMesh) -> Result<Vec<ElemName>, AllocError> {
    let mut patches = Vec::new(alloc);
    for letters in 0..LEVELS {
        for root in 0..mesh.element_count() {
            push_below(mesh, ElemName::top(root), letters, &mut patches)?;
        }
    }
    Ok(patches)
}
