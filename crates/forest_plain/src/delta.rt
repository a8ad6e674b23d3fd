//! What a round adds to a forest, and what it takes away.
ghost use Rattle.std.specs.Prelude.{◌≡◌, [], ◌∷◌, ◌++◌, All, IfOk, OnOk};
ghost use Rattle.mesh_names.specs.Forests.{Has, IsInMesh};
ghost use Rattle.mesh_names.specs.Names.{Name};
ghost use Rattle.mesh_names.specs.Patches.{owns, patch_count, patch_of};
ghost use Rattle.compat_check.specs.Meshes.{across_in, shape_of};
ghost use Rattle.forest_plain.specs.Deltas.{new_owners, owns_new, patches_at, patches_below, patches_down};

use crate::name_set::NameSet;
use compat_check::mesh::MacroMesh;
use mesh_names::name::ElemName;
use mesh_names::patch::PatchName;
use std::alloc::{AllocError, Global};

/// The number of patches. Takes no memory.
pub fn count_patches(mesh: &MacroMesh, members: &NameSet) -> usize
    requires { (n : Name) → Has members.now n → IsInMesh (shape_of mesh.now) n }
    ensures { result ≡ patch_count (across_in mesh.now) members.now }
{
    let mut count = 0;
    for name in members.names.iter() {
        if is_owner(mesh, *name) {
            count += 1;
        }
    }
    count
}

// Whether the name has no partner, or comes before it.
fn is_owner(mesh: &MacroMesh, name: ElemName) -> bool
    requires { IsInMesh (shape_of mesh.now) name }
    ensures { result ≡ owns (across_in mesh.now) name }
{
    match mesh.partner(name) {
        None => true,
        Some(partner) => name < partner,
    }
}

/// The patches that are not in the old forest, by level and then by owner; `names` are the
/// members of the refined one.
pub fn born_patches(
    alloc: Global,
    mesh: &MacroMesh,
    old: &NameSet,
    names: &[ElemName],
) -> Result<Vec<PatchName>, AllocError>
    requires { All (IsInMesh (shape_of mesh.now)) names.now }
    ensures { IfOk result (λ v. v.items ≡ patches_below (shape_of mesh.now) (across_in mesh.now) 24 (new_owners (across_in mesh.now) old.now names.now)) }
{
    let owners = owners_of_new(alloc, mesh, old, names)?;
    by_level(alloc, mesh, &owners)
}

/// The patches that are not in the coarsened forest, by level from the greatest down and then by
/// owner; `names` are the members of the refined one.
pub fn died_patches(
    alloc: Global,
    mesh: &MacroMesh,
    coarsened: &NameSet,
    names: &[ElemName],
) -> Result<Vec<PatchName>, AllocError>
    requires { All (IsInMesh (shape_of mesh.now)) names.now }
    ensures { IfOk result (λ v. v.items ≡ patches_down (shape_of mesh.now) (across_in mesh.now) 24 (new_owners (across_in mesh.now) coarsened.now names.now)) }
{
    let owners = owners_of_new(alloc, mesh, coarsened, names)?;
    from_greatest_level(alloc, mesh, &owners)
}

// The owners of patches that are not in the other forest.
fn owners_of_new(
    alloc: Global,
    mesh: &MacroMesh,
    old: &NameSet,
    names: &[ElemName],
) -> Result<Vec<ElemName>, AllocError>
    requires { All (IsInMesh (shape_of mesh.now)) names.now }
    ensures owners { IfOk result (λ v. v.items ≡ new_owners (across_in mesh.now) old.now names.now) }
    ensures mesh { IfOk result (λ v. All (IsInMesh (shape_of mesh.now)) v.items) }
{
    let mut owners = Vec::new(alloc);
    for name in names {
        if owns_new(mesh, old, *name) {
            owners.push(*name)?;
        }
    }
    Ok(owners)
}

// Whether the name owns a patch that is not in the other forest.
fn owns_new(mesh: &MacroMesh, old: &NameSet, name: ElemName) -> bool
    requires { IsInMesh (shape_of mesh.now) name }
    ensures { result ≡ owns_new (across_in mesh.now) old.now name }
{
    !old.contains(name) && is_owner(mesh, name)
}

// The patches of these owners, level by level.
fn by_level(
    alloc: Global,
    mesh: &MacroMesh,
    owners: &[ElemName],
) -> Result<Vec<PatchName>, AllocError>
    requires { All (IsInMesh (shape_of mesh.now)) owners.now }
    ensures { IfOk result (λ v. v.items ≡ patches_below (shape_of mesh.now) (across_in mesh.now) 24 owners.now) }
{
    let mut patches = Vec::new(alloc);
    for level in 0..24 {
        add_level(mesh, level, owners, &mut patches)?;
    }
    Ok(patches)
}

// The patches of these owners, level by level from the greatest down.
fn from_greatest_level(
    alloc: Global,
    mesh: &MacroMesh,
    owners: &[ElemName],
) -> Result<Vec<PatchName>, AllocError>
    requires { All (IsInMesh (shape_of mesh.now)) owners.now }
    ensures { IfOk result (λ v. v.items ≡ patches_down (shape_of mesh.now) (across_in mesh.now) 24 owners.now) }
{
    let mut patches = Vec::new(alloc);
    for above in 0..24 {
        add_level(mesh, 23 - above, owners, &mut patches)?;
    }
    Ok(patches)
}

// Appends the patches of the owners of one level.
fn add_level(
    mesh: &MacroMesh,
    level: u32,
    owners: &[ElemName],
    patches: &mut Vec<PatchName>,
) -> Result<(), AllocError>
    requires { All (IsInMesh (shape_of mesh.now)) owners.now }
    ensures { OnOk result (patches.new.items ≡ patches.old.items ++ patches_at (shape_of mesh.now) (across_in mesh.now) level owners.now) }
{
    for owner in owners {
        if mesh.level(*owner) == level {
            push_patch(mesh, *owner, patches)?;
        }
    }
    Ok(())
}

// Appends the patch of an owner.
fn push_patch(
    mesh: &MacroMesh,
    owner: ElemName,
    patches: &mut Vec<PatchName>,
) -> Result<(), AllocError>
    requires { IsInMesh (shape_of mesh.now) owner }
    ensures { OnOk result (patches.new.items ≡ patches.old.items ++ patch_of (across_in mesh.now) owner ∷ []) }
{
    let PatchName { first, second } = mesh.patch(owner);
    patches.push(PatchName { first, second })?;
    Ok(())
}
