//! The leaves of a forest.
ghost use Rattle.std.specs.Prelude.{◌≡◌, ◌<◌, ◌↔◌, ◌++◌, [], cond, All, List, IfOk, OnOk, IsTrue};
ghost use Rattle.std.specs.FinSet as set;
ghost use Rattle.mesh_names.specs.Names.{Name, depth};
ghost use Rattle.mesh_names.specs.Triangles.{size};
ghost use Rattle.mesh_names.specs.Forests.{IsForest, IsLeaf, IsListOf};
ghost use Rattle.mesh_names.specs.Leaves.{children, leaves, tops};
ghost use Rattle.compat_check.specs.Meshes.{shape_of};
ghost use Rattle.forest_plain.specs.Rounds.{IsUnsplit, set_of};

use crate::name_set::NameSet;
use crate::names::Asked;
use compat_check::mesh::MacroMesh;
use mesh_names::name::ElemName;
use std::alloc::{AllocError, Global};

/// Whether the name is a leaf of the forest of these members.
pub fn is_leaf<S: Asked>(mesh: &MacroMesh, members: &mut S, name: ElemName) -> bool
    ensures leaf { IsTrue result ↔ IsLeaf (shape_of mesh.now) (S.names members.old) name }
    ensures same { S.names members.new ≡ S.names members.old }
{
    if name.root() >= mesh.element_count() {
        return false;
    }
    if members.has(name) {
        return false;
    }
    match name.parent() {
        None => true,
        Some(parent) => members.has(parent),
    }
}

/// The leaves in the order of names.
pub fn leaf_list(
    alloc: Global,
    mesh: &MacroMesh,
    members: &NameSet,
) -> Result<Vec<ElemName>, AllocError>
    requires { IsForest (shape_of mesh.now) members.now }
    ensures { IfOk result (λ v. IsListOf (leaves (shape_of mesh.now) members.now) v.items) }
{
    let names = members.to_vec(alloc)?;
    let mut finder = members.finder();
    leaves_beside(alloc, mesh, &mut finder, &names)
}

/// The leaves in the order of names, where the list has the members.
pub fn leaves_beside<S: Asked>(
    alloc: Global,
    mesh: &MacroMesh,
    members: &mut S,
    names: &[ElemName],
) -> Result<Vec<ElemName>, AllocError>
    requires forest { IsForest (shape_of mesh.now) (S.names members.old) }
    requires names { IsListOf (S.names members.old) names.now }
    ensures { IfOk result (λ v. IsListOf (leaves (shape_of mesh.now) (S.names members.old)) v.items) }
{
    let mut found = Vec::new(alloc);
    add_tops(mesh, members, &mut found)?;
    add_children(members, names, &mut found)?;
    found.sort_unstable();
    // No name was added twice; this is a pass that finds nothing, and shows it.
    found.dedup();
    Ok(found)
}

// Adds the macro elements that are not members.
fn add_tops<S: Asked>(
    mesh: &MacroMesh,
    members: &mut S,
    found: &mut Vec<ElemName>,
) -> Result<(), AllocError>
    requires { found.old.items ≡ [] }
    ensures unsplit { OnOk result (IsUnsplit (tops (size (shape_of mesh.now))) (S.names members.old) (set_of found.new.items)) }
    ensures same { S.names members.new ≡ S.names members.old }
{
    for root in 0..mesh.element_count() {
        add_leaf(members, ElemName::top(root), found)?;
    }
    Ok(())
}

// Adds the children of these names that are not members.
fn add_children<S: Asked>(
    members: &mut S,
    names: &[ElemName],
    found: &mut Vec<ElemName>,
) -> Result<(), AllocError>
    requires { All (λ n. depth n < 24) names.now }
    ensures same { S.names members.new ≡ S.names members.old }
    ensures unsplit { OnOk result ((all : List Name) → IsUnsplit all (S.names members.old) (set_of found.old.items) → IsUnsplit (all ++ children names.now) (S.names members.old) (set_of found.new.items)) }
{
    for name in names {
        add_leaf(members, name.child_at(false), found)?;
        add_leaf(members, name.child_at(true), found)?;
    }
    Ok(())
}

// Adds the name unless it is a member.
fn add_leaf<S: Asked>(
    members: &mut S,
    name: ElemName,
    found: &mut Vec<ElemName>,
) -> Result<(), AllocError>
    ensures same { S.names members.new ≡ S.names members.old }
    ensures found { OnOk result (set_of found.new.items ≡ cond (set.contains (S.names members.old) name) (set_of found.old.items) (set.insert (set_of found.old.items) name)) }
{
    if !members.has(name) {
        found.push(name)?;
    }
    Ok(())
}
