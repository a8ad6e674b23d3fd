//! The least conforming forest that holds given names.
ghost use Rattle.std.specs.Prelude.{◌≡◌, ◌<◌, ◌≤◌, [], ◌++◌, cond, OnOk};
ghost use Rattle.std.specs.FinSet as set;
ghost use Rattle.std.specs.FinSet.{from_list};
ghost use Rattle.mesh_names.specs.Triangles.{size, level};
ghost use Rattle.mesh_names.specs.Forests.{IsForest};
ghost use Rattle.mesh_names.specs.Conformity.{HoldsPartners};
ghost use Rattle.mesh_names.specs.LeastForest.{CanHold, least_forest};
ghost use Rattle.compat_check.specs.Meshes.{across_in, shape_of};
ghost use Rattle.forest_plain.specs.Closing.{names_above};

use crate::names::Growing;
use compat_check::mesh::MacroMesh;
use mesh_names::name::ElemName;
use std::alloc::AllocError;

/// Adds the needed names to a conforming forest, and all that a conforming forest has to hold
/// with them: each new name brings its parent and its partner.
pub fn close<S: Growing>(
    mesh: &MacroMesh,
    members: &mut S,
    needed: Vec<ElemName>,
) -> Result<(), AllocError>
    requires forest { IsForest (shape_of mesh.now) (S.grown members.old) }
    requires partners { HoldsPartners (across_in mesh.now) (S.grown members.old) }
    requires can { CanHold (shape_of mesh.now) (from_list needed.items) }
    ensures start { S.start members.new ≡ S.start members.old }
    ensures least { OnOk result (S.grown members.new ≡ least_forest (shape_of mesh.now) (across_in mesh.now) (S.grown members.old) (from_list needed.items)) }
{
    let _count = mesh.element_count();
    let mut pending = needed;
    while let Some(name) = pending.pop() {
        add(mesh, members, name, &mut pending)?;
    }
    Ok(())
}

// Adds a name, and appends its parent and its partner if it is new.
fn add<S: Growing>(
    mesh: &MacroMesh,
    members: &mut S,
    name: ElemName,
    pending: &mut Vec<ElemName>,
) -> Result<(), AllocError>
    requires root { name.0 < size (shape_of mesh.now) }
    requires level { level (shape_of mesh.now) name ≤ 24 }
    ensures start { S.start members.new ≡ S.start members.old }
    ensures held { OnOk result (S.grown members.new ≡ set.insert (S.grown members.old) name) }
    ensures above { OnOk result (pending.new.items ≡ pending.old.items ++ cond (set.contains (S.grown members.old) name) [] (names_above (across_in mesh.now) name)) }
{
    if members.add(name)? {
        push_above(mesh, name, pending)?;
    }
    Ok(())
}

// Appends the parent of a name, and its partner.
fn push_above(
    mesh: &MacroMesh,
    name: ElemName,
    pending: &mut Vec<ElemName>,
) -> Result<(), AllocError>
    requires root { name.0 < size (shape_of mesh.now) }
    requires level { level (shape_of mesh.now) name ≤ 24 }
    ensures { OnOk result (pending.new.items ≡ pending.old.items ++ names_above (across_in mesh.now) name) }
{
    if let Some(parent) = name.parent() {
        pending.push(parent)?;
    }
    if let Some(partner) = mesh.partner(name) {
        pending.push(partner)?;
    }
    Ok(())
}
