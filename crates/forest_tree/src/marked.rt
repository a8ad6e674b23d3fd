//! The leaves that a round marks.
ghost use Rattle.std.specs.Prelude.{◌≡◌, ◌++◌, false, true, pos, All, IfOk, OnOk, option_to_list};
ghost use Rattle.std.specs.FinSet.{contains, from_list};
ghost use Rattle.mesh_names.specs.Names.{Name, name_cmp};
ghost use Rattle.mesh_names.specs.Forests.{IsForest};
ghost use Rattle.mesh_names.specs.Marks.{effective_mark};
ghost use Rattle.compat_check.specs.Meshes.{shape_of};
ghost use Rattle.forest_plain.specs.Needed.{AreMarked};
ghost use Rattle.forest_plain.specs.Rounds.{IsFine};
ghost use Rattle.forest_tree.specs.Marked.{marked_name, marked_names, marks_every};

use crate::held::HeldNames;
use crate::leaves::leaf_list;
use compat_check::mesh::MacroMesh;
use mesh_names::name::ElemName;
use mesh_names::rows::{MarkRow, Place, What};
use std::alloc::{AllocError, Global};

/// Leaves in the order of names, among them each with a mark other than 0: those that the rows
/// name, or all where a row for every leaf marks the others.
pub(crate) fn marked_leaves(
    alloc: Global,
    mesh: &MacroMesh,
    members: &HeldNames,
    rows: &[MarkRow],
) -> Result<Vec<ElemName>, AllocError>
    requires forest { IsForest (shape_of mesh.now) members.now }
    requires fine { All (IsFine (shape_of mesh.now) members.now) rows.now }
    ensures { IfOk result (λ v. AreMarked (shape_of mesh.now) members.now rows.now v.items) }
{
    if marks_others(rows) {
        let all = leaf_list(alloc, mesh, members)?;
        return Ok(all);
    }
    let found = named_leaves(alloc, rows)?;
    Ok(found)
}

// The elements that the rows name, each once.
fn named_leaves(alloc: Global, rows: &[MarkRow]) -> Result<Vec<ElemName>, AllocError>
    ensures { IfOk result (λ v. from_list {R = name_cmp} v.items ≡ from_list (marked_names rows.now)) }
{
    let mut found = Vec::new(alloc);
    for row in rows {
        add_named(row, &mut found)?;
    }
    found.sort_unstable();
    found.dedup();
    Ok(found)
}

// Appends the element that a row of marks names.
fn add_named(row: &MarkRow, found: &mut Vec<ElemName>) -> Result<(), AllocError>
    ensures { OnOk result (found.new.items ≡ found.old.items ++ option_to_list (marked_name row.now)) }
{
    if row.what == What::Mark
        && let Place::Elem(name) = row.place
    {
        found.push(name)?;
    }
    Ok(())
}

// Whether elements that no row of marks names may have a mark other than 0.
fn marks_others(rows: &[MarkRow]) -> bool
    ensures { result ≡ false → (n : Name) → contains {R = name_cmp} (from_list (marked_names rows.now)) n ≡ false → effective_mark rows.now n ≡ pos 0 }
{
    let mut marked = false;
    for row in rows {
        marked = marks_others_after(marked, row);
    }
    marked
}

// The same after one row more.
fn marks_others_after(marked: bool, row: &MarkRow) -> bool
    ensures every { marks_every row.now ≡ true → result ≡ false → row.now.number ≡ pos 0 }
    ensures other { marks_every row.now ≡ false → result ≡ marked }
{
    if row.what == What::Mark && matches!(row.place, Place::EveryLeaf) {
        row.number != 0
    } else {
        marked
    }
}
