//! The needed names of a round: what its effective marks ask for.
ghost use Rattle.std.specs.Prelude.{◌≡◌, ◌+◌, ◌<◌, ◌≤◌, ◌++◌, All, IfOk, OnOk};
ghost use Rattle.mesh_names.specs.Names.{depth};
ghost use Rattle.mesh_names.specs.LeastForest.{names_below};
ghost use Rattle.mesh_names.specs.Marks.{bisections};
ghost use Rattle.forest_plain.specs.MarkMaps.{mark_in};
ghost use Rattle.forest_plain.specs.Needed.{names_of, work_by};

use crate::marks::Marks;
use mesh_names::name::ElemName;
use std::alloc::{AllocError, Global};

/// The needed names, leaf by leaf.
pub fn needed_names(
    alloc: Global,
    leaves: &[ElemName],
    marks: &Marks,
) -> Result<Vec<ElemName>, AllocError>
    requires { All (λ n. 0 < bisections (mark_in marks.now n) → depth n + bisections (mark_in marks.now n) ≤ 24) leaves.now }
    ensures { IfOk result (λ v. v.items ≡ names_of (work_by (mark_in marks.now) leaves.now)) }
{
    let mut needed = Vec::new(alloc);
    for leaf in leaves {
        add_needed(*leaf, marks, &mut needed)?;
    }
    Ok(needed)
}

// Appends what a leaf's mark asks for.
fn add_needed(leaf: ElemName, marks: &Marks, needed: &mut Vec<ElemName>) -> Result<(), AllocError>
    requires { 0 < bisections (mark_in marks.now leaf) → depth leaf + bisections (mark_in marks.now leaf) ≤ 24 }
    ensures { OnOk result (needed.new.items ≡ needed.old.items ++ names_below (bisections (mark_in marks.now leaf)) leaf.0 leaf.1) }
{
    let mark = marks.of(leaf);
    if mark <= 0 {
        return Ok(());
    }
    push_below(leaf, mark as u8, needed)
}

// Appends the names at and below one, down to `times - 1` letters more.
fn push_below(name: ElemName, times: u8, needed: &mut Vec<ElemName>) -> Result<(), AllocError>
    requires { depth name + times ≤ 24 }
    ensures { OnOk result (needed.new.items ≡ needed.old.items ++ names_below times name.0 name.1) }
{
    if times == 0 {
        return Ok(());
    }
    needed.push(name)?;
    push_below(name.child_at(false), times - 1, needed)?;
    push_below(name.child_at(true), times - 1, needed)
}
