//! The numbers that compression gives.
ghost use Rattle.std.specs.Prelude.{◌≤◌, ◌^◌, length, IfOk};
ghost use Rattle.dof_admin.specs.Administration.{IsRenumbering};

use std::alloc::{AllocError, Global};

/// The new index of each old one: the number of used ones below it, or `u32::MAX` for a hole.
pub(crate) fn renumbered(alloc: Global, flags: &[bool]) -> Result<Vec<u32>, AllocError>
    requires { length flags.now ≤ 2 ^ 31 }
    ensures { IfOk result (λ moved. IsRenumbering flags.now moved.items) }
{
    let mut moved = Vec::with_capacity(alloc, flags.len())?;
    let mut used = 0;
    for flag in flags {
        if *flag {
            moved.push(used)?;
            used += 1;
        } else {
            moved.push(u32::MAX)?;
        }
    }
    Ok(moved)
}
