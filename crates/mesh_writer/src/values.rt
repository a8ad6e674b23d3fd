//! The values of a mesh's vertices and leaves, in written order.
ghost use Rattle.std.specs.Prelude.{◌≡◌, All, IfOk, IsSome, Some, length, map};
ghost use Rattle.dof_transfer.specs.Held.{value_of};
ghost use Rattle.dof_transfer.specs.VertexValues.{value_at};
ghost use Rattle.mesh_writer.specs.Picks.{IsBelow, key_in, value_in};

use crate::numbering::Numbers;
use dof_transfer::{ElementValues, VertexValues};
use mesh_names::name::ElemName;
use std::alloc::{AllocError, Global};

// The values of these slots.
fn values_in(alloc: Global, slots: &[u32], values: &[i64]) -> Result<Vec<i64>, AllocError>
    requires { All (IsBelow (length values.now)) slots.now }
    ensures { IfOk result (λ picked. picked.items ≡ map (value_in values.now) slots.now) }
{
    let mut picked = Vec::new(alloc);
    picked.try_reserve(slots.len())?;
    for slot in slots {
        picked.push(values[*slot as usize])?;
    }
    Ok(picked)
}

/// The values of the written vertices: they are read by slot, which is the order of the patches'
/// owners, and then put in order.
pub(crate) fn vertex_values(
    alloc: Global,
    vertices: &VertexValues,
    numbers: &Numbers,
) -> Result<Vec<i64>, AllocError>
    requires below { All (IsBelow (length numbers.now.known.items)) numbers.now.slots.items }
    requires keys { numbers.now.keys.items ≡ map (key_in numbers.now.known.items) numbers.now.slots.items }
    requires values { All (λ key. IsSome (value_at vertices.now key)) numbers.now.keys.items }
    ensures { IfOk result (λ values. map Some values.items ≡ map (value_at vertices.now) numbers.now.keys.items) }
{
    let Ok(values) = vertices.values(alloc, &numbers.known) else {
        return Err(AllocError);
    };
    values_in(alloc, &numbers.slots, &values)
}

/// The values of the leaves.
pub(crate) fn element_values(
    alloc: Global,
    elements: &ElementValues,
    leaves: &[ElemName],
) -> Result<Vec<i64>, AllocError>
    requires { All (λ n. IsSome (value_of elements.now n)) leaves.now }
    ensures { IfOk result (λ values. map Some values.items ≡ map (value_of elements.now) leaves.now) }
{
    match elements.values(alloc, leaves) {
        Ok(values) => Ok(values),
        Err(_) => Err(AllocError),
    }
}
