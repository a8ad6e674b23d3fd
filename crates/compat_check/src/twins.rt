//! Elements with the same three vertices.
ghost use Rattle.std.specs.Prelude.{◌≡◌, ◌≤◌, IfOk, None, length};
ghost use Rattle.compat_check.specs.Faults.{IsFirst, IsRepeated, triple_in};
ghost use Rattle.compat_check.specs.Twins.{AreCornerKeys, AreTwins, corner_key};

use crate::earlier::earlier_equals;
use std::alloc::{AllocError, Global};

// The three corners in order.
fn ordered_corners(triple: &[u32; 3]) -> (u32, u32, u32)
    ensures { result ≡ corner_key triple.now }
{
    let [first, second, third] = *triple;
    let (low, high) = (first.min(second), first.max(second));
    (low.min(third), low.max(high.min(third)), high.max(third))
}

fn corner_keys(alloc: Global, triples: &[[u32; 3]]) -> Result<Vec<(u32, u32, u32)>, AllocError>
    requires { length triples.now ≤ 65535 }
    ensures { IfOk result (λ keys. AreCornerKeys triples.now keys.items) }
{
    let mut keys = Vec::new(alloc);
    keys.try_reserve(triples.len())?;
    for triple in triples {
        keys.push(ordered_corners(triple))?;
    }
    Ok(keys)
}

/// For each element the last earlier one with the same three vertices.
pub(crate) fn earlier_twins(
    alloc: Global,
    triples: &[[u32; 3]],
) -> Result<Vec<Option<u32>>, AllocError>
    requires few { length triples.now ≤ 65535 }
    requires distinct { IsFirst (length triples.now) (λ r. IsRepeated (triple_in triples.now r)) None }
    ensures { IfOk result (λ earlier. AreTwins triples.now earlier.items) }
{
    let keys = corner_keys(alloc, triples)?;
    earlier_equals(alloc, keys.as_slice())
}
