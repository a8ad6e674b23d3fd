//! Names dealt out among workers.
ghost use Rattle.std.specs.Prelude.{◌≡◌, ◌<◌, IfOk, map};
ghost use Rattle.std.specs.List.{range_with_len};
ghost use Rattle.table_passes.specs.Shares.{every};

use mesh_names::name::ElemName;
use std::alloc::{AllocError, Global};

/// The share of a worker, counted from 0: the name at this place, and then every `workers`-th.
pub fn share(
    alloc: Global,
    names: &[ElemName],
    first: usize,
    workers: usize,
) -> Result<Vec<ElemName>, AllocError>
    requires { 0 < workers }
    ensures { IfOk result (λ v. v.items ≡ every workers first names.now) }
{
    let mut share = Vec::with_capacity(alloc, names.len() / workers)?;
    let mut left = first;
    for name in names {
        if left == 0 {
            share.push(*name)?;
            left = workers;
        }
        left -= 1;
    }
    Ok(share)
}

/// The shares of so many workers.
pub fn shares(
    alloc: Global,
    names: &[ElemName],
    workers: usize,
) -> Result<Vec<Vec<ElemName>>, AllocError>
    requires { 0 < workers }
    ensures { IfOk result (λ v. map (λ w. w.items) v.items ≡ map (λ first. every workers first names.now) (range_with_len 0 workers)) }
{
    let mut shares = Vec::with_capacity(alloc, workers)?;
    for first in 0..workers {
        shares.push(share(alloc, names, first, workers)?)?;
    }
    Ok(shares)
}
