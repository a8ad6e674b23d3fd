//! For each entry of a list, the last earlier one with an equal key.
ghost use Rattle.std.specs.Prelude.{◌≡◌, ◌<◌, ◌^◌, IfNone, IfOk, IfSome, length};
ghost use Rattle.compat_check.specs.Earlier.{AreLastTies, IsRanked};

use std::alloc::{AllocError, Global};
use std::cmp::Ordering;

// The keys with their places, in order of key and then of place.
fn ranked<K: Ord + Copy>(alloc: Global, keys: &[K]) -> Result<Vec<(K, u32)>, AllocError>
    requires { length keys.now < 2 ^ 32 }
    ensures { IfOk result (λ r. IsRanked K.cmp keys.now r.items) }
{
    let mut entries = Vec::new(alloc);
    entries.try_reserve(keys.len())?;
    for (i, key) in keys.iter().enumerate() {
        entries.push((*key, i as u32))?;
    }
    entries.sort_unstable();
    Ok(entries)
}

// The place of the first of two neighbours in order, where it is an earlier place with an equal key.
fn tied_place<K: Ord + Copy>(low: (K, u32), high: (K, u32)) -> Option<u32>
    ensures none { IfNone result (low.1 < high.1 → K.cmp low.0 high.0 ≡ Ordering.Equal → ⊥) }
    ensures some { IfSome result (λ place. (place ≡ low.1) × (low.1 < high.1) × (K.cmp low.0 high.0 ≡ Ordering.Equal)) }
{
    if low.1 < high.1 && low.0.cmp(&high.0).is_eq() {
        Some(low.1)
    } else {
        None
    }
}

/// For each place the last earlier place with an equal key. Takes n log n steps.
pub(crate) fn earlier_equals<K: Ord + Copy>(
    alloc: Global,
    keys: &[K],
) -> Result<Vec<Option<u32>>, AllocError>
    requires { length keys.now < 2 ^ 32 }
    ensures { IfOk result (λ r. AreLastTies K.cmp keys.now r.items) }
{
    let ranked = ranked(alloc, keys)?;
    let mut earlier = vec![in alloc; None; ranked.len()]?;
    for i in 1..ranked.len() {
        let (key, place) = ranked[i];
        let Some(tied) = tied_place(ranked[i - 1], (key, place)) else {
            continue;
        };
        earlier[place as usize] = Some(tied);
    }
    Ok(earlier)
}
