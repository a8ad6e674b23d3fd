//! Bulk marking.
ghost use Rattle.std.specs.Prelude.{◌≡◌, ℕ, ◌*◌, ◌≤◌, ◌==◌, count_by, length, map, sum, IfOk, IfSome, IfNone};
ghost use Rattle.mark_strategy.specs.Leaves.{AreLeaves, names_of, size_of};
ghost use Rattle.mark_strategy.specs.Picks.{AreFalling, Fall, IsCut, IsEnough, picked};
ghost use Rattle.mark_strategy.specs.Strategies.{AreFewest, IsBulk};

use crate::refusal::StrategyRefusal;
use crate::share::Share;
use mesh_names::name::ElemName;
use std::alloc::{AllocError, Global};

/// As few of the largest leaves as together have at least this share of the sizes of all, in the
/// order of names; of equal sizes the first by name (Dörfler 1996). No other set of leaves that has
/// the share is smaller.
///
/// The leaves are given in the order of names, each once. Only their sizes are sorted.
pub fn mark_bulk(
    alloc: Global,
    values: &[(ElemName, i64)],
    share: Share,
) -> Result<Vec<ElemName>, StrategyRefusal>
    requires { AreLeaves values.now }
    ensures bulk { IfOk result (λ names. IsBulk share values.now names.items) }
    ensures fewest { IfOk result (λ names. AreFewest share values.now names.items) }
{
    let sizes = falling_sizes(alloc, values)?;
    let count = enough(&sizes, share);
    let Some(cut) = cut_at(&sizes, count) else {
        return Ok(Vec::new(alloc));
    };
    let names = pick(alloc, values, cut, count)?;
    Ok(names)
}

// Where the chosen leaves end: their least size, and how many of this size are chosen.
#[derive(Clone, Copy)]
struct Cut {
    size: u64,
    ties: usize,
}

// The sizes of the leaves.
fn sizes_of(alloc: Global, values: &[(ElemName, i64)]) -> Result<Vec<u64>, AllocError>
    ensures { IfOk result (λ sizes. sizes.items ≡ map size_of values.now) }
{
    values
        .iter()
        .map(|leaf| leaf.1.unsigned_abs())
        .collect(alloc)
}

// The sizes of the leaves, the greatest first.
fn falling_sizes(alloc: Global, values: &[(ElemName, i64)]) -> Result<Vec<u64>, AllocError>
    ensures { IfOk result (λ sizes. AreFalling values.now sizes.items) }
{
    let mut sizes = sizes_of(alloc, values)?;
    sizes.sort_unstable();
    sizes.reverse();
    Ok(sizes)
}

// The sum of the sizes.
fn sum_of(sizes: &[u64]) -> u128
    ensures { result ≡ sum sizes.now }
{
    let mut sum = 0;
    for size in sizes {
        sum += u128::from(*size);
    }
    sum
}

// The least sum that is at least this share of a total. The total is divided first, so that no
// product is above it.
fn least_sum(total: u128, share: Share) -> u128
    ensures enough { share.part * total ≤ result * share.whole }
    ensures least { (sum : ℕ) → share.part * total ≤ sum * share.whole → result ≤ sum }
{
    let part = u128::from(share.part());
    let whole = u128::from(share.whole());
    let rest = part * (total % whole);
    part * (total / whole) + (rest + whole - 1) / whole
}

// How many of the sizes, from the front, are enough for the share.
fn enough(sizes: &[u64], share: Share) -> usize
    ensures { IsEnough share sizes.now result }
{
    let least = least_sum(sum_of(sizes), share);
    let mut sum = 0;
    for (count, size) in sizes.iter().enumerate() {
        if sum >= least {
            return count;
        }
        sum += u128::from(*size);
    }
    sizes.len()
}

// Where the first `count` of the falling sizes end; `None` where they are none.
fn cut_at(sizes: &[u64], count: usize) -> Option<Cut>
    requires fall { Fall sizes.now }
    requires within { count ≤ length sizes.now }
    ensures cut { IfSome result (λ cut. IsCut sizes.now count cut.size cut.ties) }
    ensures none { IfNone result (count ≡ 0) }
{
    let chosen = &sizes[..count];
    let size = *chosen.last()?;
    let ties = times_in(size, chosen);
    Some(Cut { size, ties })
}

// How often a size stands among these.
fn times_in(size: u64, sizes: &[u64]) -> usize
    ensures { result ≡ count_by (λ s. s == size) sizes.now }
{
    sizes.iter().filter(|other| **other == size).count()
}

// The names of the leaves above the cut, and of the first ones at it. There are `count` of them.
fn pick(
    alloc: Global,
    values: &[(ElemName, i64)],
    cut: Cut,
    count: usize,
) -> Result<Vec<ElemName>, AllocError>
    ensures { IfOk result (λ names. names.items ≡ names_of (picked cut.size cut.ties values.now)) }
{
    let mut names = Vec::with_capacity(alloc, count)?;
    let mut ties = cut.ties;
    for (name, value) in values {
        let size = value.unsigned_abs();
        if size > cut.size {
            names.push(*name)?;
        } else if size == cut.size && ties > 0 {
            names.push(*name)?;
            ties -= 1;
        }
    }
    Ok(names)
}
