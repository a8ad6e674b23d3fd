//! The strategies that look at each leaf by itself.
ghost use Rattle.std.specs.Prelude.{◌≡◌, ◌*◌, ◌&&◌, nat_le, nat_lt, IfOk};
ghost use Rattle.mark_strategy.specs.Leaves.{greatest};
ghost use Rattle.mark_strategy.specs.Strategies.{equal_names, max_names};

use crate::refusal::StrategyRefusal;
use crate::share::Share;
use mesh_names::name::ElemName;
use std::alloc::Global;

/// The leaves whose size is above 0 and at least this share of the greatest size, in the order in
/// which they are given.
pub fn mark_max(
    alloc: Global,
    values: &[(ElemName, i64)],
    share: Share,
) -> Result<Vec<ElemName>, StrategyRefusal>
    ensures { IfOk result (λ names. names.items ≡ max_names share values.now) }
{
    let greatest = greatest_size(values);
    let names = values
        .iter()
        .filter(|leaf| is_large(leaf.1.unsigned_abs(), greatest, share))
        .map(|leaf| leaf.0)
        .collect(alloc)?;
    Ok(names)
}

// Whether the size is above 0, and at least this share of the greatest.
fn is_large(size: u64, greatest: u64, share: Share) -> bool
    ensures { result ≡ (nat_lt 0 size && nat_le (share.part * greatest) (size * share.whole)) }
{
    size > 0
        && u128::from(share.part()) * u128::from(greatest)
            <= u128::from(size) * u128::from(share.whole())
}

// The greatest size, and 0 where there is no leaf.
fn greatest_size(values: &[(ElemName, i64)]) -> u64
    ensures { result ≡ greatest values.now }
{
    let mut greatest = 0;
    for leaf in values {
        greatest = greatest.max(leaf.1.unsigned_abs());
    }
    greatest
}

/// The leaves whose size is above an equal part of the goal, in the order in which they are given.
pub fn mark_equal(
    alloc: Global,
    values: &[(ElemName, i64)],
    goal: u64,
) -> Result<Vec<ElemName>, StrategyRefusal>
    ensures { IfOk result (λ names. names.items ≡ equal_names goal values.now) }
{
    let count = values.len() as u128;
    let goal = u128::from(goal);
    let names = values
        .iter()
        .filter(|leaf| u128::from(leaf.1.unsigned_abs()) * count > goal)
        .map(|leaf| leaf.0)
        .collect(alloc)?;
    Ok(names)
}
