//! Leaves with values that a generator gives.
ghost use Rattle.std.specs.Prelude.{◌≡◌, IsTrue};
ghost use Rattle.mark_strategy.specs.Leaves.{AreLeaves};

use anyhow::Result;
use mesh_names::name::ElemName;
use std::alloc::Global;

// The element of level 16 with this number, in the order of names.
fn name_of(number: u32) -> ElemName {
    ElemName::of_bits(number / 65_536 % 65_535, 16, number % 65_536)
}

/// So many leaves, in the order of names.
pub fn make_leaves(alloc: Global, count: u32) -> Result<Vec<(ElemName, i64)>> {
    let mut leaves = Vec::new(alloc);
    let mut state: u64 = 1;
    for number in 0..count {
        state = state
            .wrapping_mul(6_364_136_223_846_793_005)
            .wrapping_add(1_442_695_040_888_963_407);
        leaves.push((name_of(number), (state >> 9) as i64))?;
    }
    Ok(leaves)
}

/// Whether the leaves are in the order of names, each once.
pub fn in_order(leaves: &[(ElemName, i64)]) -> bool
    ensures { IsTrue result → AreLeaves leaves.now }
{
    for at in 1..leaves.len() {
        if leaves[at - 1].0 >= leaves[at].0 {
            return false;
        }
    }
    true
}
