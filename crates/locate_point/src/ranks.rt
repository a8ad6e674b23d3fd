//! Where names stand among names in order.
ghost use Rattle.std.specs.Prelude.{◌↔◌, ◌≤◌, IsTrue, length};
ghost use Rattle.std.specs.List.{Contains};
ghost use Rattle.std.specs.List.Sorted.{IsStrictlySortedBy};
ghost use Rattle.mesh_names.specs.Names.{name_cmp};
ghost use Rattle.locate_point.specs.Ranks.{AreBefore, AreNotBefore, IsRank};

use mesh_names::name::ElemName;

// A part of the names in which the rank of a name lies, from so many on that come before it: its
// length is at most about the way to the rank.
fn part_with_rank(names: &[ElemName], count: usize, name: ElemName) -> (usize, usize)
    requires sorted { IsStrictlySortedBy name_cmp names.now }
    requires count { AreBefore names.now name count }
    ensures low { AreBefore names.now name result.0 }
    ensures high { AreNotBefore names.now name result.1 }
    ensures order { (result.0 ≤ result.1) × (result.1 ≤ length names.now) }
{
    let mut low = count;
    let mut step = 1;
    while step <= names.len() - low {
        let last = low + step - 1;
        if names[last] >= name {
            return (low, last);
        }
        low = last + 1;
        step = step.saturating_mul(2);
    }
    (low, names.len())
}

/// The rank of a name among names in order, where so many of them are known to come before it: takes
/// steps for the logarithm of how many more do.
pub(crate) fn rank_from(names: &[ElemName], count: usize, name: ElemName) -> usize
    requires sorted { IsStrictlySortedBy name_cmp names.now }
    requires count { AreBefore names.now name count }
    ensures { IsRank names.now name result }
{
    let (mut low, mut high) = part_with_rank(names, count, name);
    while low < high {
        let middle = low + (high - low) / 2;
        if names[middle] < name {
            low = middle + 1;
        } else {
            high = middle;
        }
    }
    low
}

// Whether the name, which has this rank, is one of the names.
pub(crate) fn is_at(names: &[ElemName], rank: usize, name: ElemName) -> bool
    requires sorted { IsStrictlySortedBy name_cmp names.now }
    requires rank { IsRank names.now name rank }
    ensures { IsTrue result ↔ Contains names.now name }
{
    if rank >= names.len() {
        return false;
    }
    names[rank] == name
}
