//! The worked choices of two strategies: on the four leaves of the bisected square, of sizes 4, 3, 0 and 0.
use crate::{Share, mark_equal, mark_max};
use mesh_names::name::ElemName;
use std::test::Fail;

// The leaves of the square after one bisection, each with its value.
fn leaves() -> [(ElemName, i64); 4] {
    let first = ElemName::top(0);
    let second = ElemName::top(1);
    [
        (first.child_at(false), -4),
        (first.child_at(true), -3),
        (second.child_at(false), 0),
        (second.child_at(true), 0),
    ]
}

#[test]
fn shares(rt: HostRuntime) {
    assert!(rt; Share::new(0, 1).is_some() && Share::new(1_000_000, 1_000_000).is_some());
    assert!(rt; Share::new(2, 1).is_none() && Share::new(0, 0).is_none());
    assert!(rt; Share::new(1, 1_000_001).is_none());
}

#[test]
fn a_share_of_the_greatest(rt: HostRuntime) -> Result<(), Fail> {
    let leaves = leaves();
    let Some(share) = Share::new(3, 4) else {
        return Ok(());
    };
    let names = mark_max(rt.alloc(), &leaves, share)?;
    assert!(rt; names.as_slice() == [leaves[0].0, leaves[1].0].as_slice());
    Ok(())
}

#[test]
fn more_than_an_equal_part(rt: HostRuntime) -> Result<(), Fail> {
    let leaves = leaves();
    let names = mark_equal(rt.alloc(), &leaves, 12)?;
    assert!(rt; names.as_slice() == [leaves[0].0].as_slice());
    Ok(())
}
