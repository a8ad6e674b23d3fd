//! The edges of the elements of a mesh, and the elements that share them.
//!
//! Edges stand in one order: place `3 * r + e` is edge e of element r.
ghost use Rattle.std.specs.Prelude.{◌≡◌, ◌<◌, ◌≤◌, ◌*◌, ◌^◌, ◌↔◌, IfOk, IsTrue, length};
ghost use Rattle.compat_check.specs.Faults.{IsFirst};
ghost use Rattle.compat_check.specs.Paired.{AreSides, FallBack, IsThirdAt, side_of};
ghost use Rattle.compat_check.specs.Places.{AreEarlier, AreEdgeKeys, ends_at, in_order};

use crate::earlier::earlier_equals;
use crate::mesh::Side;
use std::alloc::{AllocError, Global};

// The two ends of an edge, in the sense of the triple.
fn ends(triples: &[[u32; 3]], place: usize) -> (u32, u32)
    requires { place < length triples.now * 3 }
    ensures { result ≡ ends_at triples.now place }
{
    let [first, second, third] = triples[place / 3];
    match place % 3 {
        0 => (second, third),
        1 => (third, first),
        _ => (first, second),
    }
}

fn ordered(pair: (u32, u32)) -> (u32, u32)
    ensures { result ≡ in_order pair }
{
    (pair.0.min(pair.1), pair.0.max(pair.1))
}

// The ends of each edge, the lesser first.
fn edge_keys(alloc: Global, triples: &[[u32; 3]]) -> Result<Vec<(u32, u32)>, AllocError>
    requires { length triples.now * 3 < 2 ^ 32 }
    ensures { IfOk result (λ keys. AreEdgeKeys triples.now keys.items) }
{
    let mut keys = Vec::new(alloc);
    keys.try_reserve(triples.len() * 3)?;
    for place in 0..triples.len() * 3 {
        keys.push(ordered(ends(triples, place)))?;
    }
    Ok(keys)
}

/// For each edge its last earlier place, in an element of smaller index. Takes n log n steps for n
/// triples.
pub fn earlier_edges(alloc: Global, triples: &[[u32; 3]]) -> Result<Vec<Option<u32>>, AllocError>
    requires { length triples.now * 3 < 2 ^ 32 }
    ensures { IfOk result (λ earlier. AreEarlier triples.now earlier.items) }
{
    let keys = edge_keys(alloc, triples)?;
    earlier_equals(alloc, keys.as_slice())
}

fn is_third(earlier: &[Option<u32>], place: usize) -> bool
    requires place { place < length earlier.now }
    requires back { FallBack earlier.now }
    ensures { IsTrue result ↔ IsThirdAt earlier.now place }
{
    match earlier[place] {
        None => false,
        Some(before) => earlier[before as usize].is_some(),
    }
}

/// The first edge with two earlier places.
pub(crate) fn first_third(earlier: &[Option<u32>]) -> Option<usize>
    requires { FallBack earlier.now }
    ensures { IsFirst (length earlier.now) (IsThirdAt earlier.now) result }
{
    for place in 0..earlier.len() {
        if is_third(earlier, place) {
            return Some(place);
        }
    }
    None
}

// What the edge at one place sees of the other.
fn side_at(triples: &[[u32; 3]], from: usize, to: usize) -> Side
    requires few { length triples.now ≤ 65535 }
    requires from { from < length triples.now * 3 }
    requires to { to < length triples.now * 3 }
    ensures { result ≡ side_of triples.now from to }
{
    Side {
        element: (to / 3) as u32,
        edge: (to % 3) as u8,
        turned: ends(triples, from).0 != ends(triples, to).0,
    }
}

/// What lies across each edge.
pub(crate) fn sides(
    alloc: Global,
    triples: &[[u32; 3]],
    earlier: &[Option<u32>],
) -> Result<Vec<Option<Side>>, AllocError>
    requires few { length triples.now ≤ 65535 }
    requires earlier { AreEarlier triples.now earlier.now }
    ensures { IfOk result (λ sides. AreSides triples.now earlier.now sides.items (length earlier.now)) }
{
    let mut sides = vec![in alloc; None; earlier.len()]?;
    for place in 0..earlier.len() {
        let Some(before) = earlier[place] else {
            continue;
        };
        let before = before as usize;
        sides[place] = Some(side_at(triples, place, before));
        sides[before] = Some(side_at(triples, before, place));
    }
    Ok(sides)
}
