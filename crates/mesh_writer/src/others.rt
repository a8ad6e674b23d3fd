//! Edges that stand at more than one place.
//!
//! Edges stand in one order: place `3 * r + e` is edge e of triple r.
ghost use Rattle.std.specs.Prelude.{◌≡◌, ◌<◌, ◌*◌, ◌^◌, ℕ, IfOk, IfSome, OnOk, length};
ghost use Rattle.mesh_writer.specs.Links.{edge_at};
ghost use Rattle.mesh_writer.specs.Others.{AddsPlace, AreOthers};

use crate::links::{Links, bound, most_edges};
use compat_check::edges::earlier_edges;
use std::alloc::{AllocError, Global};

/// Where a vertex is the lesser end of more edges, all edges are sorted: an edge is found among those
/// with the same lesser end one by one.
const MOST_LINKS: u32 = 64;

// Adds a place, by its last earlier one: the first other place of that one, if it has any, is the
// first of all with this edge.
fn add_place(
    others: &mut Vec<Option<u32>>,
    place: u32,
    earlier: Option<u32>,
) -> Result<(), AllocError>
    requires place { place ≡ length others.old.items }
    requires earlier { IfSome earlier (λ q. q < length others.old.items) }
    ensures { OnOk result (AddsPlace others.old.items earlier others.new.items) }
{
    let Some(earlier) = earlier else {
        others.push(None)?;
        return Ok(());
    };
    let first = others[earlier as usize];
    if first.is_some() {
        others.push(first)?;
        return Ok(());
    }
    others[earlier as usize] = Some(place);
    others.push(Some(earlier))?;
    Ok(())
}

// The places by links.
fn others_by_links(
    alloc: Global,
    triples: &[[u32; 3]],
    bound: usize,
) -> Result<Vec<Option<u32>>, AllocError>
    requires few { length triples.now * 3 < 2 ^ 32 }
    requires bound { (place : ℕ) → place < length triples.now * 3 → (edge_at triples.now place).0 < bound }
    ensures { IfOk result (λ others. AreOthers triples.now others.items) }
{
    let mut links = Links::new(alloc, triples, bound)?;
    let mut others = Vec::new(alloc);
    others.try_reserve(triples.len() * 3)?;
    for place in 0..triples.len() * 3 {
        let earlier = links.earlier(triples, place);
        add_place(&mut others, place as u32, earlier)?;
        links.add(triples, place)?;
    }
    Ok(others)
}

// The places by sorting all edges.
fn others_by_order(alloc: Global, triples: &[[u32; 3]]) -> Result<Vec<Option<u32>>, AllocError>
    requires { length triples.now * 3 < 2 ^ 32 }
    ensures { IfOk result (λ others. AreOthers triples.now others.items) }
{
    let earlier = earlier_edges(alloc, triples)?;
    let mut others = Vec::new(alloc);
    others.try_reserve(earlier.len())?;
    for place in 0..earlier.len() {
        add_place(&mut others, place as u32, earlier[place])?;
    }
    Ok(others)
}

/// For each edge the first other place with the same edge. Takes n log n steps for n triples, and
/// fewer where each vertex is the lesser end of few edges, as in a refined mesh.
pub(crate) fn other_edges(
    alloc: Global,
    triples: &[[u32; 3]],
) -> Result<Vec<Option<u32>>, AllocError>
    requires { length triples.now * 3 < 2 ^ 32 }
    ensures { IfOk result (λ others. AreOthers triples.now others.items) }
{
    let bound = bound(triples);
    if most_edges(alloc, triples, bound)? <= MOST_LINKS {
        others_by_links(alloc, triples, bound)
    } else {
        others_by_order(alloc, triples)
    }
}
