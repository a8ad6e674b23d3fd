//! Edges by their lesser ends: each vertex leads to the last edge that has it as the lesser end, and
//! that edge to the one before it.
ghost use Rattle.std.specs.Prelude.{◌≡◌, ◌<◌, ◌*◌, ◌+◌, ◌^◌, ℕ, IfOk, OnOk, length};
ghost use Rattle.compat_check.specs.Places.{IsEarlier, ends_at, in_order};
ghost use Rattle.mesh_writer.specs.Links.{AreLinked, edge_at};

use std::alloc::{AllocError, Global};

/// For each vertex the last place of an edge with it as the lesser end, and for each place the last
/// one before it with the same lesser end.
#[derive(Drop)]
pub(crate) struct Links {
    lasts: Vec<Option<u32>>,
    before: Vec<Option<u32>>,
}

// The two ends of the edge at a place, in the sense of the triple.
fn ends(triples: &[[u32; 3]], place: usize) -> (u32, u32)
    requires { place < length triples.now * 3 }
    ensures { result ≡ ends_at triples.now place }
{
    let [first, second, third] = triples[place / 3];
    match place % 3 {
        0 => (second, third),
        1 => (third, first),
        _ => (first, second),
    }
}

// The ends, the lesser first.
fn ordered(pair: (u32, u32)) -> (u32, u32)
    ensures { result ≡ in_order pair }
{
    (pair.0.min(pair.1), pair.0.max(pair.1))
}

// The edge at a place, the lesser end first.
fn edge(triples: &[[u32; 3]], place: usize) -> (u32, u32)
    requires { place < length triples.now * 3 }
    ensures { result ≡ edge_at triples.now place }
{
    ordered(ends(triples, place))
}

/// A number above all lesser ends.
pub(crate) fn bound(triples: &[[u32; 3]]) -> usize
    requires { length triples.now * 3 < 2 ^ 32 }
    ensures { (place : ℕ) → place < length triples.now * 3 → (edge_at triples.now place).0 < result }
{
    let mut bound = 0;
    for place in 0..triples.len() * 3 {
        bound = bound.max(edge(triples, place).0 as usize + 1);
    }
    bound
}

/// The most edges that have one vertex as the lesser end.
pub(crate) fn most_edges(
    alloc: Global,
    triples: &[[u32; 3]],
    bound: usize,
) -> Result<u32, AllocError>
    requires { (place : ℕ) → place < length triples.now * 3 → (edge_at triples.now place).0 < bound }
{
    let mut counts = vec![in alloc; 0_u32; bound]?;
    let mut most = 0;
    for place in 0..triples.len() * 3 {
        let lesser = edge(triples, place).0 as usize;
        counts[lesser] = counts[lesser].saturating_add(1);
        most = most.max(counts[lesser]);
    }
    Ok(most)
}

impl Links {
    /// No edges, for lesser ends below a bound.
    pub(crate) fn new(
        alloc: Global,
        triples: &[[u32; 3]],
        bound: usize,
    ) -> Result<Links, AllocError>
        requires { length triples.now * 3 < 2 ^ 32 }
        ensures linked { IfOk result (AreLinked triples.now 0) }
        ensures bound { IfOk result (λ links. length links.lasts.items ≡ bound) }
    {
        let lasts = vec![in alloc; None; bound]?;
        let mut before = Vec::new(alloc);
        before.try_reserve(triples.len() * 3)?;
        Ok(Links { lasts, before })
    }

    /// The last place before this one with the same edge.
    pub(crate) fn earlier(&self, triples: &[[u32; 3]], place: usize) -> Option<u32>
        requires linked { AreLinked triples.now place self.now }
        requires inside { place < length triples.now * 3 }
        requires low { (edge_at triples.now place).0 < length self.now.lasts.items }
        ensures { IsEarlier triples.now place result }
    {
        let sought = edge(triples, place);
        let mut at = self.lasts[sought.0 as usize];
        while let Some(last) = at {
            let last = last as usize;
            if edge(triples, last).1 == sought.1 {
                return at;
            }
            at = self.before[last];
        }
        None
    }

    /// Adds the edge at the next place.
    pub(crate) fn add(&mut self, triples: &[[u32; 3]], place: usize) -> Result<(), AllocError>
        requires few { length triples.now * 3 < 2 ^ 32 }
        requires linked { AreLinked triples.now place self.old }
        requires inside { place < length triples.now * 3 }
        requires low { (edge_at triples.now place).0 < length self.old.lasts.items }
        ensures linked { OnOk result (AreLinked triples.now (place + 1) self.new) }
        ensures bound { length self.new.lasts.items ≡ length self.old.lasts.items }
    {
        let lesser = edge(triples, place).0 as usize;
        self.before.push(self.lasts[lesser])?;
        self.lasts[lesser] = Some(place as u32);
        Ok(())
    }
}
