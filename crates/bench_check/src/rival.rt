use macro_file::MacroText;
use std::alloc::{AllocError, Global};

/// An edge of an element.
#[derive(Clone, Copy, PartialEq, Eq, PartialOrd, Ord)]
pub struct Edge {
    low: u32,
    high: u32,
    element: u32,
    edge: u32,
}

fn edge_of(first: u32, second: u32, element: u32, edge: u32) -> Edge {
    Edge {
        low: first.min(second),
        high: first.max(second),
        element,
        edge,
    }
}

/// The edges of all elements.
pub fn edges(alloc: Global, text: &MacroText) -> Result<Vec<Edge>, AllocError> {
    let mut edges = Vec::new(alloc);
    for (element, of) in text.elements.iter().enumerate() {
        let [first, second, third] = of.corners;
        let element = element as u32;
        edges.push(edge_of(second, third, element, 0))?;
        edges.push(edge_of(third, first, element, 1))?;
        edges.push(edge_of(first, second, element, 2))?;
    }
    Ok(edges)
}

/// How many of the edges, in order, have the ends of the one before.
pub fn shared(edges: &[Edge]) -> usize {
    let pairs = edges.iter().zip(edges.iter().skip(1));
    pairs
        .filter(|pair| pair.0.low == pair.1.low && pair.0.high == pair.1.high)
        .count()
}
