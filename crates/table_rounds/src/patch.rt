//! A block with the places of its members.

use table_words::layout::ElemAt;

/// A block with the places of its patch's members.
#[derive(Clone, Copy)]
pub struct Patch {
    pub block: u32,
    pub first: ElemAt,
    pub second: Option<ElemAt>,
}

/// A claim of a round that is refused: the places of its patch's members, and its living block, or
/// none where its draw found none.
#[derive(Clone, Copy)]
pub struct Held {
    pub first: ElemAt,
    pub second: Option<ElemAt>,
    pub block: Option<u32>,
}
