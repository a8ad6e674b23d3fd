//! Rows of marks and values, as a round takes them.
use crate::name::ElemName;

/// What a row sets: a mark, an element's value or a vertex's value.
#[derive(Clone, Copy, Debug, PartialEq, Eq)]
pub enum What {
    Mark,
    Elem,
    Vert,
}

/// What a row names: every leaf, one element, or a corner (0 to 2) of one element.
#[derive(Clone, Copy, Debug, PartialEq, Eq)]
pub enum Place {
    EveryLeaf,
    Elem(ElemName),
    Corner(ElemName, u8),
}

/// A row of the marks file, with its number there; the header is row 1.
///
/// A mark, of size 24 at most, asks for as many bisections of a leaf, or below 0 allows as many
/// coarsenings. It names every leaf or an element, and so does the row of an element's value; that
/// of a vertex's value names every leaf or a corner. A value is at most 2^31 in size.
#[derive(Clone, Copy, Debug)]
pub struct MarkRow {
    pub row: u32,
    pub what: What,
    pub place: Place,
    pub number: i64,
}

/// The rows of one round, in order. Rounds are counted from 1.
#[derive(Debug, Drop)]
pub struct RoundMarks {
    pub number: u32,
    pub rows: Vec<MarkRow>,
}
