//! Why bytes are no macro text.
use std::fmt;
use thiserror::Error;

/// A key that must be in a macro file.
#[derive(Debug, Clone, Copy, PartialEq, Eq, Drop)]
pub enum Key {
    /// `number of vertices`
    VertexCount,
    /// `number of elements`
    ElementCount,
    /// `vertex coordinates`
    Coordinates,
    /// `element vertices`
    Triples,
}

impl fmt::Display for Key {
    fn fmt<W: fmt::Write>(&self, f: &mut fmt::Formatter<W>) -> fmt::Result {
        f.write_str(match self {
            Key::VertexCount => "number of vertices",
            Key::ElementCount => "number of elements",
            Key::Coordinates => "vertex coordinates",
            Key::Triples => "element vertices",
        })
    }
}

/// Why bytes are no macro text. Lines are counted from 1.
#[derive(Debug, Clone, Copy, PartialEq, Eq, Drop, Error)]
pub enum MacroRefusal {
    /// The line's key is none of the ten, or a number stands before every key.
    #[error("line {line}: bad key")]
    BadKey { line: u32 },
    /// The line's key stood on an earlier line.
    #[error("line {line}: key twice")]
    KeyTwice { line: u32 },
    /// No line has this key.
    #[error("key missing: {key}")]
    KeyMissing { key: Key },
    /// A word is no number of its list.
    #[error("line {line}: bad number")]
    BadNumber { line: u32 },
    /// After the key of this line stand `found` numbers where `wanted` belong.
    #[error("line {line}: {found} numbers where {wanted} belong")]
    CountDiffers { line: u32, wanted: u32, found: u32 },
    /// More than 65,535 vertices or elements.
    #[error("line {line}: more than 65535")]
    TooMany { line: u32 },
    /// A coordinate of more than 100,000 in size.
    #[error("line {line}: coordinate out of range")]
    CoordRange { line: u32 },
    /// A vertex value of more than 2^31 in size, or an element value of more than 2^55.
    #[error("line {line}: value out of range")]
    ValueRange { line: u32 },
    /// Want of memory.
    #[error("out of memory")]
    Memory,
}
