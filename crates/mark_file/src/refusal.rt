//! Why a marks file is refused.
use thiserror::Error;

/// The first refusal of the first refused row. Rows are records, and the header is row 1.
#[derive(Clone, Copy, Debug, PartialEq, Eq, Error)]
pub enum MarkRefusal {
    /// Row 1 is not the header, or there is no row.
    #[error("row {row}: bad header")]
    BadHeader { row: u32 },
    /// Field 1 is not one to five digits that give 1 to 65,535.
    #[error("row {row}: bad round")]
    BadRound { row: u32 },
    /// Field 2 is not `mark`, `elem` or `vert`.
    #[error("row {row}: bad what")]
    BadWhat { row: u32 },
    /// Field 3 is neither `*` nor an element's spelling or, for `vert`, a corner's.
    #[error("row {row}: bad where")]
    BadWhere { row: u32 },
    /// Field 4 is no whole number, or it is above 24 in size for `mark`, or above 2^31 for `elem`
    /// and `vert`.
    #[error("row {row}: bad number")]
    BadNumber { row: u32 },
    /// Field 1 is below that of the row before.
    #[error("row {row}: rounds fall")]
    RoundsFall { row: u32 },
    /// The row is the 1,048,577th after the header.
    #[error("row {row}: too many rows")]
    TooMany { row: u32 },
    /// No memory.
    #[error("out of memory")]
    Memory,
    /// The row has not four fields.
    #[error("row {row}: bad fields")]
    BadFields { row: u32 },
}
