//! Why bytes are no list of points.
use std::alloc::AllocError;
use thiserror::Error;

/// Why bytes are no list of points. Lines are counted from 1.
#[derive(Debug, Clone, Copy, PartialEq, Eq, Drop, Error)]
pub enum PointRefusal {
    /// The line has words, and they are not two decimals.
    #[error("line {line}: bad point")]
    BadPoint { line: u32 },
    /// The line has two decimals, of which one is more than 100,000 in size.
    #[error("line {line}: coordinate out of range")]
    PointRange { line: u32 },
    /// Want of memory.
    #[error("out of memory")]
    Memory,
}

impl From<AllocError> for PointRefusal {
    ghost use Rattle.std.specs.Prelude.{◌≡◌};
    ghost use Rattle.locate_point.specs.declared.refusal.PointRefusal.TheVariants.{Memory};

    ghost from_gives = { λ _ r. r ≡ Memory };

    fn from(_error: AllocError) -> PointRefusal {
        PointRefusal::Memory
    }
}
