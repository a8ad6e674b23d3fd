//! Why a round is refused.
ghost use Rattle.std.specs.Prelude.{◌≡◌};

use std::alloc::AllocError;

/// Why a round left the forest as it was.
#[derive(Clone, Copy, Debug, Drop)]
pub enum RoundRefusal {
    /// The forest was made for `rounds` rounds, and none is left.
    RoundsUsedUp { rounds: u32 },
    /// The row names an element that is no leaf, or a corner of one.
    NotALeaf { row: u32 },
    /// The row asks for bisections down to this level, above 24.
    LevelTooDeep { row: u32, level: u32 },
    /// The refined forest has `needed` patches (4,294,967,295 where there are more), `kept` are
    /// kept for readers, and the pool has room for `pool`.
    PoolFull { needed: u32, kept: u32, pool: u32 },
    /// Want of memory.
    Memory,
}

impl From<AllocError> for RoundRefusal {
    ghost use Rattle.forest_plain.specs.declared.refusal.RoundRefusal.TheVariants.{Memory};

    ghost from_gives = { λ _ r. r ≡ Memory };

    fn from(_error: AllocError) -> RoundRefusal {
        RoundRefusal::Memory
    }
}

/// Why a run of rounds ended early.
#[derive(Clone, Copy, Debug, Drop)]
pub enum RunRefusal {
    /// The round at this place of the list, counted from 0, is the first that was refused.
    AtRound { index: u32, refusal: RoundRefusal },
    /// Want of memory before the first round.
    Memory,
}
