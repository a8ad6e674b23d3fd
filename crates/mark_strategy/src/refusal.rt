//! Why no leaves were chosen.
use std::alloc::AllocError;

/// Why a strategy chose no leaves.
#[derive(Clone, Copy, Debug, Drop, PartialEq, Eq)]
pub enum StrategyRefusal {
    /// Want of memory.
    Memory,
}

impl From<AllocError> for StrategyRefusal {
    ghost use Rattle.std.specs.Prelude.{◌≡◌};
    ghost use Rattle.mark_strategy.specs.declared.refusal.StrategyRefusal.TheVariants.{Memory};

    ghost from_gives = { λ _ r. r ≡ Memory };

    fn from(_error: AllocError) -> StrategyRefusal {
        StrategyRefusal::Memory
    }
}
