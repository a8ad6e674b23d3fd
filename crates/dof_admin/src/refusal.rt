//! Why an administration was left as it was.
use std::alloc::AllocError;

/// Why a call changed nothing.
#[derive(Clone, Copy, Debug, Drop, PartialEq, Eq)]
pub enum DofRefusal {
    /// Want of memory.
    Memory,
}

impl From<AllocError> for DofRefusal {
    ghost use Rattle.std.specs.Prelude.{◌≡◌};
    ghost use Rattle.dof_admin.specs.declared.refusal.DofRefusal.TheVariants.{Memory};

    ghost from_gives = { λ _ r. r ≡ Memory };

    fn from(_error: AllocError) -> DofRefusal {
        DofRefusal::Memory
    }
}
