//! Why values were left as they were.
use dof_admin::DofRefusal;
use std::alloc::AllocError;

/// Why a call changed nothing.
#[derive(Clone, Copy, Debug, Drop, PartialEq, Eq)]
pub enum TransferRefusal {
    /// Want of memory.
    Memory,
}

impl From<AllocError> for TransferRefusal {
    ghost use Rattle.std.specs.Prelude.{◌≡◌};
    ghost use Rattle.dof_transfer.specs.declared.refusal.TransferRefusal.TheVariants.{Memory};

    ghost from_gives = { λ _ r. r ≡ Memory };

    fn from(_error: AllocError) -> TransferRefusal {
        TransferRefusal::Memory
    }
}

impl From<DofRefusal> for TransferRefusal {
    ghost use Rattle.std.specs.Prelude.{◌≡◌};
    ghost use Rattle.dof_transfer.specs.declared.refusal.TransferRefusal.TheVariants.{Memory};

    ghost from_gives = { λ _ r. r ≡ Memory };

    fn from(_refusal: DofRefusal) -> TransferRefusal {
        TransferRefusal::Memory
    }
}
