//! Why a macro text is not mended.
use compat_check::CheckRefusal;
use std::alloc::AllocError;

/// The first of these in their order.
#[derive(Clone, Copy, Debug, PartialEq, Eq)]
pub enum MendRefusal {
    /// The text is no triangulation; the refusal is one that `check_valid` has, and not its `Memory`.
    Check { refusal: CheckRefusal },
    /// The mended text would have more than 65,535 vertices or elements: these numbers of them.
    TooLarge { vertices: u64, elements: u64 },
    /// The first piece without area, by its element and the edge at which it lies.
    FlatPiece { element: u32, edge: u8 },
    /// Want of memory.
    Memory,
}

impl From<AllocError> for MendRefusal {
    ghost use Rattle.std.specs.Prelude.{◌≡◌};
    ghost use Rattle.mesh_mend.specs.declared.refusal.MendRefusal.TheVariants.{Memory};

    ghost from_gives = { λ _ r. r ≡ Memory };

    fn from(_error: AllocError) -> MendRefusal {
        MendRefusal::Memory
    }
}
