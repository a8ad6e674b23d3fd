//! Why a macro text is not oriented.
use compat_check::CheckRefusal;
use std::alloc::AllocError;

/// The first of these in their order.
#[derive(Clone, Copy, Debug, PartialEq, Eq)]
pub enum OrientRefusal {
    /// The text is no triangulation; the refusal is one that `check_valid` has, and not its `Memory`.
    Check { refusal: CheckRefusal },
    /// No pairing was found. That there is none is not claimed.
    NotFound,
    /// Want of memory.
    Memory,
}

impl From<AllocError> for OrientRefusal {
    ghost use Rattle.std.specs.Prelude.{◌≡◌};
    ghost use Rattle.mesh_orient.specs.declared.refusal.OrientRefusal.TheVariants.{Memory};

    ghost from_gives = { λ _ r. r ≡ Memory };

    fn from(_error: AllocError) -> OrientRefusal {
        OrientRefusal::Memory
    }
}
