//! Why a mesh was not written.
ghost use Rattle.std.specs.Prelude.{◌≡◌};

use std::alloc::AllocError;

/// Why a mesh was not written.
#[derive(Clone, Copy, Debug, PartialEq, Eq, Drop)]
pub enum WriterRefusal {
    /// No memory was left.
    Memory,
}

impl From<AllocError> for WriterRefusal {
    ghost use Rattle.mesh_writer.specs.declared.refusal.WriterRefusal.TheVariants.{Memory};

    ghost from_gives = { λ _ r. r ≡ Memory };

    fn from(_error: AllocError) -> WriterRefusal {
        WriterRefusal::Memory
    }
}
