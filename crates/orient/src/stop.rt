//! Why there is no text to write.
use std::alloc::AllocError;

/// Why there is no text to write.
#[derive(Debug, Drop)]
pub enum Stop {
    /// The file is refused, with this line.
    Refused(String),
    /// Want of memory.
    Memory,
    /// The load of the file failed.
    Unread,
}

impl From<AllocError> for Stop {
    ghost use Rattle.std.specs.Prelude.{◌≡◌};
    ghost use Rattle.orient.specs.declared.stop.Stop.TheVariants.{Memory};

    ghost from_gives = { λ _ s. s ≡ Memory };

    fn from(_error: AllocError) -> Stop {
        Stop::Memory
    }
}
