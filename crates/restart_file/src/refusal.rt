//! Why bytes are no restart file.
use compat_check::CheckRefusal;
use macro_file::MacroRefusal;
use mesh_names::name::ElemName;
use std::alloc::AllocError;

/// Why bytes are no restart file. The causes are tried in this order; `BadWord` and `TooDeep` are
/// tried element by element.
#[derive(Clone, Copy, Debug)]
pub enum RestartRefusal {
    /// The first line is not `restart: ` and a number of at most 16,777,216 without leading zeros.
    BadHead,
    /// The first line speaks of `wanted` bytes, and only `found` follow it.
    MacroShort { wanted: u32, found: u32 },
    /// The macro part is no macro text.
    Macro { refusal: MacroRefusal },
    /// The macro text is no mesh.
    Check { refusal: CheckRefusal },
    /// The element has no line, or its line is no preorder word.
    BadWord { element: u32 },
    /// A member of level above 23 is in the element's word.
    TooDeep { element: u32 },
    /// Bytes follow the line of the last element.
    LeftOver,
    /// The least member whose partner is no member.
    NotConforming { member: ElemName },
    /// Want of memory.
    Memory,
}

impl From<AllocError> for RestartRefusal {
    ghost use Rattle.std.specs.Prelude.{◌≡◌};
    ghost use Rattle.restart_file.specs.declared.refusal.RestartRefusal.TheVariants.{Memory};

    ghost from_gives = { λ _ r. r ≡ Memory };

    fn from(_error: AllocError) -> RestartRefusal {
        RestartRefusal::Memory
    }
}
