//! Why a macro text is no mesh.
use std::alloc::AllocError;

/// The first fault of a macro text. The kinds are tried in this order, each by element (of
/// `TwinElements` by `second`) and then by edge.
#[derive(Clone, Copy, Debug, PartialEq, Eq)]
pub enum CheckRefusal {
    /// A corner is no vertex.
    VertexRange { element: u32 },
    /// Two corners are equal.
    RepeatedVertex { element: u32 },
    /// The corners lie on a line.
    Flat { element: u32 },
    /// `second` has the three vertices of `first`, the least element with them.
    TwinElements { first: u32, second: u32 },
    /// Two elements of smaller index have this edge.
    EdgeOfThree { element: u32, edge: u8 },
    /// The given neighbour is not the element that has this edge, or is not -1 where none has it.
    NeighboursDiffer { element: u32, edge: u8 },
    /// No grades meet the conditions of this shared edge and of all shared edges before it.
    Incompatible { element: u32, edge: u8 },
    /// The grade is above 24.
    GradeTooHigh { element: u32, grade: u32 },
    /// Want of memory.
    Memory,
}

impl From<AllocError> for CheckRefusal {
    ghost use Rattle.std.specs.Prelude.{◌≡◌};
    ghost use Rattle.compat_check.specs.declared.refusal.CheckRefusal.TheVariants.{Memory};

    ghost from_gives = { λ _ r. r ≡ Memory };

    fn from(_error: AllocError) -> CheckRefusal {
        CheckRefusal::Memory
    }
}
