//! Names of patches and of vertices.
use crate::name::ElemName;

/// The elements that are bisected together: one at the boundary, two inside.
///
/// `second`, if there, is greater than `first` and of its level. `first` owns the patch.
#[derive(Clone, Copy, Debug, PartialEq, Eq)]
pub struct PatchName {
    pub first: ElemName,
    pub second: Option<ElemName>,
}

/// A vertex: one of the macro mesh, or the midpoint of the refinement edge of the patch that
/// this element owns.
#[derive(Clone, Copy, Debug, PartialEq, Eq)]
pub enum VertexKey {
    Macro(u32),
    Patch(ElemName),
}

/// What a round changed: the patches that it bisected, by level and then by owner, and those
/// that it coarsened, by level from the greatest down and then by owner.
#[derive(Debug, Drop)]
pub struct RoundDelta {
    pub born: Vec<PatchName>,
    pub died: Vec<PatchName>,
}
