//! Laws over the definitions alone. Each function takes nothing and answers nothing: its contract is
//! the law.
ghost use Rattle.mesh_mend.specs.Promises.{GradesAreZero, MendedPasses, PiecesSum};

/// The check refuses no mended text, but for want of memory.
pub fn mended_passes()
    ensures { MendedPasses }
{}

/// All grades of a mended text are 0.
pub fn grades_are_zero()
    ensures { GradesAreZero }
{}

/// The doubled areas of an element's three pieces sum to its own, and so do their values.
pub fn pieces_sum()
    ensures { PiecesSum }
{}
