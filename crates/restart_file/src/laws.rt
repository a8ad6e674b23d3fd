//! Laws over the definitions alone. Each function takes nothing and answers nothing: its contract
//! is the law.
ghost use Rattle.restart_file.specs.LeafCounts.{LeavesAreCounted};
ghost use Rattle.restart_file.specs.OneFile.{KeptOverPart, PartsAreOne, RestartsAreOne};

/// The bytes of a macro file are those of one mesh.
pub fn parts_are_one()
    ensures { PartsAreOne }
{}

/// A restart file keeps one macro file, one mesh and one forest: what `put_restart` wrote is read
/// as the same.
pub fn restarts_are_one()
    ensures { RestartsAreOne }
{}

/// Members that are kept over the mesh of a macro file are kept over it however the file was read.
pub fn kept_over_part()
    ensures { KeptOverPart }
{}

/// A forest has a leaf for each macro element and one more for each member.
pub fn leaves_are_counted()
    ensures { LeavesAreCounted }
{}
