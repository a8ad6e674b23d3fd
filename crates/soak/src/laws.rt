//! Laws over the definitions alone. Each function takes nothing and answers nothing: its
//! contract is the law.
ghost use Rattle.soak.specs.Grid.{GridsAreGrids};
ghost use Rattle.soak.specs.GridChecks.{GridsPass};

/// Each vertex, and each square's two triangles, stand where they should.
pub fn grids_are_grids()
    ensures { GridsAreGrids }
{}

/// The check refuses no grid, but for want of memory.
pub fn grids_pass()
    ensures { GridsPass }
{}
