//! Laws over the definitions alone.
ghost use Rattle.mesh_io.specs.ReadBack.{DecimalsReadBack};

/// Fine units in the range of the coordinates are read again from their written decimal.
pub fn decimals_read_back()
    ensures { DecimalsReadBack }
{}
