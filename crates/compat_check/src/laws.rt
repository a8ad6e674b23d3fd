//! Laws over the definitions alone.
ghost use Rattle.compat_check.specs.Points.{MidpointsExact};

/// Where all macro coordinates have at most ten decimals, no midpoint is rounded, at any level up to 24.
pub fn midpoints_exact()
    ensures { MidpointsExact }
{}
