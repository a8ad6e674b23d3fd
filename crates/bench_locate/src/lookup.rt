//! Points are looked up by a locator.
ghost use Rattle.std.specs.Prelude.{All};
ghost use Rattle.compat_check.specs.Within.{IsWithin};
ghost use Rattle.locate_point.specs.Locating.{AreLeaves};
ghost use Rattle.locate_point.specs.Locators.{IsLocator};

use anyhow::Result;
use compat_check::MacroMesh;
use locate_point::{Locator, Point};
use mesh_names::name::ElemName;
use std::alloc::Global;
use std::time::Instant;

/// How many points have a leaf, and a sum over these leaves.
#[derive(Clone, Copy)]
pub struct Tally {
    pub found: u32,
    pub sum: u64,
}

impl Tally {
    /// Of no point.
    pub fn none() -> Tally {
        Tally { found: 0, sum: 0 }
    }

    /// With one point more.
    pub fn with(self, place: Option<ElemName>) -> Tally {
        let Some(name) = place else {
            return self;
        };
        let number = (u64::from(name.root()) << 24) | u64::from(name.bits());
        Tally {
            found: self.found.wrapping_add(1),
            sum: self.sum.wrapping_mul(31).wrapping_add(number),
        }
    }
}

// Looks up the points.
fn places(locator: &Locator<'_>, points: &[Point]) -> Tally
    requires ready { IsLocator locator.now.mesh.now locator.now.leaves.now locator.now }
    requires points { All IsWithin points.now }
{
    let mut tally = Tally::none();
    for point in points {
        tally = tally.with(locator.place(*point));
    }
    tally
}

/// Makes a locator, looks up the points so many times, and answers the least of the times, in
/// microseconds, too.
pub fn look_up(
    rt: &HostRuntime,
    alloc: Global,
    mesh: &MacroMesh,
    leaves: &[ElemName],
    points: &[Point],
    times: u32,
) -> Result<(Tally, u128)>
    requires leaves { AreLeaves mesh.now leaves.now }
    requires points { All IsWithin points.now }
{
    let locator = Locator::new(alloc, mesh, leaves)?;
    let mut tally = Tally::none();
    let mut least = u128::MAX;
    for _ in 0..times {
        let start = Instant::now(rt)?;
        tally = places(&locator, points);
        least = least.min(start.elapsed(rt)?.as_micros());
    }
    Ok((tally, least))
}
