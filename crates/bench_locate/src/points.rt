//! Points that look random.
ghost use Rattle.std.specs.Prelude.{All, IfOk};
ghost use Rattle.macro_file.specs.Limits.{AtMost};
ghost use Rattle.compat_check.specs.Within.{IsWithin};

use locate_point::Point;
use std::alloc::{AllocError, Global};

/// One unit of length in fine units.
pub const UNIT: i64 = 40_960_000_000_000;

/// The places along the axes of a square grid of at most 128 by 128 units, of which there are 65,536 in
/// a unit: points lie at each so many of them.
#[derive(Clone, Copy)]
pub struct Places {
    pub side: u32,
    pub each: u32,
}

impl Places {
    // The coordinate of a place that a number stands for.
    fn coordinate(self, number: u64) -> i64
        ensures { AtMost 4096000000000000000 result }
    {
        let count = u64::from(self.side).wrapping_mul(65_536).wrapping_add(1);
        let place = number % count.max(1);
        let first = place.saturating_sub(place % u64::from(self.each).max(1));
        first.min(8_388_608) as i64 * 625_000_000
    }

    // The point of this number, which looks random.
    fn point(self, number: u32) -> Point
        ensures { IsWithin result }
    {
        let twice = u64::from(number).wrapping_mul(2);
        let across = self.coordinate(mixed(twice));
        let up = self.coordinate(mixed(twice.wrapping_add(1)));
        (across, up)
    }
}

// A number for a number; they look random.
fn mixed(number: u64) -> u64 {
    let first = number
        .wrapping_add(1)
        .wrapping_mul(6_364_136_223_846_793_005);
    let second = (first ^ (first >> 29)).wrapping_mul(1_442_695_040_888_963_407);
    second >> 20
}

/// So many points at these places.
pub fn draw_points(alloc: Global, places: Places, count: u32) -> Result<Vec<Point>, AllocError>
    ensures { IfOk result (λ points. All IsWithin points.items) }
{
    let mut points = Vec::new(alloc);
    for number in 0..count {
        points.push(places.point(number))?;
    }
    Ok(points)
}
