//! The times of looking up points, and of a rival.
use crate::leaves::{grid_mesh, refined};
use crate::lookup::{Tally, look_up};
use crate::points::{Places, UNIT, draw_points};
use crate::rival::CellGrid;
use anyhow::{Result, anyhow};
use locate_point::Point;
use std::alloc::Global;
use std::time::Instant;

/// The rival's tally, and the least of its times, in microseconds.
pub fn rival_times(
    rt: &HostRuntime,
    grid: &CellGrid,
    points: &[Point],
    times: u32,
) -> Result<(Tally, u128)> {
    let mut tally = Tally::none();
    let mut least = u128::MAX;
    for _ in 0..times {
        let start = Instant::now(rt)?;
        tally = grid.look_up(points);
        least = least.min(start.elapsed(rt)?.as_micros());
    }
    Ok((tally, least))
}

// A ratio in per cent.
fn percent(part: u128, whole: u128) -> u128 {
    part.saturating_mul(100) / whole.max(1)
}

// The least time of so many points in the square, each of whose elements is bisected 19 times over.
fn square_time(rt: &HostRuntime, alloc: Global, count: u32) -> Result<u128> {
    let mesh = grid_mesh(alloc, 1)?;
    let leaves = refined(alloc, &mesh, 19)?;
    let points = draw_points(alloc, Places { side: 1, each: 1 }, count)?;
    let (tally, micros) = look_up(rt, alloc, &mesh, &leaves, &points, 5)?;
    if tally.found != count {
        return Err(anyhow!("points were not found"));
    }
    Ok(micros)
}

/// Prints the times of so many points in a grid of 128 by 128 squares with 1,048,576 leaves, of the
/// rival, and of as many points in the square with as many leaves.
pub fn tell_times(rt: &HostRuntime, alloc: Global, count: u32) -> Result<()> {
    let mesh = grid_mesh(alloc, 128)?;
    let leaves = refined(alloc, &mesh, 5)?;
    let places = Places { side: 128, each: 1 };
    let points = draw_points(alloc, places, count)?;
    let grid = CellGrid::new(alloc, &mesh, &leaves, 128 * UNIT)?;
    let (told, rival) = rival_times(rt, &grid, &points, 5)?;
    let (tally, micros) = look_up(rt, alloc, &mesh, &leaves, &points, 5)?;
    if tally.sum != told.sum || tally.found != told.found {
        return Err(anyhow!("they differ"));
    }
    let ratio = percent(micros, rival);
    let leaf_count = leaves.len();
    println!(rt; "{leaf_count} leaves: locator {micros} us, plain {rival} us: {ratio} %")?;
    let square = square_time(rt, alloc, count)?;
    let ratio = percent(micros, square);
    println!(rt; "two triangles: {square} us: {ratio} %")?;
    Ok(())
}
