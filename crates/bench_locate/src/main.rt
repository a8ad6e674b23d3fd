//! Looks up points in the leaves of a grid, beside a plain program with the leaves in the cells of a
//! grid, and in those of a square of two triangles with as many leaves.
//!
//! With no argument a grid of 4 by 4 squares has each element bisected 3 times over, and 2,000 points are
//! looked up: the counts are printed. With a number of points a grid of 128 by 128 squares has 1,048,576
//! leaves, and so has the square, and the times and their ratios are printed too.
#![tactic(auto)]

mod leaves;
mod lookup;
mod points;
mod rival;
mod timing;

use anyhow::Result;
use leaves::{grid_mesh, refined};
use lookup::look_up;
use points::{Places, UNIT, draw_points};
use rival::CellGrid;
use std::env;
use timing::tell_times;

fn main(rt: HostRuntime) -> Result<()> {
    let alloc = rt.alloc();
    let size = match env::args(&rt)?.nth(1) {
        Some(word) => Some(word.parse::<u32>()?),
        None => None,
    };
    if let Some(count) = size {
        return tell_times(&rt, alloc, count);
    }
    let mesh = grid_mesh(alloc, 4)?;
    let leaves = refined(alloc, &mesh, 3)?;
    let points = draw_points(
        alloc,
        Places {
            side: 4,
            each: 8_192,
        },
        2_000,
    )?;
    let grid = CellGrid::new(alloc, &mesh, &leaves, 4 * UNIT)?;
    let (tally, _) = look_up(&rt, alloc, &mesh, &leaves, &points, 1)?;
    let told = grid.look_up(&points);
    let count = leaves.len();
    let looked = points.len();
    let found = tally.found;
    let sum = tally.sum;
    let same = found == told.found && sum == told.sum;
    println!(rt; "{count} leaves, {looked} points: {found} found, sum {sum}, same {same}")?;
    Ok(())
}
