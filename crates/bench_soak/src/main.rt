//! Makes a soak by its phases, beside writing the text of what it leads to.
//!
//! With no argument three rounds are drawn on a grid of 4 by 4 squares, and the counts of the line of
//! this soak are printed, with a checksum of its text. With up to three numbers START, GRID and ROUNDS
//! it is that soak, where 128 and 6 stand for those that are left out, and its times are printed too.
#![tactic(auto)]

mod phases;
mod rounds;
mod times;

use anyhow::Result;
use phases::{Soak, run};
use std::env;

// The number that stands at this place of the words, or another where there is none.
fn number_at(rt: &HostRuntime, place: usize, other: u32) -> Result<u32> {
    match env::args(rt)?.nth(place) {
        Some(word) => Ok(word.parse::<u32>()?),
        None => Ok(other),
    }
}

fn main(rt: HostRuntime) -> Result<()> {
    let timed = env::args(&rt)?.nth(1).is_some();
    let soak = Soak {
        start: number_at(&rt, 1, 7)?.min(65_535),
        side: number_at(&rt, 2, if timed { 128 } else { 4 })?.clamp(1, 128),
        rounds: number_at(&rt, 3, if timed { 6 } else { 3 })?.min(64),
    };
    let (counts, times) = run(&rt, rt.alloc(), soak)?;
    let (leaves, vertices, patches) = (counts.leaves, counts.vertices, counts.patches);
    let (bytes, sum) = (counts.bytes, counts.checksum);
    println!(&rt;
        "{leaves} leaves, {vertices} vertices, {patches} patches, {bytes} bytes, checksum {sum}"
    )?;
    if timed {
        times.tell(&rt)?;
    }
    Ok(())
}
