//! Bisects patches of a shared table in leaf order, beside the same atomic operations on plain words.
//!
//! With no argument the mesh is a grid of 4 by 4 squares, and counts and a checksum are printed. With
//! a number of squares in a row, up to 127, the times of one, two and four workers are printed too.
#![tactic(auto)]

mod patches;
mod rival;
mod workers;

use anyhow::{Result, anyhow};
use compat_check::check;
use compat_check::mesh::MacroMesh;
use mesh_names::name::ElemName;
use patches::patches;
use rival::PlainTable;
use soak::grid;
use std::alloc::Global;
use std::env;
use std::thread::Threads;
use std::time::{Clock, Instant};
use workers::run_workers;

// The least of the times of five runs, in microseconds.
#[derive(Clone, Copy)]
struct Times {
    one: u128,
    two: u128,
    four: u128,
    rival: u128,
}

// Bisects all patches on plain words: how many it did.
fn run_rival(table: &PlainTable, patches: &[ElemName]) -> u32 {
    let mut count: u32 = 0;
    for name in patches {
        if table.bisect(*name) == Some(true) {
            count = count.wrapping_add(1);
        }
    }
    count
}

// So many patches, and by how many workers and plain calls they were bisected.
fn least_times<R: Threads + Clock + Sync>(
    rt: &R,
    alloc: Global,
    mesh: &MacroMesh,
    patches: &[ElemName],
) -> Result<Times> {
    let mut times = Times {
        one: u128::MAX,
        two: u128::MAX,
        four: u128::MAX,
        rival: u128::MAX,
    };
    for _ in 0..5 {
        let plain = PlainTable::new(alloc, mesh, pool_of(patches)?)?;
        let start = Instant::now(rt)?;
        run_rival(&plain, patches);
        let rival = start.elapsed(rt)?.as_micros();
        let one = run_workers(rt, alloc, mesh, patches, 1)?.time;
        let two = run_workers(rt, alloc, mesh, patches, 2)?.time;
        let four = run_workers(rt, alloc, mesh, patches, 4)?.time;
        times = Times {
            one: times.one.min(one),
            two: times.two.min(two),
            four: times.four.min(four),
            rival: times.rival.min(rival),
        };
    }
    Ok(times)
}

fn pool_of(patches: &[ElemName]) -> Result<u32> {
    match u32::try_from(patches.len()) {
        Ok(pool) => Ok(pool),
        Err(_) => Err(anyhow!("too many patches")),
    }
}

fn main(rt: HostRuntime) -> Result<()> {
    let alloc = rt.alloc();
    let size = match env::args(&rt)?.nth(1) {
        Some(word) => Some(word.parse::<u32>()?),
        None => None,
    };
    let side = size.unwrap_or(4).clamp(1, 127);
    let Ok(mesh) = check(alloc, grid(alloc, side)?) else {
        return Err(anyhow!("the grid was refused"));
    };
    let patches = patches(alloc, &mesh)?;
    let count = patches.len();
    let plain = PlainTable::new(alloc, &mesh, pool_of(patches.as_slice())?)?;
    let rival = run_rival(&plain, patches.as_slice());
    let sum = plain.checksum();
    let ours = run_workers(&rt, alloc, &mesh, patches.as_slice(), 1)?;
    let published = ours.published;
    let refused = ours.deferred;
    println!(&rt;
        "{count} patches: {published} by one worker, {refused} refused; {rival} on plain words, checksum {sum}"
    )?;
    if size.is_some() {
        let times = least_times(&rt, alloc, &mesh, patches.as_slice())?;
        let (one, two, four, rival) = (times.one, times.two, times.four, times.rival);
        let percent = one.saturating_mul(100) / rival.max(1);
        println!(&rt;
            "one worker {one} us, two {two} us, four {four} us; plain words {rival} us: {percent} %"
        )?;
    }
    Ok(())
}
