//! Gets and gives back indices in a random order, beside the same by a `BTreeSet` of holes.
//!
//! With no argument there are 2,000 steps, and the counts are printed. With a number of steps there
//! are so many, and the times and their ratio are printed too.
#![tactic(auto)]

mod rival;
mod steps;

use anyhow::{Result, anyhow};
use dof_admin::DofAdmin;
use rival::SetAdmin;
use std::alloc::Global;
use std::env;
use std::time::Instant;
use steps::{GET, steps};

/// What the steps led to.
#[derive(Clone, Copy)]
struct Tally {
    gets: u64,
    size: u32,
    holes: u32,
    sum: u64,
}

// The least of the times of five runs, in microseconds.
#[derive(Clone, Copy)]
struct Times {
    admin: u128,
    rival: u128,
}

fn run_admin(alloc: Global, steps: &[u32]) -> Result<Tally> {
    let mut admin = DofAdmin::new(alloc);
    let mut gets: u64 = 0;
    let mut sum: u64 = 0;
    for step in steps {
        if *step == GET {
            if admin.size_used() > 1_000_000_000 {
                return Err(anyhow!("too many indices"));
            }
            admin.reserve(1).map_err(|_| anyhow!("out of memory"))?;
            gets = gets.wrapping_add(1);
            sum = sum.wrapping_mul(31).wrapping_add(u64::from(admin.get()));
        } else if admin.is_used(*step) {
            admin.free(*step);
        }
    }
    Ok(Tally {
        gets,
        size: admin.size_used(),
        holes: admin.holes(),
        sum,
    })
}

fn run_rival(alloc: Global, steps: &[u32]) -> Result<Tally> {
    let mut admin = SetAdmin::new(alloc);
    let mut gets: u64 = 0;
    let mut sum: u64 = 0;
    for step in steps {
        if *step == GET {
            gets = gets.wrapping_add(1);
            sum = sum.wrapping_mul(31).wrapping_add(u64::from(admin.get()?));
        } else if admin.is_used(*step) {
            admin.free(*step)?;
        }
    }
    Ok(Tally {
        gets,
        size: admin.size(),
        holes: admin.holes(),
        sum,
    })
}

fn least_times(rt: &HostRuntime, alloc: Global, steps: &[u32]) -> Result<Times> {
    let mut times = Times {
        admin: u128::MAX,
        rival: u128::MAX,
    };
    for _ in 0..5 {
        let start = Instant::now(rt)?;
        let told = run_rival(alloc, steps)?;
        let rival = start.elapsed(rt)?.as_micros();
        let start = Instant::now(rt)?;
        let tally = run_admin(alloc, steps)?;
        let admin = start.elapsed(rt)?.as_micros();
        if tally.sum != told.sum {
            return Err(anyhow!("they differ"));
        }
        times = Times {
            admin: times.admin.min(admin),
            rival: times.rival.min(rival),
        };
    }
    Ok(times)
}

fn main(rt: HostRuntime) -> Result<()> {
    let alloc = rt.alloc();
    let size = match env::args(&rt)?.nth(1) {
        Some(word) => Some(word.parse::<u32>()?),
        None => None,
    };
    let steps = steps(alloc, size.unwrap_or(2_000))?;
    let count = steps.len();
    let tally = run_admin(alloc, steps.as_slice())?;
    let told = run_rival(alloc, steps.as_slice())?;
    let gets = tally.gets;
    let indices = tally.size;
    let holes = tally.holes;
    let sum = tally.sum;
    let same = tally.sum == told.sum && tally.size == told.size && tally.holes == told.holes;
    println!(rt;
        "{count} steps, {gets} gets: size {indices}, {holes} holes, sum {sum}, same {same}"
    )?;
    if size.is_some() {
        let times = least_times(&rt, alloc, steps.as_slice())?;
        let admin = times.admin;
        let rival = times.rival;
        let percent = admin.saturating_mul(100) / rival.max(1);
        println!(rt; "admin {admin} us, set of holes {rival} us: {percent} %")?;
    }
    Ok(())
}
