//! Bulk marking of leaves by their values, beside a sort of as many pairs of a size and a number.
//!
//! With no argument there are 2,000 leaves, and what is chosen is printed; and then one leaf more than a
//! marks file has rows, of which those with a value are chosen. With a number of leaves there are so many,
//! and the times and their ratio are printed too.
#![tactic(auto)]

mod leaves;

use anyhow::{Result, anyhow};
use leaves::{in_order, make_leaves};
use mark_strategy::{Share, mark_bulk, mark_max};
use mesh_names::name::ElemName;
use std::alloc::Global;
use std::env;
use std::time::Instant;

// The least of the times of five runs, in microseconds.
#[derive(Clone, Copy)]
struct Times {
    strategy: u128,
    rival: u128,
}

// How many leaves have half of the whole.
fn chosen(alloc: Global, leaves: &[(ElemName, i64)]) -> Result<usize> {
    let Some(half) = Share::new(1, 2) else {
        return Err(anyhow!("no share"));
    };
    if !in_order(leaves) {
        return Err(anyhow!("not in order"));
    }
    let names = mark_bulk(alloc, leaves, half).map_err(|_| anyhow!("out of memory"))?;
    Ok(names.len())
}

// How many leaves have a value other than 0.
fn valued(alloc: Global, leaves: &[(ElemName, i64)]) -> Result<usize> {
    let Some(none) = Share::new(0, 1) else {
        return Err(anyhow!("no share"));
    };
    let names = mark_max(alloc, leaves, none).map_err(|_| anyhow!("out of memory"))?;
    Ok(names.len())
}

// The sizes of the leaves, with numbers.
fn pairs(alloc: Global, leaves: &[(ElemName, i64)]) -> Result<Vec<(u64, u32)>> {
    let mut pairs = Vec::new(alloc);
    let mut number: u32 = 0;
    for leaf in leaves {
        pairs.push((leaf.1.unsigned_abs(), number))?;
        number = number.wrapping_add(1);
    }
    Ok(pairs)
}

fn least_times(rt: &HostRuntime, alloc: Global, leaves: &[(ElemName, i64)]) -> Result<Times> {
    let mut times = Times {
        strategy: u128::MAX,
        rival: u128::MAX,
    };
    for _ in 0..5 {
        let mut pairs = pairs(alloc, leaves)?;
        let start = Instant::now(rt)?;
        pairs.sort_unstable();
        let rival = start.elapsed(rt)?.as_micros();
        let start = Instant::now(rt)?;
        let count = chosen(alloc, leaves)?;
        let strategy = start.elapsed(rt)?.as_micros();
        if count > pairs.len() {
            return Err(anyhow!("too many leaves"));
        }
        times = Times {
            strategy: times.strategy.min(strategy),
            rival: times.rival.min(rival),
        };
    }
    Ok(times)
}

fn main(rt: HostRuntime) -> Result<()> {
    let alloc = rt.alloc();
    let size = match env::args(&rt)?.nth(1) {
        Some(word) => Some(word.parse::<u32>()?),
        None => None,
    };
    let leaves = make_leaves(alloc, size.unwrap_or(2_000))?;
    let count = leaves.len();
    let chosen = chosen(alloc, leaves.as_slice())?;
    println!(rt; "{count} leaves, {chosen} have half of the whole")?;
    if size.is_some() {
        let times = least_times(&rt, alloc, leaves.as_slice())?;
        let strategy = times.strategy;
        let rival = times.rival;
        let percent = strategy.saturating_mul(100) / rival.max(1);
        println!(rt; "bulk {strategy} us, sort {rival} us: {percent} %")?;
    } else {
        let many = make_leaves(alloc, 1_048_577)?;
        let count = many.len();
        let valued = valued(alloc, many.as_slice())?;
        println!(rt; "{count} leaves, {valued} have a value")?;
    }
    Ok(())
}
