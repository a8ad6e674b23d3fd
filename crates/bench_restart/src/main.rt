//! Restart files are read, written and joined, beside a plain pass over their bytes, a copy of them,
//! and a merge of two sorted lists of numbers.
//!
//! With no argument each element of the square is bisected 6 times over and some of the leaves once
//! more, in two ways, which are joined: the counts are printed. With a number of bisections, 1 to 20 (19
//! give more than a million members), it is so many times over, and the times and their ratios are printed
//! too.
#![tactic(auto)]

mod rival;
mod sample;
mod timing;
mod trial;

use anyhow::{Result, anyhow};
use restart_file::join;
use sample::{sample, unbisected};
use std::env;
use timing::tell_times;
use trial::{checksum, read};

fn main(rt: HostRuntime) -> Result<()> {
    let alloc = rt.alloc();
    let size = match env::args(&rt)?.nth(1) {
        Some(word) => Some(word.parse::<u8>()?),
        None => None,
    };
    let depth = size.unwrap_or(6).clamp(1, 20);
    let square = read(alloc, unbisected(alloc)?.as_slice())?;
    let first_file = sample(alloc, &square.mesh, depth, 1)?;
    let second_file = sample(alloc, &square.mesh, depth, 2)?;
    let first = read(alloc, &first_file)?;
    let second = read(alloc, &second_file)?;
    let Ok(Some(joined)) = join(alloc, &first, &second) else {
        return Err(anyhow!("they were not joined"));
    };
    let one = first.members.len();
    let other = second.members.len();
    let bytes = joined.len();
    let sum = checksum(&joined);
    println!(rt; "{one} and {other} members joined: {bytes} bytes, checksum {sum}")?;
    if size.is_some() {
        tell_times(&rt, alloc, &first_file, &first, &second)?;
    }
    Ok(())
}
