//! Orients meshes that are made in memory, beside checking what comes of them.
//!
//! With no argument the meshes have 31 squares in a row, and what is told of them is printed. With a
//! number of squares, at most 181, they have so many in a row, and the times and their ratios are printed
//! too.
#![tactic(auto)]

mod sample;

use anyhow::{Result, anyhow};
use compat_check::check;
use macro_file::{MacroText, read_macro};
use mesh_orient::orient;
use sample::{Ends, Sample};
use std::alloc::Global;
use std::env;
use std::time::Instant;

// The least of the times of five runs, in microseconds, of orienting and of the check of the result.
#[derive(Clone, Copy)]
struct Times {
    orient: u128,
    check: u128,
}

fn read(alloc: Global, file: &str) -> Result<MacroText> {
    if file.len() > 16_777_216 {
        return Err(anyhow!("longer than 16777216 bytes"));
    }
    Ok(read_macro(alloc, file.as_bytes())?)
}

fn oriented(alloc: Global, text: &MacroText) -> Result<MacroText> {
    orient(alloc, text).map_err(|refusal| anyhow!("{refusal:?}"))
}

fn least_times(rt: &HostRuntime, alloc: Global, file: &str) -> Result<Times> {
    let mut times = Times {
        orient: u128::MAX,
        check: u128::MAX,
    };
    for _ in 0..5 {
        let text = read(alloc, file)?;
        let start = Instant::now(rt)?;
        let made = oriented(alloc, &text)?;
        let orient = start.elapsed(rt)?.as_micros();
        let start = Instant::now(rt)?;
        let mesh = check(alloc, made);
        let check = start.elapsed(rt)?.as_micros();
        if mesh.is_err() {
            return Err(anyhow!("nothing was checked"));
        }
        times = Times {
            orient: times.orient.min(orient),
            check: times.check.min(check),
        };
    }
    Ok(times)
}

fn tell(rt: &HostRuntime, alloc: Global, file: &str) -> Result<()> {
    let text = read(alloc, file)?;
    let made = oriented(alloc, &text)?;
    match check(alloc, text) {
        Ok(_) => println!(rt; "  accepted before")?,
        Err(refusal) => println!(rt; "  {refusal:?} before")?,
    }
    match check(alloc, made) {
        Ok(mesh) => {
            let elements = mesh.element_count();
            println!(rt; "  {elements} elements after")?
        }
        Err(refusal) => println!(rt; "  {refusal:?} after")?,
    }
    Ok(())
}

fn tell_times(rt: &HostRuntime, alloc: Global, file: &str) -> Result<()> {
    let times = least_times(rt, alloc, file)?;
    let orient = times.orient;
    let check = times.check;
    let percent = orient.saturating_mul(100) / check.max(1);
    println!(rt; "  orient {orient} us, check {check} us: {percent} %")?;
    Ok(())
}

fn main(rt: HostRuntime) -> Result<()> {
    let alloc = rt.alloc();
    let size = match env::args(&rt)?.nth(1) {
        Some(word) => Some(word.parse::<u32>()?),
        None => None,
    };
    let side = size.unwrap_or(31).clamp(3, 181);
    for (name, ends) in [("square", Ends::Apart), ("torus", Ends::Joined)] {
        for scrambled in [false, true] {
            let sample = Sample {
                side,
                ends,
                scrambled,
            };
            let file = sample.file(alloc)?;
            let order = if scrambled { "scrambled" } else { "in order" };
            println!(rt; "{name}, {order}:")?;
            tell(&rt, alloc, file.as_str())?;
            if size.is_some() {
                tell_times(&rt, alloc, file.as_str())?;
            }
        }
    }
    Ok(())
}
