//! Checks meshes that are made in memory, beside sorting their edges.
//!
//! With no argument the meshes have 2,000 elements, and what is told of them is printed. With a
//! number of elements, at most 65,535, they have so many, and the times and their ratios are printed too.
#![tactic(auto)]

mod rival;
mod sample;

use anyhow::{Result, anyhow};
use compat_check::{CheckRefusal, MacroMesh, check};
use macro_file::{MacroText, read_macro};
use rival::{edges, shared};
use sample::{Kind, Sample};
use std::alloc::Global;
use std::env;
use std::time::Instant;

// The least of the times of five runs, in microseconds, of the check and of sorting the edges.
#[derive(Clone, Copy)]
struct Times {
    check: u128,
    sort: u128,
}

fn read(alloc: Global, file: &str) -> Result<MacroText> {
    if file.len() > 16_777_216 {
        return Err(anyhow!("longer than 16777216 bytes"));
    }
    Ok(read_macro(alloc, file.as_bytes())?)
}

fn least_times(rt: &HostRuntime, alloc: Global, file: &str) -> Result<Times> {
    let mut times = Times {
        check: u128::MAX,
        sort: u128::MAX,
    };
    for _ in 0..5 {
        let text = read(alloc, file)?;
        let mut edges = edges(alloc, &text)?;
        let start = Instant::now(rt)?;
        edges.sort_unstable();
        let sorted = start.elapsed(rt)?.as_micros();
        let start = Instant::now(rt)?;
        let mesh = check(alloc, text);
        let checked = start.elapsed(rt)?.as_micros();
        if edges.is_empty() || mesh.is_err_and(|refusal| refusal == CheckRefusal::Memory) {
            return Err(anyhow!("nothing was checked"));
        }
        times = Times {
            check: times.check.min(checked),
            sort: times.sort.min(sorted),
        };
    }
    Ok(times)
}

// The greatest grade in a mesh.
fn greatest_grade(mesh: &MacroMesh) -> u8 {
    let mut greatest = 0;
    for element in 0..mesh.element_count() {
        greatest = greatest.max(mesh.grade(element));
    }
    greatest
}

fn tell(rt: &HostRuntime, alloc: Global, file: &str) -> Result<()> {
    let text = read(alloc, file)?;
    let mut edges = edges(alloc, &text)?;
    edges.sort_unstable();
    let shared = shared(edges.as_slice());
    match check(alloc, text) {
        Ok(mesh) => {
            let elements = mesh.element_count();
            let grade = greatest_grade(&mesh);
            println!(rt; "  {elements} elements, {shared} shared edges, grades to {grade}")?
        }
        Err(refusal) => println!(rt; "  {shared} shared edges, {refusal:?}")?,
    }
    Ok(())
}

fn tell_times(rt: &HostRuntime, alloc: Global, file: &str) -> Result<()> {
    let times = least_times(rt, alloc, file)?;
    let check = times.check;
    let sort = times.sort;
    let percent = check.saturating_mul(100) / sort.max(1);
    println!(rt; "  check {check} us, sort {sort} us: {percent} %")?;
    Ok(())
}

fn main(rt: HostRuntime) -> Result<()> {
    let alloc = rt.alloc();
    let size = match env::args(&rt)?.nth(1) {
        Some(word) => Some(word.parse::<u32>()?),
        None => None,
    };
    let count = size.unwrap_or(2_000).clamp(1, 65_535);
    let kinds = [
        ("even", Kind::Even),
        ("graded", Kind::Graded),
        ("turned", Kind::Turned),
    ];
    for (name, kind) in kinds {
        for scrambled in [false, true] {
            let sample = Sample {
                count,
                kind,
                scrambled,
            };
            let file = sample.file(alloc)?;
            let order = if scrambled { "scrambled" } else { "in order" };
            println!(rt; "{name}, {order}:")?;
            tell(&rt, alloc, file.as_str())?;
            if size.is_some() {
                tell_times(&rt, alloc, file.as_str())?;
            }
        }
    }
    Ok(())
}
