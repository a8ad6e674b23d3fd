//! Reads a macro file that is made in memory, beside a plain pass over the same bytes.
//!
//! With no argument the file is small, and the counts are printed. With a number of bytes the file is
//! about that long, and the times and their ratio are printed too.
#![tactic(auto)]

mod plain;
mod sample;

use anyhow::{Result, anyhow};
use macro_file::{MacroText, read_macro};
use std::alloc::Global;
use std::env;
use std::time::Instant;

// The least of the times of five runs, in microseconds, of the reader and of the plain pass.
#[derive(Clone, Copy)]
struct Times {
    reader: u128,
    plain: u128,
}

fn least_times(rt: &HostRuntime, alloc: Global, text: &[u8]) -> Result<Times> {
    let mut times = Times {
        reader: u128::MAX,
        plain: u128::MAX,
    };
    for _ in 0..5 {
        let start = Instant::now(rt)?;
        let tally = plain::pass(text);
        let passed = start.elapsed(rt)?.as_micros();
        let start = Instant::now(rt)?;
        let read = read(alloc, text)?;
        let taken = start.elapsed(rt)?.as_micros();
        if read.vertices.is_empty() || tally.tokens == 0 {
            return Err(anyhow!("nothing was read"));
        }
        times = Times {
            reader: times.reader.min(taken),
            plain: times.plain.min(passed),
        };
    }
    Ok(times)
}

fn read(alloc: Global, text: &[u8]) -> Result<MacroText> {
    if text.len() > 16_777_216 {
        return Err(anyhow!("longer than 16777216 bytes"));
    }
    Ok(read_macro(alloc, text)?)
}

fn main(rt: HostRuntime) -> Result<()> {
    let alloc = rt.alloc();
    let size = match env::args(&rt)?.nth(1) {
        Some(word) => Some(word.parse::<u32>()?),
        None => None,
    };
    let text = sample::file(alloc, size.unwrap_or(20_000))?;
    let bytes = text.as_bytes();
    let length = bytes.len();
    let tally = plain::pass(bytes);
    let read_text = read(alloc, bytes)?;
    let vertices = read_text.vertices.len();
    let elements = read_text.elements.len();
    let lines = tally.lines;
    let tokens = tally.tokens;
    println!(rt;
        "{length} bytes, {lines} lines, {tokens} words: {vertices} vertices, {elements} elements"
    )?;
    if size.is_some() {
        let times = least_times(&rt, alloc, bytes)?;
        let reader = times.reader;
        let plain = times.plain;
        let percent = reader.saturating_mul(100) / plain.max(1);
        println!(rt; "reader {reader} us, plain pass {plain} us: {percent} %")?;
    }
    Ok(())
}
