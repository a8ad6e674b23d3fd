//! Reads a marks file that is made in memory, beside `csv` going over its records.
//!
//! With no argument the file has 2,000 rows, and the counts are printed. With a number of rows
//! the file has so many, and the times and their ratio are printed too.
#![tactic(auto)]

mod plain;
mod sample;

use anyhow::{Result, anyhow};
use mark_file::read::read_marks;
use mesh_names::rows::RoundMarks;
use std::alloc::Global;
use std::env;
use std::time::Instant;

/// The most bytes of a marks file.
const LIMIT: usize = 67_108_864;

// The least of the times of five runs, in microseconds, of the reader and of `csv` alone.
#[derive(Clone, Copy)]
struct Times {
    reader: u128,
    plain: u128,
}

fn read(alloc: Global, text: &[u8]) -> Result<Vec<RoundMarks>> {
    if text.len() > LIMIT {
        return Err(anyhow!("longer than {LIMIT} bytes"));
    }
    Ok(read_marks(alloc, text)?)
}

fn least_times(rt: &HostRuntime, alloc: Global, text: &[u8]) -> Result<Times> {
    let mut times = Times {
        reader: u128::MAX,
        plain: u128::MAX,
    };
    for _ in 0..5 {
        let start = Instant::now(rt)?;
        let tally = plain::pass(alloc, text)?;
        let passed = start.elapsed(rt)?.as_micros();
        let start = Instant::now(rt)?;
        let rounds = read(alloc, text)?;
        let taken = start.elapsed(rt)?.as_micros();
        if rounds.is_empty() || tally.records == 0 {
            return Err(anyhow!("nothing was read"));
        }
        times = Times {
            reader: times.reader.min(taken),
            plain: times.plain.min(passed),
        };
    }
    Ok(times)
}

fn main(rt: HostRuntime) -> Result<()> {
    let alloc = rt.alloc();
    let rows = match env::args(&rt)?.nth(1) {
        Some(word) => Some(word.parse::<u32>()?),
        None => None,
    };
    let text = sample::file(alloc, rows.unwrap_or(2_000))?;
    let bytes = text.as_bytes();
    let length = bytes.len();
    let tally = plain::pass(alloc, bytes)?;
    let records = tally.records;
    let fields = tally.fields;
    let rounds = read(alloc, bytes)?;
    let count = rounds.len();
    let last = match rounds.last() {
        Some(round) => round.rows.len(),
        None => 0,
    };
    println!(rt;
        "{length} bytes, {records} records, {fields} fields: {count} rounds, {last} rows in the last"
    )?;
    if rows.is_some() {
        let times = least_times(&rt, alloc, bytes)?;
        let reader = times.reader;
        let plain = times.plain;
        let percent = reader.saturating_mul(100) / plain.max(1);
        println!(rt; "reader {reader} us, csv alone {plain} us: {percent} %")?;
    }
    Ok(())
}
