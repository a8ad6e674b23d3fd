//! The times of reading, writing and joining, and of their rivals.
ghost use Rattle.restart_file.specs.Joined.{KeepsForest};

use crate::rival::{copy, merge, numbers, pass};
use crate::trial::{laid_over, read, written};
use anyhow::{Result, anyhow};
use restart_file::Restart;
use std::alloc::Global;
use std::time::Instant;

// The least of the times of five runs, in microseconds, of a call and of its rival.
#[derive(Clone, Copy)]
struct Times {
    call: u128,
    rival: u128,
}

impl Times {
    fn none() -> Times {
        Times {
            call: u128::MAX,
            rival: u128::MAX,
        }
    }

    fn least(self, call: u128, rival: u128) -> Times {
        Times {
            call: self.call.min(call),
            rival: self.rival.min(rival),
        }
    }

    fn tell(self, rt: &HostRuntime, what: &str, other: &str) -> Result<()> {
        let call = self.call;
        let rival = self.rival;
        let percent = call.saturating_mul(100) / rival.max(1);
        println!(rt; "{what} {call} us, {other} {rival} us: {percent} %")?;
        Ok(())
    }
}

fn reading(rt: &HostRuntime, alloc: Global, file: &[u8]) -> Result<Times> {
    let mut times = Times::none();
    for _ in 0..5 {
        let start = Instant::now(rt)?;
        let tally = pass(file);
        let rival = start.elapsed(rt)?.as_micros();
        let start = Instant::now(rt)?;
        let kept = read(alloc, file)?;
        let call = start.elapsed(rt)?.as_micros();
        if kept.members.is_empty() || tally.ones == 0 || tally.lines == 0 || tally.open == 0 {
            return Err(anyhow!("nothing was read"));
        }
        times = times.least(call, rival);
    }
    Ok(times)
}

fn writing(rt: &HostRuntime, alloc: Global, file: &[u8], kept: &Restart) -> Result<Times>
    requires { KeepsForest kept.now.macro_bytes.items kept.now.mesh kept.now.members.items }
{
    let mut times = Times::none();
    for _ in 0..5 {
        let start = Instant::now(rt)?;
        let same = copy(alloc, file)?;
        let rival = start.elapsed(rt)?.as_micros();
        let start = Instant::now(rt)?;
        let made = written(alloc, kept)?;
        let call = start.elapsed(rt)?.as_micros();
        if made.as_slice() != same.as_slice() {
            return Err(anyhow!("the file is another"));
        }
        times = times.least(call, rival);
    }
    Ok(times)
}

fn joining(rt: &HostRuntime, alloc: Global, first: &Restart, second: &Restart) -> Result<Times>
    requires first { KeepsForest first.now.macro_bytes.items first.now.mesh first.now.members.items }
    requires second { KeepsForest second.now.macro_bytes.items second.now.mesh second.now.members.items }
{
    let mut times = Times::none();
    let one = numbers(alloc, &first.members)?;
    let other = numbers(alloc, &second.members)?;
    for _ in 0..5 {
        let start = Instant::now(rt)?;
        let both = merge(alloc, &one, &other)?;
        let rival = start.elapsed(rt)?.as_micros();
        let start = Instant::now(rt)?;
        let members = laid_over(alloc, first, second)?;
        let call = start.elapsed(rt)?.as_micros();
        if members.len() != both.len() {
            return Err(anyhow!("the overlay is another"));
        }
        times = times.least(call, rival);
    }
    Ok(times)
}

/// Prints the times of reading and writing the first file, and of joining both.
pub fn tell_times(
    rt: &HostRuntime,
    alloc: Global,
    file: &[u8],
    first: &Restart,
    second: &Restart,
) -> Result<()>
    requires first { KeepsForest first.now.macro_bytes.items first.now.mesh first.now.members.items }
    requires second { KeepsForest second.now.macro_bytes.items second.now.mesh second.now.members.items }
{
    let bytes = file.len();
    println!(rt; "{bytes} bytes")?;
    reading(rt, alloc, file)?.tell(rt, "read", "plain pass")?;
    writing(rt, alloc, file, first)?.tell(rt, "write", "copy")?;
    joining(rt, alloc, first, second)?.tell(rt, "join", "merge")
}
