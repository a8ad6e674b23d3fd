//! Whole calls of `adapt`, as a script on standard input says, with all that they write and tell.
//!
//! A line `== file NAME` begins a file, whose lines follow, up to the next line with `==`.
//! `== call WORDS` calls `adapt` with these words on the files so far, and what it writes is the file
//! `out` of the calls after it. Printed is, of each call, the line, what it wrote and told, and its
//! status where that is not 0. `== corner`, with a macro file as its lines, refines that domain at its
//! vertex 3 in five steps, and prints what the leaves are. All that is printed was worked out by hand
//! or by a model of its own.
#![tactic(auto)]

mod call;
mod corner;

use anyhow::Result;
use call::{Held, call, hold, text_of};
use corner::{leaves_after, step};
use std::alloc::Global;
use std::io;
use std::thread::Threads;

// Calls the program, prints what it says, and keeps what it wrote.
fn take_call<R: Threads + Print + Sync>(
    rt: &R,
    alloc: Global,
    words: &str,
    held: &mut Vec<Held>,
) -> Result<()> {
    let ran = call(rt, alloc, words, held)?;
    let out = text_of(alloc, ran.out.bytes())?;
    let err = text_of(alloc, ran.err.bytes())?;
    let status = ran.status;
    print!(rt; "$ adapt {words}\n{out}{err}")?;
    if status != 0 {
        println!(rt; "status {status}")?;
    }
    hold(alloc, held, "out", out.as_str())
}

// Prints how many leaves there are, and the names of those that have the corner.
fn tell_leaves<R: Threads + Print + Sync>(
    rt: &R,
    alloc: Global,
    domain: &str,
    marks: &str,
    round: u32,
) -> Result<()> {
    let leaves = leaves_after(rt, alloc, domain, marks, round)?;
    let mut longest = 0;
    for name in &leaves.others {
        longest = longest.max(name.len());
    }
    let others = leaves.others.len();
    println!(rt;
        "{others} leaves without the corner, with names up to {longest} long, and with it:"
    )?;
    for name in &leaves.at_corner {
        println!(rt; "{name}")?;
    }
    Ok(())
}

// Refines a domain at its corner in five steps: the values of a step, and then its marks, make two rounds.
fn take_corner<R: Threads + Print + Sync>(rt: &R, alloc: Global, domain: &str) -> Result<()> {
    let mut marks = "round,what,where,number\n".to_string(alloc)?;
    for number in 0..5 {
        marks = step(rt, alloc, domain, marks.as_str(), 2 * number + 1)?;
        tell_leaves(rt, alloc, domain, marks.as_str(), 2 * number + 3)?;
    }
    Ok(())
}

// Takes a part of the script: its first line and the lines after that.
fn take<R: Threads + Print + Sync>(
    rt: &R,
    alloc: Global,
    head: &str,
    body: &str,
    held: &mut Vec<Held>,
) -> Result<()> {
    if let Some(name) = head.strip_prefix("file ") {
        hold(alloc, held, name, body)?;
    }
    if let Some(words) = head.strip_prefix("call ") {
        take_call(rt, alloc, words, held)?;
    }
    if head == "corner" {
        take_corner(rt, alloc, body)?;
    }
    Ok(())
}

fn main(rt: HostRuntime) -> Result<()> {
    let alloc = rt.alloc();
    let script = io::read_to_string(alloc, rt.stdin())?;
    let mut held = Vec::new(alloc);
    for part in script.split("== ") {
        if let Some((head, body)) = part.split_once('\n') {
            take(&rt, alloc, head, body, &mut held)?;
        }
    }
    Ok(())
}
