//! A loop of runs and calls for marks, as a solver would make it, which refines a domain at a corner.
use crate::call::{Held, call, hold, text_of};
use anyhow::Result;
use std::alloc::Global;
use std::thread::Threads;

/// The leaves after some rounds: the names of those that have the corner, and of the others.
#[derive(Drop)]
pub struct Leaves {
    pub at_corner: Vec<String>,
    pub others: Vec<String>,
}

// What these words write, where `domain` is the domain and `m` has these marks.
fn written<R: Threads + Sync>(
    rt: &R,
    alloc: Global,
    words: &str,
    domain: &str,
    marks: &str,
) -> Result<String> {
    let mut held: Vec<Held> = Vec::new(alloc);
    hold(alloc, &mut held, "domain", domain)?;
    hold(alloc, &mut held, "m", marks)?;
    let ran = call(rt, alloc, words, &held)?;
    text_of(alloc, ran.out.bytes())
}

// The names that the rows of a marks file have.
fn names_in(alloc: Global, rows: &str) -> Result<Vec<String>> {
    let mut names = Vec::new(alloc);
    for row in rows.lines().skip(1) {
        if let Some(name) = row.split(',').nth(2) {
            names.push(name.to_string(alloc)?)?;
        }
    }
    Ok(names)
}

// Whether each element of a mesh has vertex 3, the corner.
fn corner_flags(alloc: Global, mesh: &str) -> Result<Vec<bool>> {
    let mut flags = Vec::new(alloc);
    let lines = mesh
        .lines()
        .skip_while(|line| *line != "element vertices:")
        .skip(1)
        .take_while(|line| !line.is_empty());
    for line in lines {
        flags.push(line.split(' ').any(|vertex| vertex == "3"))?;
    }
    Ok(flags)
}

/// The leaves after these marks, where `round` is the next round. Their names come from a call for
/// marks in which each leaf has the value 1, and their corners from a run.
pub fn leaves_after<R: Threads + Sync>(
    rt: &R,
    alloc: Global,
    domain: &str,
    marks: &str,
    round: u32,
) -> Result<Leaves> {
    let valued = format!(in alloc; "{marks}{round},elem,*,1\n")?;
    let rows = written(rt, alloc, "mark domain m max:1/1", domain, &valued)?;
    let names = names_in(alloc, &rows)?;
    let mesh = written(rt, alloc, "run domain m", domain, marks)?;
    let flags = corner_flags(alloc, &mesh)?;
    let mut leaves = Leaves {
        at_corner: Vec::new(alloc),
        others: Vec::new(alloc),
    };
    for (name, is_there) in names.into_iter().zip(flags) {
        if is_there {
            leaves.at_corner.push(name)?;
        } else {
            leaves.others.push(name)?;
        }
    }
    Ok(leaves)
}

// Appends a value for each of the names.
fn put_values(
    alloc: Global,
    rows: &mut String,
    round: u32,
    names: &[String],
    value: u32,
) -> Result<()> {
    for name in names {
        let row = format!(in alloc; "{round},elem,{name},{value}\n")?;
        rows.push_str(row.as_str())?;
    }
    Ok(())
}

/// The marks with those of one step more: the leaves at the corner get the value 4 and all others 1,
/// and those with at least half of the greatest are marked for the round after.
pub fn step<R: Threads + Sync>(
    rt: &R,
    alloc: Global,
    domain: &str,
    marks: &str,
    round: u32,
) -> Result<String> {
    let leaves = leaves_after(rt, alloc, domain, marks, round)?;
    let mut valued = marks.to_string(alloc)?;
    put_values(alloc, &mut valued, round, &leaves.at_corner, 4)?;
    put_values(alloc, &mut valued, round, &leaves.others, 1)?;
    let rows = written(rt, alloc, "mark domain m max:1/2", domain, &valued)?;
    for row in rows.lines().skip(1) {
        valued.push_str(row)?;
        valued.push_str("\n")?;
    }
    Ok(valued)
}
