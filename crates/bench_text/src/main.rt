//! Writes the text of a refined grid, beside printing as many numbers in one loop.
//!
//! With no argument a grid of 4 by 4 squares is refined twice, and the sizes and a checksum of its text
//! are printed. With a number of bisections, at most 7, a grid of 64 by 64 squares is refined so often
//! (7 give 1,048,576 leaves), and the times and their ratio are printed too.
#![tactic(auto)]

ghost use Rattle.std.specs.Prelude.{All, IfOk};
ghost use Rattle.mesh_names.specs.Marks.{IsWellFormed};

mod grown;
mod rival;

use adapt_cli::load::{load_macro, load_marks};
use anyhow::{Result, anyhow};
use compat_check::mesh::MacroMesh;
use grown::{grow, write_times};
use mesh_io::MemShelf;
use mesh_names::rows::RoundMarks;
use rival::{Numbers, print_all};
use std::alloc::{AllocError, Global};
use std::env;
use std::fmt::Write;
use std::time::Instant;

// The macro file of a grid of squares, each of two triangles with the diagonal as refinement edge.
fn grid(alloc: Global, side: u8) -> Result<String, AllocError> {
    let row = u64::from(side) + 1;
    let vertices = row * row;
    let elements = u64::from(side) * u64::from(side) * 2;
    let mut text = format!(in alloc;
        "number of vertices: {vertices}\nnumber of elements: {elements}\nvertex coordinates:\n"
    )?;
    for y in 0..=side {
        for x in 0..=side {
            write!(text, "{x} {y}\n")?;
        }
    }
    write!(text, "element vertices:\n")?;
    for y in 0..side {
        for x in 0..side {
            let low = u64::from(y) * row + u64::from(x);
            let (right, up) = (low + 1, low + row);
            let high = up + 1;
            write!(text, "{high} {low} {right}\n{low} {high} {up}\n")?;
        }
    }
    Ok(text)
}

// A shelf with one file.
fn shelf(alloc: Global, name: &str, text: &str) -> Result<MemShelf, AllocError> {
    let mut held = Vec::new(alloc);
    held.push((name.to_string(alloc)?, text.as_bytes().to_vec(alloc)?))?;
    Ok(MemShelf::new(held, Vec::new(alloc)))
}

fn grid_mesh(alloc: Global, side: u8) -> Result<MacroMesh, AllocError> {
    let text = grid(alloc, side)?;
    let mut shelf = shelf(alloc, "q", &text)?;
    match load_macro(alloc, &mut shelf, "q") {
        Ok(mesh) => Ok(mesh),
        Err(_) => Err(AllocError),
    }
}

// One round that bisects every leaf so often.
fn all_marked(alloc: Global, times: u32) -> Result<Vec<RoundMarks>, AllocError>
    ensures { IfOk result (λ rounds. All (λ r. All IsWellFormed r.rows.items) rounds.items) }
{
    let text = format!(in alloc; "round,what,where,number\n1,mark,*,{times}\n")?;
    let mut shelf = shelf(alloc, "m", &text)?;
    match load_marks(alloc, &mut shelf, "m") {
        Ok(rounds) => Ok(rounds),
        Err(_) => Err(AllocError),
    }
}

// The least of the times of five runs, in microseconds, of the text and of its numbers alone.
fn tell_times(rt: &HostRuntime, alloc: Global, text: u128, numbers: &Numbers) -> Result<()> {
    let mut printed = u128::MAX;
    for _ in 0..5 {
        let start = Instant::now(rt)?;
        let length = print_all(alloc, numbers)?.len();
        printed = printed.min(start.elapsed(rt)?.as_micros());
        if length == 0 {
            return Err(anyhow!("nothing was printed"));
        }
    }
    let percent = text.saturating_mul(100) / printed.max(1);
    println!(rt; "text {text} us, numbers {printed} us: {percent} %")?;
    Ok(())
}

fn main(rt: HostRuntime) -> Result<()> {
    let alloc = rt.alloc();
    let size = match env::args(&rt)?.nth(1) {
        Some(word) => Some(word.parse::<u32>()?),
        None => None,
    };
    let side = if size.is_some() { 64 } else { 4 };
    let mesh = grid_mesh(alloc, side)?;
    let rounds = all_marked(alloc, size.unwrap_or(2).clamp(1, 7))?;
    let mut grown = grow(alloc, &mesh, &rounds)?;
    let written = write_times(&rt, &mut grown)?;
    let Ok(leaves) = grown.leaves() else {
        return Err(anyhow!("out of memory"));
    };
    let count = leaves.len();
    let (bytes, sum) = (written.bytes, written.checksum);
    println!(rt; "{count} leaves, {bytes} bytes, checksum {sum}")?;
    if size.is_some() {
        let numbers = Numbers::of(alloc, grown.macro_mesh(), &leaves)?;
        tell_times(&rt, alloc, written.micros, &numbers)?;
    }
    Ok(())
}
