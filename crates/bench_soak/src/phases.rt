//! A soak by its phases.
ghost use Rattle.std.specs.Prelude.{◌≤◌};

use crate::rounds::{draw_rounds, forest_time};
use crate::times::Times;
use anyhow::{Result, anyhow};
use compat_check::check;
use compat_check::mesh::MacroMesh;
use forest_tree::forest::TreeForest;
use mesh_rounds::adaptive::AdaptiveMesh;
use soak::grid;
use std::alloc::Global;
use std::thread::Threads;
use std::time::{Clock, Instant};

/// The numbers of a soak.
#[derive(Clone, Copy)]
pub struct Soak {
    pub start: u32,
    pub side: u32,
    pub rounds: u32,
}

/// What the line of a soak tells, and a checksum of the text.
#[derive(Clone, Copy)]
pub struct Counts {
    pub leaves: usize,
    pub vertices: u64,
    pub patches: u32,
    pub bytes: usize,
    pub checksum: u64,
}

// A sum over the bytes by which two texts are told apart.
fn checksum(text: &[u8]) -> u64 {
    let mut sum = 0_u64;
    for byte in text {
        sum = sum.wrapping_mul(31).wrapping_add(u64::from(*byte));
    }
    sum
}

// The checked grid.
fn grid_mesh<R: Clock>(rt: &R, alloc: Global, side: u32, times: &mut Times) -> Result<MacroMesh>
    requires { (1 ≤ side) × (side ≤ 128) }
{
    let begun = Instant::now(rt)?;
    let text = grid(alloc, side)?;
    times.grid = begun.elapsed(rt)?.as_micros();
    let begun = Instant::now(rt)?;
    let Ok(mesh) = check(alloc, text) else {
        return Err(anyhow!("the grid was refused"));
    };
    times.check = begun.elapsed(rt)?.as_micros();
    Ok(mesh)
}

// Writes the text, and counts what the line of a soak tells.
fn write_text<R: Threads + Clock + Sync>(
    rt: &R,
    mesh: &mut AdaptiveMesh<'_, TreeForest<'_>>,
    times: &mut Times,
) -> Result<Counts> {
    let begun = Instant::now(rt)?;
    let Ok(counts) = mesh.counts() else {
        return Err(anyhow!("out of memory"));
    };
    times.last_leaves = begun.elapsed(rt)?.as_micros();
    let begun = Instant::now(rt)?;
    let Ok(text) = mesh.text(rt) else {
        return Err(anyhow!("out of memory"));
    };
    // The text lists the leaves once more, which is a phase of its own.
    let micros = begun.elapsed(rt)?.as_micros();
    times.text = micros.saturating_sub(times.last_leaves);
    Ok(Counts {
        leaves: counts.leaves,
        vertices: counts.vertices,
        patches: counts.patches,
        bytes: text.len(),
        checksum: checksum(&text),
    })
}

// The rounds of a soak on its mesh, and the text of what they lead to.
fn run_on<R: Threads + Clock + Sync>(
    rt: &R,
    alloc: Global,
    macro_mesh: &MacroMesh,
    soak: Soak,
    times: &mut Times,
) -> Result<Counts>
    requires { (soak.start ≤ 65535) × (soak.rounds ≤ 64) }
{
    let forest = TreeForest::new(alloc, macro_mesh, 1_048_576);
    let begun = Instant::now(rt)?;
    let Ok(mut mesh) = AdaptiveMesh::new(alloc, macro_mesh, forest) else {
        return Err(anyhow!("out of memory"));
    };
    times.first_values = begun.elapsed(rt)?.as_micros();
    let marks = draw_rounds(rt, alloc, &mut mesh, soak.start, soak.rounds, times)?;
    times.forest = forest_time(rt, alloc, macro_mesh, &marks)?;
    write_text(rt, &mut mesh, times)
}

/// Makes a soak, and answers what its line tells and how long its phases took.
pub fn run<R: Threads + Clock + Sync>(rt: &R, alloc: Global, soak: Soak) -> Result<(Counts, Times)>
    requires { (soak.start ≤ 65535) × (1 ≤ soak.side) × (soak.side ≤ 128) × (soak.rounds ≤ 64) }
{
    let mut times = Times::new();
    let mesh = grid_mesh(rt, alloc, soak.side, &mut times)?;
    let counts = run_on(rt, alloc, &mesh, soak, &mut times)?;
    Ok((counts, times))
}
