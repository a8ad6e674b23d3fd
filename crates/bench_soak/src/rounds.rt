//! Rounds of drawn marks, with and without values.
ghost use Rattle.std.specs.Prelude.{◌≤◌, All, IfOk};
ghost use Rattle.mesh_names.specs.Marks.{IsWellFormed};

use crate::times::Times;
use anyhow::{Result, anyhow};
use compat_check::mesh::MacroMesh;
use forest_plain::Forest;
use forest_tree::forest::TreeForest;
use mesh_names::rows::RoundMarks;
use mesh_rounds::adaptive::AdaptiveMesh;
use soak::{Draws, draw_round};
use std::alloc::Global;
use std::time::{Clock, Instant};

// One round of drawn marks, and the marks.
fn draw_one<R: Clock>(
    rt: &R,
    alloc: Global,
    mesh: &mut AdaptiveMesh<'_, TreeForest<'_>>,
    draws: &mut Draws,
    number: u32,
    times: &mut Times,
) -> Result<RoundMarks>
    ensures formed { IfOk result (λ r. All IsWellFormed r.rows.items) }
{
    let begun = Instant::now(rt)?;
    let Ok(leaves) = mesh.leaves() else {
        return Err(anyhow!("out of memory"));
    };
    times.leaves = times.leaves.saturating_add(begun.elapsed(rt)?.as_micros());
    let begun = Instant::now(rt)?;
    let marks = draw_round(alloc, mesh.macro_mesh(), draws, number, &leaves)?;
    times.drawing = times.drawing.saturating_add(begun.elapsed(rt)?.as_micros());
    drop(leaves);
    let begun = Instant::now(rt)?;
    if mesh.round(&marks).is_err() {
        return Err(anyhow!("round {number} was refused"));
    }
    times.rounds = times.rounds.saturating_add(begun.elapsed(rt)?.as_micros());
    Ok(marks)
}

/// Rounds of marks drawn from `start`, and the marks of each.
pub fn draw_rounds<R: Clock>(
    rt: &R,
    alloc: Global,
    mesh: &mut AdaptiveMesh<'_, TreeForest<'_>>,
    start: u32,
    rounds: u32,
    times: &mut Times,
) -> Result<Vec<RoundMarks>>
    requires start { start ≤ 65535 }
    requires few { rounds ≤ 64 }
    ensures formed { IfOk result (λ made. All (λ r. All IsWellFormed r.rows.items) made.items) }
{
    let mut draws = Draws::new(start);
    let mut made = Vec::new(alloc);
    for number in 0..rounds {
        let marks = draw_one(rt, alloc, mesh, &mut draws, number + 1, times)?;
        made.push(marks)?;
    }
    Ok(made)
}

/// Makes the rounds on a forest without values, and answers their time in microseconds.
pub fn forest_time<R: Clock>(
    rt: &R,
    alloc: Global,
    mesh: &MacroMesh,
    rounds: &[RoundMarks],
) -> Result<u128>
    requires { All (λ r. All IsWellFormed r.rows.items) rounds.now }
{
    let mut forest = TreeForest::new(alloc, mesh, 1_048_576);
    let begun = Instant::now(rt)?;
    for round in rounds {
        if forest.round(round).is_err() {
            return Err(anyhow!("a round was refused"));
        }
    }
    Ok(begun.elapsed(rt)?.as_micros())
}
