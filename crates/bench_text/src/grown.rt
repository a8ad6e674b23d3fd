//! A mesh that is bisected, and how long its text takes.
ghost use Rattle.std.specs.Prelude.{All};
ghost use Rattle.mesh_names.specs.Marks.{IsWellFormed};

use anyhow::{Result, anyhow};
use compat_check::mesh::MacroMesh;
use forest_tree::forest::TreeForest;
use mesh_names::rows::RoundMarks;
use mesh_rounds::adaptive::AdaptiveMesh;
use std::alloc::Global;
use std::thread::Threads;
use std::time::{Clock, Instant};

/// The sizes of a text, and the least of the times of five runs, in microseconds.
#[derive(Drop)]
pub struct Written {
    pub bytes: usize,
    pub checksum: u64,
    pub micros: u128,
}

/// The mesh after these rounds.
pub fn grow<'m>(
    alloc: Global,
    macro_mesh: &'m MacroMesh,
    rounds: &[RoundMarks],
) -> Result<AdaptiveMesh<'m, TreeForest<'m>>>
    requires { All (λ r. All IsWellFormed r.rows.items) rounds.now }
{
    let forest = TreeForest::new(alloc, macro_mesh, 1_048_576);
    let Ok(mut mesh) = AdaptiveMesh::new(alloc, macro_mesh, forest) else {
        return Err(anyhow!("out of memory"));
    };
    for round in rounds {
        if mesh.round(round).is_err() {
            return Err(anyhow!("a round was refused"));
        }
    }
    Ok(mesh)
}

// A sum over the bytes by which two texts are told apart.
fn checksum(text: &[u8]) -> u64 {
    let mut sum = 0_u64;
    for byte in text {
        sum = sum.wrapping_mul(31).wrapping_add(u64::from(*byte));
    }
    sum
}

/// Writes the text of a mesh five times. The time is that of the text without the listing of the leaves.
pub fn write_times<R: Threads + Clock + Sync>(
    rt: &R,
    mesh: &mut AdaptiveMesh<'_, TreeForest<'_>>,
) -> Result<Written> {
    let mut written = Written {
        bytes: 0,
        checksum: 0,
        micros: u128::MAX,
    };
    for _ in 0..5 {
        let start = Instant::now(rt)?;
        if mesh.leaves().is_err() {
            return Err(anyhow!("out of memory"));
        }
        let listing = start.elapsed(rt)?.as_micros();
        let start = Instant::now(rt)?;
        let Ok(text) = mesh.text(rt) else {
            return Err(anyhow!("out of memory"));
        };
        let micros = start.elapsed(rt)?.as_micros();
        written.micros = written.micros.min(micros.saturating_sub(listing));
        written.checksum = checksum(&text);
        written.bytes = text.len();
    }
    Ok(written)
}
