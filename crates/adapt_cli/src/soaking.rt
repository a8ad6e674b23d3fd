//! Rounds of drawn marks on a grid.
ghost use Rattle.std.specs.Prelude.{◌≡◌, ◌≤◌, IfErr, IfOk, OnOk, Ok, string_bytes};
ghost use Rattle.mesh_rounds.specs.Adaptive.{mesh_of, seen_of, state_of};
ghost use Rattle.mesh_rounds.specs.State.{IsState};
ghost use Rattle.adapt_words.specs.Rounds.{IsSoakInRange, soak_said};
ghost use Rattle.adapt_cli.specs.Soaks.{DrawnTo, DrawsTo, IsGridMesh, IsSoakOutcome, TellsOf, soak_head, soak_line};
ghost use Rattle.adapt_cli.specs.Stops.{StopsBy};

use crate::fault::{Stop, round_stop};
use adapt_words::Soak;
use compat_check::mesh::MacroMesh;
use compat_check::{CheckRefusal, check};
use forest_tree::forest::TreeForest;
use mesh_rounds::adaptive::{AdaptiveMesh, Counts};
use soak::laws::grids_pass;
use soak::{Draws, draw_round, grid};
use std::alloc::{AllocError, Global};
use std::thread::Threads;

// The checked grid; the check refuses no grid, but for want of memory.
fn grid_mesh(alloc: Global, side: u32) -> Result<MacroMesh, CheckRefusal>
    requires { (1 ≤ side) × (side ≤ 128) }
    ensures ok { IfOk result (IsGridMesh side) }
    ensures memory { IfErr result (λ r. r ≡ CheckRefusal.Memory) }
{
    grids_pass();
    let Ok(text) = grid(alloc, side) else {
        return Err(CheckRefusal::Memory);
    };
    match check(alloc, text) {
        Ok(mesh) => Ok(mesh),
        Err(refusal) => Err(refusal),
    }
}

// One round of drawn marks.
fn draw_one(
    alloc: Global,
    mesh: &mut AdaptiveMesh<'_, TreeForest<'_>>,
    draws: &mut Draws,
    number: u32,
) -> Result<(), Stop>
    requires state { IsState (mesh_of mesh.old) (state_of mesh.old) }
    ensures ok { OnOk result (DrawnTo (mesh_of mesh.old) (seen_of mesh.old).pool number draws.old (state_of mesh.old) draws.new (state_of mesh.new)) }
    ensures state { OnOk result (IsState (mesh_of mesh.new) (state_of mesh.new)) }
    ensures stopped { IfErr result (StopsBy (DrawsTo (mesh_of mesh.old) (seen_of mesh.old).pool 1 number draws.old (state_of mesh.old))) }
    ensures same { (mesh_of mesh.new ≡ mesh_of mesh.old) × ((seen_of mesh.new).pool ≡ (seen_of mesh.old).pool) }
{
    let Ok(leaves) = mesh.leaves() else {
        return Err(Stop::Memory);
    };
    let Ok(marks) = draw_round(alloc, mesh.macro_mesh(), draws, number, &leaves) else {
        return Err(Stop::Memory);
    };
    drop(leaves);
    match mesh.round(&marks) {
        Ok(()) => Ok(()),
        Err(refusal) => Err(round_stop(alloc, number, refusal)),
    }
}

// Rounds of marks drawn from `start`, in order, up to the first that is refused.
fn draw_rounds(
    alloc: Global,
    mesh: &mut AdaptiveMesh<'_, TreeForest<'_>>,
    start: u32,
    rounds: u32,
) -> Result<(), Stop>
    requires start { start ≤ 65535 }
    requires few { rounds ≤ 64 }
    requires state { IsState (mesh_of mesh.old) (state_of mesh.old) }
    ensures ok { OnOk result (DrawsTo (mesh_of mesh.old) (seen_of mesh.old).pool rounds 1 (record { state = start; row = 1 }) (state_of mesh.old) (Ok (state_of mesh.new))) }
    ensures stopped { IfErr result (StopsBy (DrawsTo (mesh_of mesh.old) (seen_of mesh.old).pool rounds 1 (record { state = start; row = 1 }) (state_of mesh.old))) }
    ensures same { mesh_of mesh.new ≡ mesh_of mesh.old }
{
    let mut draws = Draws::new(start);
    for made in 0..rounds {
        if let Err(stop) = draw_one(alloc, mesh, &mut draws, made + 1) {
            return Err(stop);
        }
    }
    Ok(())
}

// How the line of a soak begins.
fn head_text(alloc: Global, soak: &Soak) -> Result<String, AllocError>
    ensures { IfOk result (λ t. string_bytes t ≡ soak_head (soak_said soak.now)) }
{
    let (start, grid, rounds) = (soak.start, soak.grid, soak.rounds);
    format!(in alloc; "soak {start} grid {grid} rounds {rounds}")
}

// The line of a mesh with these counts, whose text has so many bytes.
fn line_text(alloc: Global, soak: &Soak, counts: Counts, bytes: usize) -> Result<String, Stop>
    ensures ok { IfOk result (λ line. string_bytes line ≡ soak_line (soak_said soak.now) counts.leaves counts.vertices counts.patches bytes) }
    ensures memory { IfErr result (λ stop. stop ≡ Stop.Memory) }
{
    let (leaves, vertices, patches) = (counts.leaves, counts.vertices, counts.patches);
    let head = head_text(alloc, soak)?;
    let line = format!(in alloc;
        "{head} leaves {leaves} vertices {vertices} patches {patches} bytes {bytes}\n"
    )?;
    Ok(line)
}

// The line of a mesh.
fn tell<R: Threads + Sync>(
    rt: &R,
    alloc: Global,
    soak: &Soak,
    mesh: &mut AdaptiveMesh<'_, TreeForest<'_>>,
) -> Result<Vec<u8>, Stop>
    ensures ok { IfOk result (λ line. TellsOf (mesh_of mesh.old) (soak_said soak.now) (state_of mesh.old) line.items) }
    ensures memory { IfErr result (λ stop. stop ≡ Stop.Memory) }
{
    let Ok(counts) = mesh.counts() else {
        return Err(Stop::Memory);
    };
    let Ok(text) = mesh.text(rt) else {
        return Err(Stop::Memory);
    };
    let Ok(line) = line_text(alloc, soak, counts, text.len()) else {
        return Err(Stop::Memory);
    };
    Ok(line.into_bytes())
}

/// The line that a soak writes, or why there is none.
pub fn soak_text<R: Threads + Sync>(rt: &R, alloc: Global, soak: &Soak) -> Result<Vec<u8>, Stop>
    requires { IsSoakInRange soak.now }
    ensures ok { IfOk result (λ line. IsSoakOutcome (soak_said soak.now) (Ok line.items)) }
    ensures stopped { IfErr result (StopsBy (IsSoakOutcome (soak_said soak.now))) }
{
    let Ok(macro_mesh) = grid_mesh(alloc, soak.grid) else {
        return Err(Stop::Memory);
    };
    let forest = TreeForest::new(alloc, &macro_mesh, soak.pool);
    let Ok(mut mesh) = AdaptiveMesh::new(alloc, &macro_mesh, forest) else {
        return Err(Stop::Memory);
    };
    if let Err(stop) = draw_rounds(alloc, &mut mesh, soak.start, soak.rounds) {
        return Err(stop);
    }
    tell(rt, alloc, soak, &mut mesh)
}
