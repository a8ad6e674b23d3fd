//! What a run leads to.
ghost use Rattle.std.specs.Prelude.{◌≡◌, ◌≤◌, All, IfErr, IfOk, Ok};
ghost use Rattle.mesh_names.specs.Marks.{IsWellFormed};
ghost use Rattle.mark_file.specs.Meaning.{rounds_read};
ghost use Rattle.adapt_words.specs.Rounds.{IsRunInRange, run_said};
ghost use Rattle.adapt_cli.specs.Outcome.{RunAsks, RunLeads, RunsTo};
ghost use Rattle.adapt_cli.specs.Stops.{IsStop, IsTextOf, StopsBy};

use crate::fault::{FileStop, Stop};
use crate::load::{load_macro, load_marks};
use crate::reports::report_rounds;
use crate::rounds::run_rounds;
use adapt_words::Run;
use compat_check::mesh::MacroMesh;
use forest_tree::forest::TreeForest;
use mesh_io::Shelf;
use mesh_names::rows::RoundMarks;
use mesh_rounds::adaptive::AdaptiveMesh;
use std::alloc::Global;
use std::thread::Threads;

/// The text that a run writes, or why there is none.
pub fn run_text<'a, R: Threads + Sync, S: Shelf>(
    rt: &R,
    alloc: Global,
    run: &Run<'a>,
    shelf: &mut S,
) -> Result<Vec<u8>, FileStop<'a>>
    requires { IsRunInRange run.now }
    ensures ok { IfOk result (λ text. IsTextOf (RunLeads (run_said run.now)) (S.files shelf.old) (S.faults shelf.old) (S.faults shelf.new) text.items) }
    ensures stopped { IfErr result (IsStop (RunLeads (run_said run.now)) (RunAsks (run_said run.now)) (S.files shelf.old) (S.steady shelf.old) (S.faults shelf.old) (S.faults shelf.new)) }
{
    let mesh = match load_macro(alloc, shelf, run.macro_file) {
        Ok(mesh) => mesh,
        Err(stop) => return Err(stop),
    };
    let rounds = match load_marks(alloc, shelf, run.marks_file) {
        Ok(rounds) => rounds,
        Err(stop) => return Err(stop),
    };
    match make_rounds(rt, alloc, &mesh, run, &rounds) {
        Ok(text) => Ok(text),
        Err(stop) => Err(FileStop::Stopped(stop)),
    }
}

// The text after these rounds on a mesh.
fn make_rounds<R: Threads + Sync>(
    rt: &R,
    alloc: Global,
    macro_mesh: &MacroMesh,
    run: &Run<'_>,
    rounds: &[RoundMarks],
) -> Result<Vec<u8>, Stop>
    requires ranges { IsRunInRange run.now }
    requires formed { All (λ r. All IsWellFormed r.rows.items) rounds.now }
    ensures ok { IfOk result (λ text. RunsTo macro_mesh.now (run_said run.now) (rounds_read rounds.now) (Ok text.items)) }
    ensures stopped { IfErr result (StopsBy (RunsTo macro_mesh.now (run_said run.now) (rounds_read rounds.now))) }
{
    let forest = TreeForest::new(alloc, macro_mesh, run.pool);
    let Ok(mut mesh) = AdaptiveMesh::new(alloc, macro_mesh, forest) else {
        return Err(Stop::Memory);
    };
    if run.report {
        return report_rounds(alloc, &mut mesh, rounds);
    }
    if let Err(stop) = run_rounds(alloc, &mut mesh, rounds) {
        return Err(stop);
    }
    match mesh.text(rt) {
        Ok(text) => Ok(text),
        Err(_) => Err(Stop::Memory),
    }
}
