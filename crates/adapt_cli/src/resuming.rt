//! The mesh that a run leads to which goes on from a restart file.
ghost use Rattle.std.specs.Prelude.{◌≡◌, ◌≤◌, All, IfErr, IfOk, Ok, length};
ghost use Rattle.mesh_names.specs.Marks.{IsWellFormed};
ghost use Rattle.compat_check.specs.Meshes.{shape_of};
ghost use Rattle.mark_file.specs.Meaning.{rounds_read};
ghost use Rattle.restart_file.specs.Kept.{IsKept};
ghost use Rattle.adapt_words.specs.Restarts.{IsResumeInRange, resume_said};
ghost use Rattle.adapt_cli.specs.Resuming.{CanGoOn, IsTooLarge, ResumeAsks, ResumeLeads, ResumesTo};
ghost use Rattle.adapt_cli.specs.Stops.{IsStop, IsTextOf, StopsBy};

use crate::fault::{FileStop, Stop, refused};
use crate::load::{load_marks, load_restart};
use crate::marking::no_round_left;
use crate::rounds::run_rounds;
use adapt_words::Resume;
use compat_check::mesh::MacroMesh;
use forest_tree::forest::TreeForest;
use mesh_io::Shelf;
use mesh_names::name::ElemName;
use mesh_names::rows::RoundMarks;
use mesh_rounds::adaptive::AdaptiveMesh;
use mesh_rounds::resuming::count_patches;
use std::alloc::Global;
use std::thread::Threads;

// How many rounds can follow those that make the kept forest.
const ROUNDS: usize = 65_511;

/// The text of the mesh that a run leads to which goes on from a restart file, or why there is none.
pub fn resume_text<'a, R: Threads + Sync, S: Shelf>(
    rt: &R,
    alloc: Global,
    resume: &Resume<'a>,
    shelf: &mut S,
) -> Result<Vec<u8>, FileStop<'a>>
    requires { IsResumeInRange resume.now }
    ensures ok { IfOk result (λ text. IsTextOf (ResumeLeads (resume_said resume.now)) (S.files shelf.old) (S.faults shelf.old) (S.faults shelf.new) text.items) }
    ensures stopped { IfErr result (IsStop (ResumeLeads (resume_said resume.now)) (ResumeAsks (resume_said resume.now)) (S.files shelf.old) (S.steady shelf.old) (S.faults shelf.old) (S.faults shelf.new)) }
{
    let restart = match load_restart(alloc, shelf, resume.restart_file) {
        Ok(restart) => restart,
        Err(stop) => return Err(stop),
    };
    let rounds = match load_marks(alloc, shelf, resume.marks_file) {
        Ok(rounds) => rounds,
        Err(stop) => return Err(stop),
    };
    match go_on(rt, alloc, &restart.mesh, &restart.members, resume, &rounds) {
        Ok(text) => Ok(text),
        Err(stop) => Err(FileStop::Stopped(stop)),
    }
}

// The text after these rounds from the forest with these members, where they can follow it and the pool
// has room for it.
fn go_on<R: Threads + Sync>(
    rt: &R,
    alloc: Global,
    mesh: &MacroMesh,
    members: &[ElemName],
    resume: &Resume<'_>,
    rounds: &[RoundMarks],
) -> Result<Vec<u8>, Stop>
    requires ranges { IsResumeInRange resume.now }
    requires kept { IsKept (shape_of mesh.now) members.now }
    requires formed { All (λ r. All IsWellFormed r.rows.items) rounds.now }
    ensures ok { IfOk result (λ text. ResumesTo mesh.now members.now (resume_said resume.now) (rounds_read rounds.now) (Ok text.items)) }
    ensures stopped { IfErr result (StopsBy (ResumesTo mesh.now members.now (resume_said resume.now) (rounds_read rounds.now))) }
{
    if rounds.len() > ROUNDS {
        return Err(no_round_left(alloc));
    }
    let needed = count_patches(mesh, members);
    if needed > resume.pool as usize {
        return Err(too_large(alloc, needed, resume.pool));
    }
    make_rounds(rt, alloc, mesh, members, resume, rounds)
}

// The stop at a forest that has more patches than the pool.
fn too_large(alloc: Global, needed: usize, pool: u32) -> Stop
    ensures { StopsBy (IsTooLarge needed pool) result }
{
    refused(
        5,
        format!(in alloc; "adapt: restart: {needed} patches needed, pool {pool}\n"),
    )
}

// The text after these rounds from the forest with these members.
fn make_rounds<R: Threads + Sync>(
    rt: &R,
    alloc: Global,
    macro_mesh: &MacroMesh,
    members: &[ElemName],
    resume: &Resume<'_>,
    rounds: &[RoundMarks],
) -> Result<Vec<u8>, Stop>
    requires ranges { IsResumeInRange resume.now }
    requires kept { IsKept (shape_of macro_mesh.now) members.now }
    requires can { CanGoOn macro_mesh.now members.now resume.now.pool (rounds_read rounds.now) }
    requires formed { All (λ r. All IsWellFormed r.rows.items) rounds.now }
    ensures ok { IfOk result (λ text. ResumesTo macro_mesh.now members.now (resume_said resume.now) (rounds_read rounds.now) (Ok text.items)) }
    ensures stopped { IfErr result (StopsBy (ResumesTo macro_mesh.now members.now (resume_said resume.now) (rounds_read rounds.now))) }
{
    let _checked = macro_mesh.element_count();
    let Ok(forest) = TreeForest::of_members(alloc, macro_mesh, resume.pool, members) else {
        return Err(Stop::Memory);
    };
    let Ok(delta) = forest.patches_from_nothing() else {
        return Err(Stop::Memory);
    };
    let Ok(mut mesh) = AdaptiveMesh::resumed(alloc, macro_mesh, forest, &delta) else {
        return Err(Stop::Memory);
    };
    if let Err(stop) = run_rounds(alloc, &mut mesh, rounds) {
        return Err(stop);
    }
    match mesh.text(rt) {
        Ok(text) => Ok(text),
        Err(_) => Err(Stop::Memory),
    }
}
