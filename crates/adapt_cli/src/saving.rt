//! The restart file of the forest that a run ends with.
ghost use Rattle.std.specs.Prelude.{◌≡◌, ◌≤◌, All, IfErr, IfOk, Ok};
ghost use Rattle.mesh_names.specs.Marks.{IsWellFormed};
ghost use Rattle.mark_file.specs.Meaning.{rounds_read};
ghost use Rattle.restart_file.specs.Files.{IsPart};
ghost use Rattle.adapt_words.specs.Restarts.{IsSaveInRange, save_said};
ghost use Rattle.adapt_cli.specs.Restarts.{SaveAsks, SaveLeads, SavesTo};
ghost use Rattle.adapt_cli.specs.Stops.{IsStop, IsTextOf, StopsBy};

use crate::fault::{FileStop, Stop};
use crate::load::{load_marks, load_part};
use crate::rounds::run_rounds;
use adapt_words::Save;
use compat_check::mesh::MacroMesh;
use forest_tree::forest::TreeForest;
use mesh_io::Shelf;
use mesh_names::rows::RoundMarks;
use mesh_rounds::adaptive::AdaptiveMesh;
use restart_file::put_restart;
use std::alloc::Global;

/// The restart file of the forest that a run ends with, or why there is none.
pub fn save_text<'a, S: Shelf>(
    alloc: Global,
    save: &Save<'a>,
    shelf: &mut S,
) -> Result<Vec<u8>, FileStop<'a>>
    requires { IsSaveInRange save.now }
    ensures ok { IfOk result (λ text. IsTextOf (SaveLeads (save_said save.now)) (S.files shelf.old) (S.faults shelf.old) (S.faults shelf.new) text.items) }
    ensures stopped { IfErr result (IsStop (SaveLeads (save_said save.now)) (SaveAsks (save_said save.now)) (S.files shelf.old) (S.steady shelf.old) (S.faults shelf.old) (S.faults shelf.new)) }
{
    let (part, mesh) = match load_part(alloc, shelf, save.macro_file) {
        Ok(part) => part,
        Err(stop) => return Err(stop),
    };
    let rounds = match load_marks(alloc, shelf, save.marks_file) {
        Ok(rounds) => rounds,
        Err(stop) => return Err(stop),
    };
    match saved(alloc, &part, &mesh, save, &rounds) {
        Ok(text) => Ok(text),
        Err(stop) => Err(FileStop::Stopped(stop)),
    }
}

// The restart file after these rounds on a mesh, of which these are the bytes.
fn saved(
    alloc: Global,
    part: &[u8],
    macro_mesh: &MacroMesh,
    save: &Save<'_>,
    rounds: &[RoundMarks],
) -> Result<Vec<u8>, Stop>
    requires ranges { IsSaveInRange save.now }
    requires part { IsPart part.now macro_mesh.now }
    requires formed { All (λ r. All IsWellFormed r.rows.items) rounds.now }
    ensures ok { IfOk result (λ text. SavesTo (part.now, macro_mesh.now) (save_said save.now) (rounds_read rounds.now) (Ok text.items)) }
    ensures stopped { IfErr result (StopsBy (SavesTo (part.now, macro_mesh.now) (save_said save.now) (rounds_read rounds.now))) }
{
    let _checked = macro_mesh.element_count();
    let forest = TreeForest::new(alloc, macro_mesh, save.pool);
    let Ok(mut mesh) = AdaptiveMesh::new(alloc, macro_mesh, forest) else {
        return Err(Stop::Memory);
    };
    if let Err(stop) = run_rounds(alloc, &mut mesh, rounds) {
        return Err(stop);
    }
    let Ok(members) = mesh.forest().members() else {
        return Err(Stop::Memory);
    };
    match put_restart(alloc, part, macro_mesh, &members) {
        Ok(text) => Ok(text),
        Err(_) => Err(Stop::Memory),
    }
}
