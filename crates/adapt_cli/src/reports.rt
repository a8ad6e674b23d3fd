//! Reports: one line for each round.
ghost use Rattle.std.specs.Prelude.{◌≡◌, ◌+◌, ◌++◌, All, IfErr, IfOk, List, string_bytes};
ghost use Rattle.mesh_names.specs.Marks.{IsWellFormed};
ghost use Rattle.mark_file.specs.Meaning.{rounds_read};
ghost use Rattle.mesh_rounds.specs.Adaptive.{IsSame, mesh_of, seen_of, state_of};
ghost use Rattle.mesh_rounds.specs.State.{IsState};
ghost use Rattle.adapt_cli.specs.Reports.{IsReport, IsRoundText};
ghost use Rattle.adapt_cli.specs.Rounds.{LeadTo};
ghost use Rattle.adapt_cli.specs.Stops.{IsReportedRun, StopsBy};

use crate::fault::{Stop, round_stop};
use forest_tree::forest::TreeForest;
use mesh_names::rows::RoundMarks;
use mesh_rounds::adaptive::AdaptiveMesh;
use std::alloc::Global;

// The line of a round, by its number.
fn round_text(
    alloc: Global,
    mesh: &mut AdaptiveMesh<'_, TreeForest<'_>>,
    number: usize,
) -> Result<String, Stop>
    ensures ok { IfOk result (λ line. IsRoundText (mesh_of mesh.old) number (state_of mesh.old) (string_bytes line)) }
    ensures memory { IfErr result (λ stop. stop ≡ Stop.Memory) }
    ensures same { IsSame mesh.old mesh.new }
{
    let Ok(counts) = mesh.counts() else {
        return Err(Stop::Memory);
    };
    let (leaves, vertices, holes) = (counts.leaves, counts.vertices, counts.holes);
    let line = format!(in alloc;
        "round {number} leaves {leaves} vertices {vertices} holes {holes}\n"
    )?;
    Ok(line)
}

/// Makes the rounds in order, up to the first that is refused, and tells each by a line: how many
/// leaves and vertices the mesh has after it, and how many of the vertices' indices are not used.
pub fn report_rounds(
    alloc: Global,
    mesh: &mut AdaptiveMesh<'_, TreeForest<'_>>,
    rounds: &[RoundMarks],
) -> Result<Vec<u8>, Stop>
    requires rows { All (λ r. All IsWellFormed r.rows.items) rounds.now }
    ensures ok { IfOk result (λ text. IsReportedRun (mesh_of mesh.old) (seen_of mesh.old).pool (rounds_read rounds.now) (state_of mesh.old) text.items) }
    ensures stopped { IfErr result (StopsBy (LeadTo (mesh_of mesh.old) (seen_of mesh.old).pool (rounds_read rounds.now) (state_of mesh.old))) }
{
    let mut text = Vec::new(alloc);
    let mut number = 0;
    for round in rounds {
        if let Err(refusal) = mesh.round(round) {
            return Err(round_stop(alloc, round.number, refusal));
        }
        number += 1;
        let Ok(line) = round_text(alloc, mesh, number) else {
            return Err(Stop::Memory);
        };
        text.extend_from_slice(line.as_bytes())?;
    }
    Ok(text)
}
