//! Rounds of a mesh.
ghost use Rattle.std.specs.Prelude.{◌≡◌, All, IfErr, OnOk};
ghost use Rattle.mesh_names.specs.Marks.{IsWellFormed};
ghost use Rattle.mark_file.specs.Meaning.{rounds_read};
ghost use Rattle.mesh_rounds.specs.Adaptive.{mesh_of, seen_of, state_of};
ghost use Rattle.mesh_rounds.specs.State.{IsState};
ghost use Rattle.adapt_cli.specs.Rounds.{LeadTo};
ghost use Rattle.adapt_cli.specs.Stops.{IsRun, StopsBy};

use crate::fault::{Stop, round_stop};
use forest_tree::forest::TreeForest;
use mesh_names::rows::RoundMarks;
use mesh_rounds::adaptive::AdaptiveMesh;
use std::alloc::Global;

/// Makes the rounds in order, up to the first that is refused.
pub fn run_rounds(
    alloc: Global,
    mesh: &mut AdaptiveMesh<'_, TreeForest<'_>>,
    rounds: &[RoundMarks],
) -> Result<(), Stop>
    requires rows { All (λ r. All IsWellFormed r.rows.items) rounds.now }
    requires state { IsState (mesh_of mesh.old) (state_of mesh.old) }
    ensures ok { OnOk result (IsRun (mesh_of mesh.old) (seen_of mesh.old).pool (rounds_read rounds.now) (state_of mesh.old) (state_of mesh.new)) }
    ensures state { OnOk result (IsState (mesh_of mesh.new) (state_of mesh.new)) }
    ensures stopped { IfErr result (StopsBy (LeadTo (mesh_of mesh.old) (seen_of mesh.old).pool (rounds_read rounds.now) (state_of mesh.old))) }
    ensures same { mesh_of mesh.new ≡ mesh_of mesh.old }
{
    for round in rounds {
        if let Err(refusal) = mesh.round(round) {
            return Err(round_stop(alloc, round.number, refusal));
        }
    }
    Ok(())
}
