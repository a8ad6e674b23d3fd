//! Rounds, one after another.
ghost use Rattle.std.specs.Prelude.{◌≡◌, ◌<◌, ◌≤◌, ◌^◌, false, All, IfErr, IfOk, OnErr, OnOk, length, vec_capacity};
ghost use Rattle.mesh_names.specs.Marks.{IsWellFormed};
ghost use Rattle.forest_plain.specs.AnyForest.{IsRefusal};
ghost use Rattle.forest_plain.specs.Runs.{AreDone, IsAdded, IsRunRefusal};

use crate::any_forest::Forest;
use crate::refusal::{RoundRefusal, RunRefusal};
use mesh_names::patch::RoundDelta;
use mesh_names::rows::RoundMarks;
use std::alloc::Global;

/// Makes the rounds in order, up to the first that is refused, and tells what each changed. After a
/// refusal the forest stands after the rounds before it.
pub fn run_rounds<F: Forest>(
    alloc: Global,
    forest: &mut F,
    rounds: &[RoundMarks],
) -> Result<Vec<RoundDelta>, RunRefusal>
    requires few { length rounds.now < 2 ^ 32 }
    requires closed { (F.seen forest.old).is_open ≡ false }
    requires formed { All (λ r. All IsWellFormed r.rows.items) rounds.now }
    ensures ok { IfOk result (λ v. AreDone F.seen F.kept rounds.now v.items forest.old forest.new) }
    ensures refused { IfErr result (IsRunRefusal F.seen F.kept rounds.now forest.old forest.new) }
    ensures closed { (F.seen forest.new).is_open ≡ false }
{
    let mut deltas = Vec::with_capacity(alloc, rounds.len()).map_err(|_| RunRefusal::Memory)?;
    let mut index = 0;
    for round in rounds {
        if let Err(refusal) = add_round(forest, round, &mut deltas) {
            return Err(RunRefusal::AtRound { index, refusal });
        }
        index += 1;
    }
    Ok(deltas)
}

// Makes one round, and adds what it changed to the list, which has room for it.
fn add_round<F: Forest>(
    forest: &mut F,
    round: &RoundMarks,
    deltas: &mut Vec<RoundDelta>,
) -> Result<(), RoundRefusal>
    requires room { length deltas.old.items < vec_capacity deltas.old }
    requires closed { (F.seen forest.old).is_open ≡ false }
    requires formed { All IsWellFormed round.now.rows.items }
    ensures ok { OnOk result (IsAdded (F.seen forest.old) (F.kept forest.new) round.now.rows.items (F.seen forest.new) deltas.old.items deltas.new.items) }
    ensures refused { IfErr result (IsRefusal (F.seen forest.old) (F.kept forest.new) round.now.rows.items) }
    ensures unchanged { OnErr result (F.seen forest.new ≡ F.seen forest.old) }
    ensures capacity { vec_capacity deltas.old ≤ vec_capacity deltas.new }
{
    match forest.round(round) {
        Ok(delta) => {
            deltas.push(delta).unwrap();
            Ok(())
        }
        Err(refusal) => Err(refusal),
    }
}
