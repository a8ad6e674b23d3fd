//! Laws over the definitions alone.
ghost use Rattle.table_steps.specs.WalkLaws.{NextNamed};
ghost use Rattle.table_steps.specs.Steps.{StepsKeep};
ghost use Rattle.table_steps.specs.Local.{StepsLocal, WorkersChange, WritesLeave};
ghost use Rattle.table_steps.specs.Reuse.{StepsSpare};
ghost use Rattle.table_steps.specs.Onward.{ClaimsGoBack, ClaimsGoOn, PassesJoined, PassesMade, PinsFit, PinsGoOn, ReadersGoOn, ReadyBelow, SinglesGoOn, WorkersGoOn};
ghost use Rattle.table_steps.specs.OnwardSweeps.{SweepsGoOn};
ghost use Rattle.table_steps.specs.OnwardRounds.{FillsGoOn, GrownGoesOn, LoadsGoOn, NotesGoOn, RetiringGoesOn, RoundsGoOn, RowsGoOn};

/// Each step of any seat leads from a lawful state to a lawful one; what it changes; that it leaves
/// alone the blocks to which walks go; and which steps there are, by which seats go on.
pub fn laws()
    ensures next { NextNamed }
    ensures steps { StepsKeep }
    ensures local { StepsLocal }
    ensures leave { WritesLeave }
    ensures change { WorkersChange }
    ensures spare { StepsSpare }
    ensures workers { WorkersGoOn }
    ensures readers { ReadersGoOn }
    ensures pins { PinsGoOn }
    ensures ready { ReadyBelow }
    ensures fit { PinsFit }
    ensures made { PassesMade }
    ensures joined { PassesJoined }
    ensures claims { ClaimsGoOn }
    ensures singles { SinglesGoOn }
    ensures back { ClaimsGoBack }
    ensures loads { LoadsGoOn }
    ensures fills { FillsGoOn }
    ensures retiring { RetiringGoesOn }
    ensures grown { GrownGoesOn }
    ensures rounds { RoundsGoOn }
    ensures sweeps { SweepsGoOn }
    ensures notes { NotesGoOn }
    ensures rows { RowsGoOn }
{}
