//! Laws over the definitions alone. Each function takes nothing and answers nothing: its
//! contract is the law.
ghost use Rattle.adapt_cli.specs.Continuing.{InterruptedAsWhole};
ghost use Rattle.adapt_cli.specs.OneOutcome.{OneFinding, OneRun, OneSoak};
ghost use Rattle.adapt_cli.specs.SoakEnds.{FaultsAreFullPools, SoaksEnd};

/// Each fault of a soak is a full pool.
pub fn faults_are_full_pools()
    ensures { FaultsAreFullPools }
{}

/// A soak ends with status 0, 1, 5 or 7, and with 5 for a full pool.
pub fn soaks_end()
    ensures { SoaksEnd }
{}

/// A run that is saved and resumed ends with the forest of the run that is not interrupted, where
/// none is refused.
pub fn interrupted_as_whole()
    ensures { InterruptedAsWhole }
{}

/// A soak has one outcome.
pub fn one_soak()
    ensures { OneSoak }
{}

/// A run, with a report or without, and its files have one outcome.
pub fn one_run()
    ensures { OneRun }
{}

/// Finding and its files have one outcome.
pub fn one_finding()
    ensures { OneFinding }
{}
