//! Laws over the definitions alone.
ghost use Rattle.table_runs.specs.SquareChild.{ChildReads, SquareChild};
ghost use Rattle.table_runs.specs.SquareFreed.{FreesAlone, SquareFreed};
ghost use Rattle.table_runs.specs.SquareFull.{SquareFull, SquareUndrawn};
ghost use Rattle.table_runs.specs.SquareKinds.{KindsOccur, RunsLawful, TwoWords, WorkersClaim};
ghost use Rattle.table_runs.specs.SquareRun.{SquareFollows, SquareReads, SquareRefused, SquareRuns, SquareVisits};
ghost use Rattle.table_runs.specs.SquareStock.{GrownWalked, RowKept, SquareStock, StockDrawn};
ghost use Rattle.table_runs.specs.SquareTwice.{SquareTwice, TwiceReads};

/// There are runs of steps on the square, from the claim of its patch to the second draw of its block,
/// and what is read in their states; each kind of step occurs in one, and each state is lawful.
pub fn laws()
    ensures square { SquareRuns }
    ensures square_reads { SquareReads }
    ensures follows { SquareFollows }
    ensures refused { SquareRefused }
    ensures visits { SquareVisits }
    ensures full { SquareFull }
    ensures undrawn { SquareUndrawn }
    ensures twice { SquareTwice }
    ensures twice_reads { TwiceReads }
    ensures child { SquareChild }
    ensures child_reads { ChildReads }
    ensures freed { SquareFreed }
    ensures frees_alone { FreesAlone }
    ensures stock { SquareStock }
    ensures row_kept { RowKept }
    ensures stock_drawn { StockDrawn }
    ensures grown { GrownWalked }
    ensures lawful { RunsLawful }
    ensures two_words { TwoWords }
    ensures workers_claim { WorkersClaim }
    ensures kinds { KindsOccur }
{}
