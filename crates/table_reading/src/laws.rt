//! Laws over the definitions alone.
ghost use Rattle.table_reading.specs.RoundForests.{BisectedCoded, HistoryCoarsens, KeptForests, LeastIsTarget, LeastWhenNeeded, ReadableForests, ReadsForests};
ghost use Rattle.table_reading.specs.Reading.{LeastRead, ReachedStays, ReadsClosing, ReadsForest, ReadsHistory, WordsRead};

/// In each lawful state the names that are read at a round are a conforming forest, and, in the first
/// half, the least one once the needs are in it; and what the target and the history are of forests.
pub fn laws()
    ensures target { LeastIsTarget }
    ensures coded { BisectedCoded }
    ensures forests { ReadsForests }
    ensures kept { KeptForests }
    ensures readable { ReadableForests }
    ensures words { WordsRead }
    ensures read { ReadsHistory }
    ensures forest { ReadsForest }
    ensures least_read { LeastRead }
    ensures closing { ReadsClosing }
    ensures reached { ReachedStays }
    ensures coarsened { HistoryCoarsens }
    ensures least { LeastWhenNeeded }
{}
