//! Laws over the definitions alone.
ghost use Rattle.table_state.specs.Laws.{BlocksPlaced, DrainedRounds, CoversBisect, DrawsBounded, FreeRows, MembersTogether, NotesAgree, OneClaim, OneHolder, ParentsBisected, PinsBounded, PlacesAgree, ReachedKept, RetiredBorn, WalksAgree, WalksEnd, WalksShort};
ghost use Rattle.table_state.specs.ClaimLaws.{BitsClaimed, DrawsCounted, FreeUnborn, SecondPlaces, StagesViewed, TargetLeast, UnbornBlocks, UnbornClaimed};
ghost use Rattle.table_state.specs.RoundLaws.{BetweenForests, BisectedClosed, ChainsStand, ClaimsAimed, ClaimsDrawn, DiffersByPatches, DrawsApart, HistoryRight, ListsKnown, LivingAimed, NotesInHistory, QuietRound, RoundsLeft, StandingKept, ToldPrefix, WalksBegin, WorkerAlone};
ghost use Rattle.table_state.specs.SeatLaws.{BeginsEqual, BlocksKnown, FilledStays, FindingsRight, FinishedFindings, HistoryWords, LinkWords, LivingBlocks, LivingClaimed, LoadedStays, NumbersKnown, OneHalf, OthersEmpty, OwnerWords, PassesCounted, PinsCounted, PinsOfRounds, PinsOut, RetiredNoted, RoundsFall, WorkersWent};
ghost use Rattle.table_state.specs.TableLaws.{BlocksInPool, BlocksViewed, ChainsNamed, ClaimsListedOnce, ElementsNamed, PlacesInTable, WalkSides};
ghost use Rattle.table_state.specs.OwnerLaws.{BlocksCounted, BlocksNoted, DeadNoted, EarlyPins, FreeFound, KeptExact, NotedKinds, PatchesCounted, StockRows, WalkedNoted};
ghost use Rattle.table_state.specs.DrawLaws.{DrawsOfTarget, PoolCovered, RoundFits};
ghost use Rattle.table_state.specs.KnownNames.{KnownFound, WalksChained};
ghost use Rattle.table_state.specs.Fresh.{FreshFromList, FreshIsLawful};

/// What holds in each lawful state, of its words, its claims and what seats know; and that the fresh
/// table is lawful.
pub fn laws()
    ensures bounded { PinsBounded }
    ensures holder { OneHolder }
    ensures claim { OneClaim }
    ensures bits { BitsClaimed }
    ensures seconds { SecondPlaces }
    ensures stages { StagesViewed }
    ensures counted { DrawsCounted }
    ensures unborn { UnbornBlocks }
    ensures free { FreeUnborn }
    ensures halves { UnbornClaimed }
    ensures aim { TargetLeast }
    ensures draws { DrawsBounded }
    ensures rows { FreeRows }
    ensures walks { WalksAgree }
    ensures placed { BlocksPlaced }
    ensures covers { CoversBisect }
    ensures ends { WalksEnd }
    ensures born { RetiredBorn }
    ensures short { WalksShort }
    ensures parents { ParentsBisected }
    ensures together { MembersTogether }
    ensures places { PlacesAgree }
    ensures notes { NotesAgree }
    ensures reuse { ReachedKept }
    ensures drained { DrainedRounds }
    ensures between { BetweenForests }
    ensures differs { DiffersByPatches }
    ensures closed { BisectedClosed }
    ensures aimed { ClaimsAimed }
    ensures living_aimed { LivingAimed }
    ensures lists { ListsKnown }
    ensures history { HistoryRight }
    ensures told { ToldPrefix }
    ensures noted { NotesInHistory }
    ensures drawn { DrawsApart }
    ensures draw { ClaimsDrawn }
    ensures quiet { QuietRound }
    ensures begin { WalksBegin }
    ensures chains { ChainsStand }
    ensures standing { StandingKept }
    ensures rounds { RoundsLeft }
    ensures alone { WorkerAlone }
    ensures equal { BeginsEqual }
    ensures claimed { LivingClaimed }
    ensures living { LivingBlocks }
    ensures findings { FindingsRight }
    ensures finished { FinishedFindings }
    ensures went { WorkersWent }
    ensures half { OneHalf }
    ensures filled { FilledStays }
    ensures loaded { LoadedStays }
    ensures owned { OwnerWords }
    ensures pinned { PinsCounted }
    ensures out { PinsOut }
    ensures most { PinsOfRounds }
    ensures fall { RoundsFall }
    ensures numbers { NumbersKnown }
    ensures blocks { BlocksKnown }
    ensures others { OthersEmpty }
    ensures passes { PassesCounted }
    ensures links { LinkWords }
    ensures histories { HistoryWords }
    ensures retired { RetiredNoted }
    ensures pool { BlocksInPool }
    ensures viewed { BlocksViewed }
    ensures table { PlacesInTable }
    ensures named { ChainsNamed }
    ensures elements { ElementsNamed }
    ensures sides { WalkSides }
    ensures once { ClaimsListedOnce }
    ensures frees { FreeFound }
    ensures stock { StockRows }
    ensures blocks_noted { BlocksNoted }
    ensures dead { DeadNoted }
    ensures kept { KeptExact }
    ensures kinds { NotedKinds }
    ensures walked { WalkedNoted }
    ensures early { EarlyPins }
    ensures count { BlocksCounted }
    ensures patches { PatchesCounted }
    ensures draws_of_target { DrawsOfTarget }
    ensures pool_covered { PoolCovered }
    ensures fits { RoundFits }
    ensures walks_chained { WalksChained }
    ensures known_found { KnownFound }
    ensures list { FreshFromList }
    ensures fresh { FreshIsLawful }
{}
