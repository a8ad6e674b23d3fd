//! Laws over the definitions alone. Each function takes nothing and answers nothing: its
//! contract is the law.
ghost use Rattle.mesh_names.specs.Partners.{LevelsApart, PartnerIsOnly, PartnersPair, PartnersShare};
ghost use Rattle.mesh_names.specs.Validity.{GradesAreOne, ValidTells};
ghost use Rattle.mesh_names.specs.Squares.{SquaresFit};
ghost use Rattle.mesh_names.specs.Conformity.{ConformsByPartners};
ghost use Rattle.mesh_names.specs.Reaching.{LeastByChains};
ghost use Rattle.mesh_names.specs.LeastForest.{LeastByLevels, LeastIsOne, LeastKeeps, NeedsAre, NeedsCanBeHeld};
ghost use Rattle.mesh_names.specs.Examples.{SquareCoarsened, SquareMarkedTwice, SquareRefined, SquareSecondRound, TurnedSquareRefined};
ghost use Rattle.mesh_names.specs.Forests.{ListsAreOne};
ghost use Rattle.mesh_names.specs.Leaves.{LeavesAre};
ghost use Rattle.mesh_names.specs.Marks.{MarksGiveNeeds};
ghost use Rattle.mesh_names.specs.Coarsening.{CoarsenedConforms, CoarsenedOnce, StepsCanEnd, StepsEndAtOne, StepsKeep, StepsSwap};
ghost use Rattle.mesh_names.specs.Chains.{ChainWithin, ChainsStand};

/// A valid and graded mesh tells what lies across each edge.
pub fn valid_tells()
    ensures { ValidTells }
{}

/// A mesh has at most one list of grades.
pub fn grades_are_one()
    ensures { GradesAreOne }
{}

/// Two small meshes are valid and compatible.
pub fn squares_fit()
    ensures { SquaresFit }
{}

/// A partner has the same refinement edge.
pub fn partners_share()
    ensures { PartnersShare }
{}

/// Names with one refinement edge have one level.
pub fn levels_apart()
    ensures { LevelsApart }
{}

/// A name has at most one other name with its refinement edge.
pub fn partner_is_only()
    ensures { PartnerIsOnly }
{}

/// A partner is another name of the same level, and has the name as its partner.
pub fn partners_pair()
    ensures { PartnersPair }
{}

/// A forest conforms exactly where it holds the partner of each member that has one.
pub fn conforming_by_partners()
    ensures { ConformsByPartners }
{}

/// The least forest is got by going through the levels from the greatest down.
pub fn least_by_levels()
    ensures { LeastByLevels }
{}

/// Exactly one least forest holds the old one and the needs.
pub fn least_is_one()
    ensures { LeastIsOne }
{}

/// A conforming forest that holds what is needed is itself the least, and alone so.
pub fn least_keeps()
    ensures { LeastKeeps }
{}

/// A set of names has one list in order.
pub fn lists_are_one()
    ensures { ListsAreOne }
{}

/// The set of needs has the needed names.
pub fn needs_are()
    ensures { NeedsAre }
{}

/// Needs within level 24 can be held.
pub fn needs_can_be_held()
    ensures { NeedsCanBeHeld }
{}

/// The set of leaves has the leaves of a forest, and no others.
pub fn leaves_are()
    ensures { LeavesAre }
{}

/// Effective marks, from the last row that names a leaf, give the needs.
pub fn marks_give_needs()
    ensures { MarksGiveNeeds }
{}

/// A step of coarsening keeps a conforming forest.
pub fn coarsening_steps_keep()
    ensures { StepsKeep }
{}

/// Steps of coarsening on two patches can change places.
pub fn coarsening_steps_swap()
    ensures { StepsSwap }
{}

/// Steps of coarsening can come to an end: there is a coarsened forest.
pub fn coarsening_can_end()
    ensures { StepsCanEnd }
{}

/// Steps of coarsening in any order end at one forest.
pub fn coarsening_ends_at_one()
    ensures { StepsEndAtOne }
{}

/// The coarsened forest is a conforming forest within the refined one.
pub fn coarsened_conforms()
    ensures { CoarsenedConforms }
{}

/// With no mark below -1 the fully marked patches go, and no others.
pub fn coarsened_once()
    ensures { CoarsenedOnce }
{}

/// A name has a chain, whose other names are of smaller levels.
pub fn chains_stand()
    ensures { ChainsStand }
{}

/// The chain of a name lies in each conforming forest that holds the name.
pub fn chain_within()
    ensures { ChainWithin }
{}

/// The least forest has the old names, and the patches of the chains of the needed ones.
pub fn least_by_chains()
    ensures { LeastByChains }
{}

/// On the square one mark bisects both elements, into four leaves.
pub fn square_refined()
    ensures { SquareRefined }
{}

/// On the square the last row's mark by 2 bisects element 0, its partner and its children.
pub fn square_marked_twice()
    ensures { SquareMarkedTwice }
{}

/// A second round on the square reaches over to the other element.
pub fn square_second_round()
    ensures { SquareSecondRound }
{}

/// On the square patches go where all their leaves are marked, as far as the marks allow.
pub fn square_coarsened()
    ensures { SquareCoarsened }
{}

/// On the turned square, whose elements have grades 1 and 0, the partner is a child.
pub fn turned_square_refined()
    ensures { TurnedSquareRefined }
{}
