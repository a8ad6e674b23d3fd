//! Laws over the definitions alone. Each function takes nothing and answers nothing: its
//! contract is the law.
ghost use Rattle.mesh_rounds.specs.ForestValues.{ElementsStay, FirstElements, FirstVertices, VerticesStay};
ghost use Rattle.mesh_rounds.specs.OneState.{FirstIsOne, NextIsOne, TextIsOne};
ghost use Rattle.mesh_rounds.specs.SameRounds.{RoundsChangeAlike, RoundsEndAtOne};
ghost use Rattle.mesh_rounds.specs.RoundChanges.{BornAreLow, BornArePairs, BornAreRooted, DiedAreParents, NewHoldsPartners, NewIsForest, RoundsAreChanges, RoundsAreTransitions, RoundsCanBeFollowed};

/// A round leads to a forest.
pub fn new_is_forest()
    ensures { NewIsForest }
{}

/// A round leads to a forest that holds the partners of its members.
pub fn new_holds_partners()
    ensures { NewHoldsPartners }
{}

/// Born patches are of one or two elements that can be bisected.
pub fn born_are_pairs()
    ensures { BornArePairs }
{}

/// The owners of born patches are of the mesh, and of levels that an element can have.
pub fn born_are_of_mesh()
    ensures rooted { BornAreRooted }
    ensures low { BornAreLow }
{}

/// The members of died patches are of the mesh and can have children, and none stands twice.
pub fn died_are_parents()
    ensures { DiedAreParents }
{}

/// A round's patches lead from the old forest to the new one, by elements.
pub fn rounds_are_changes()
    ensures { RoundsAreChanges }
{}

/// A round's patches lead from the old forest to the new one, by vertices.
pub fn rounds_are_transitions()
    ensures { RoundsAreTransitions }
{}

/// The values of vertices and elements can follow each round.
pub fn rounds_can_be_followed()
    ensures { RoundsCanBeFollowed }
{}

/// The values of a mesh are at first those of the forest in which nothing is bisected.
pub fn first_values()
    ensures elements { FirstElements }
    ensures vertices { FirstVertices }
{}

/// The values after a round are those of the new forest.
pub fn values_stay()
    ensures elements { ElementsStay }
    ensures vertices { VerticesStay }
{}

/// Rounds whose rows say the same lead from one forest to one forest.
pub fn rounds_end_at_one()
    ensures { RoundsEndAtOne }
{}

/// Rounds whose rows say the same bisect and take away the same patches of a forest, in the same order.
pub fn rounds_change_alike()
    ensures { RoundsChangeAlike }
{}

/// A mesh has one state before any round.
pub fn first_is_one()
    ensures { FirstIsOne }
{}

/// A round that is done leads from a state to one state, by the same patches in the same order.
pub fn next_is_one()
    ensures { NextIsOne }
{}

/// A mesh has one text in a state.
pub fn text_is_one()
    ensures { TextIsOne }
{}
