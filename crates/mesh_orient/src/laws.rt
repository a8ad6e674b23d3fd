//! Laws over the definitions alone. Each function takes nothing and answers nothing: its contract is
//! the law.
ghost use Rattle.mesh_orient.specs.Turns.{EdgesStay};

/// A turned element has the edges of the element, each with its ends, its label and its neighbour.
pub fn edges_stay()
    ensures { EdgesStay }
{}
