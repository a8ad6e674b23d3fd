//! The refined forest of a round.
use crate::leaf_marks::LeafMarks;
use crate::name_set::NameSet;

/// The members of the refined forest, and the marks of its leaves by which it is coarsened.
#[derive(Drop)]
pub struct Refined {
    pub(crate) members: NameSet,
    pub(crate) marks: LeafMarks,
}
