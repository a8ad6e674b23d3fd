//! A tree of names, with an index and a value for some of them.
#![tactic(auto)]

mod finder;
mod gathering;
mod growing;
mod letters;
mod node_list;
mod nodes;
mod path;
mod tree;

pub use finder::Finder;
pub use nodes::Entry;
pub use tree::{Keyed, NameTree};
