//! Nodes by their places, in two lists.
ghost use Rattle.std.specs.Prelude.{◌≡◌, ℕ, ◌<◌, ◌++◌, ◌∷◌, [], None, IfOk, IfErr, length, slice_set};
ghost use Rattle.name_tree.specs.NodeSlots.{moved_node};
ghost use Rattle.name_tree.specs.Slots.{moved_slot};
ghost use Rattle.name_tree.specs.Trees.{blank, node_at};

use crate::nodes::{Entry, Node};
use std::alloc::{AllocError, Global};
use std::marker::Model;

/// What stands in the nodes, and beside it which pairs are below them. A walk along the letters of a name
/// reads the pairs alone, of which eight stand in a line of the cache.
#[derive(Drop)]
pub(crate) struct NodeList {
    entries: Vec<Option<Entry>>,
    pairs: Vec<Option<u32>>,
}

impl Model for NodeList {
    ghost use Rattle.std.specs.Prelude.{◌≡◌, List, length};
    ghost use Rattle.name_tree.specs.NodeLists.{nodes_of};
    ghost use Rattle.name_tree.specs.declared.nodes.Node.{Node};

    ghost Value = { List Node };

    ghost view = { λ l. nodes_of l.entries.items l.pairs.items };

    ghost invariant = { λ l. length l.pairs.items ≡ length l.entries.items };
}

impl NodeList {
    /// No nodes. Takes no memory.
    pub(crate) fn new(alloc: Global) -> NodeList
        ensures { result ≡ [] }
    {
        NodeList {
            entries: Vec::new(alloc),
            pairs: Vec::new(alloc),
        }
    }

    /// How many nodes there are.
    pub(crate) fn len(&self) -> usize
        ensures { result ≡ length self.now }
    {
        self.entries.len()
    }

    /// What stands in a node.
    pub(crate) fn entry(&self, place: u32) -> Option<Entry>
        requires { place < length self.now }
        ensures { result ≡ (node_at self.now place).entry }
    {
        self.entries[place as usize]
    }

    /// The pair below a node, if there is one.
    pub(crate) fn below(&self, place: u32) -> Option<u32>
        requires { place < length self.now }
        ensures { result ≡ (node_at self.now place).below }
    {
        self.pairs[place as usize]
    }

    /// A node.
    pub(crate) fn node(&self, place: usize) -> Node
        requires { place < length self.now }
        ensures { result ≡ node_at self.now place }
    {
        Node {
            entry: self.entries[place],
            below: self.pairs[place],
        }
    }

    /// Puts an entry into a node, or takes it out.
    pub(crate) fn put(&mut self, place: u32, entry: Option<Entry>)
        requires { place < length self.old }
        ensures { self.new ≡ slice_set self.old place (record (node_at self.old place) { entry = entry }) }
    {
        self.entries[place as usize] = entry;
    }

    /// Says which pair is below a node, if there is one.
    pub(crate) fn join(&mut self, place: u32, below: Option<u32>)
        requires { place < length self.old }
        ensures { self.new ≡ slice_set self.old place (record (node_at self.old place) { below = below }) }
    {
        self.pairs[place as usize] = below;
    }

    /// Two nodes more, with nothing in them.
    pub(crate) fn widen(&mut self) -> Result<(), AllocError>
        ensures ok { IfOk result (λ _. self.new ≡ self.old ++ blank ∷ blank ∷ []) }
        ensures err { IfErr result (λ _. self.new ≡ self.old) }
    {
        self.entries.try_reserve(2)?;
        self.pairs.try_reserve(2)?;
        self.entries.push_reserved(None);
        self.entries.push_reserved(None);
        self.pairs.push_reserved(None);
        self.pairs.push_reserved(None);
        Ok(())
    }

    /// Gives each entry the index that stands at the place of its old one.
    pub(crate) fn renumber(&mut self, moved: &[u32])
        ensures nodes { (i : ℕ) → node_at self.new i ≡ moved_node moved.now (node_at self.old i) }
        ensures length { length self.new ≡ length self.old }
    {
        for slot in self.entries.iter_mut() {
            *slot = renumbered(*slot, moved);
        }
    }
}

// An entry with the index that stands at the place of its old one.
fn renumbered(slot: Option<Entry>, moved: &[u32]) -> Option<Entry>
    ensures { result ≡ moved_slot moved.now slot }
{
    let entry = slot?;
    let index = match moved.get(entry.index as usize) {
        Some(index) => *index,
        None => entry.index,
    };
    Some(Entry {
        index,
        value: entry.value,
    })
}
