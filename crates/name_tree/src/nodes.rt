//! The nodes of a tree of names, in pairs.
ghost use Rattle.std.specs.Prelude.{◌≡◌, ℕ, ◌*◌, ◌+◌, ◌<◌, ◌≤◌, [], true, All, None, length, slice_index_or, slice_set};
ghost use Rattle.name_tree.specs.NodeSlots.{moved_node};
ghost use Rattle.name_tree.specs.Trees.{IsBlank, blank, node_at};

use crate::node_list::NodeList;
use std::alloc::Global;

/// The index and the value that a name has.
#[derive(Clone, Copy, Debug)]
pub struct Entry {
    pub index: u32,
    pub value: i64,
}

/// What stands in the node of a name, and the pair of nodes for its children, if there is one.
#[derive(Clone, Copy, Debug)]
pub(crate) struct Node {
    pub(crate) entry: Option<Entry>,
    pub(crate) below: Option<u32>,
}

/// The nodes of names. Pair p has the nodes 2p and 2p + 1. The node of a macro element is the first
/// of a pair of its own.
#[derive(Drop)]
pub(crate) struct Nodes {
    pub(crate) tops: Vec<Option<u32>>,
    pub(crate) nodes: NodeList,
    /// Pairs that were given back, with nothing in them.
    pub(crate) spare: Vec<u32>,
}

impl Nodes {
    /// No nodes. Takes no memory.
    pub(crate) fn new(alloc: Global) -> Nodes
        ensures tops { result.tops.items ≡ [] }
        ensures nodes { result.nodes ≡ [] }
        ensures spare { result.spare.items ≡ [] }
    {
        Nodes {
            tops: Vec::new(alloc),
            nodes: NodeList::new(alloc),
            spare: Vec::new(alloc),
        }
    }

    /// The pair that a macro element has.
    pub(crate) fn top(&self, root: u32) -> Option<u32>
        ensures { result ≡ slice_index_or self.now.tops.items root None }
    {
        match self.tops.get(root as usize) {
            Some(pair) => *pair,
            None => None,
        }
    }

    /// The pair below a node, if there is one.
    pub(crate) fn below(&self, place: u32) -> Option<u32>
        requires { place < length self.now.nodes }
        ensures { result ≡ (node_at self.now.nodes place).below }
    {
        self.nodes.below(place)
    }

    /// What stands in a node.
    pub(crate) fn entry(&self, place: u32) -> Option<Entry>
        requires { place < length self.now.nodes }
        ensures { result ≡ (node_at self.now.nodes place).entry }
    {
        self.nodes.entry(place)
    }

    /// Puts an entry into a node, or takes it out.
    pub(crate) fn put(&mut self, place: u32, entry: Option<Entry>)
        requires { place < length self.old.nodes }
        ensures nodes { self.new.nodes ≡ slice_set self.old.nodes place (record (node_at self.old.nodes place) { entry = entry }) }
        ensures tops { self.new.tops.items ≡ self.old.tops.items }
        ensures spare { self.new.spare.items ≡ self.old.spare.items }
    {
        self.nodes.put(place, entry);
    }

    /// Says which pair is below a node, if there is one.
    pub(crate) fn join(&mut self, place: u32, below: Option<u32>)
        requires { place < length self.old.nodes }
        ensures nodes { self.new.nodes ≡ slice_set self.old.nodes place (record (node_at self.old.nodes place) { below = below }) }
        ensures tops { self.new.tops.items ≡ self.old.tops.items }
        ensures spare { self.new.spare.items ≡ self.old.spare.items }
    {
        self.nodes.join(place, below);
    }

    /// Whether nothing stands in a pair.
    pub(crate) fn is_blank(&self, pair: u32) -> bool
        requires { 2 * pair + 1 < length self.now.nodes }
        ensures { result ≡ true → IsBlank self.now.nodes pair }
    {
        let zero = self.nodes.node(pair as usize * 2);
        let one = self.nodes.node(pair as usize * 2 + 1);
        zero.entry.is_none() && zero.below.is_none() && one.entry.is_none() && one.below.is_none()
    }

    /// Gives each entry the index that stands at the place of its old one.
    pub(crate) fn renumber(&mut self, moved: &[u32])
        ensures nodes { (i : ℕ) → node_at self.new.nodes i ≡ moved_node moved.now (node_at self.old.nodes i) }
        ensures length { length self.new.nodes ≡ length self.old.nodes }
        ensures tops { self.new.tops.items ≡ self.old.tops.items }
        ensures spare { self.new.spare.items ≡ self.old.spare.items }
    {
        self.nodes.renumber(moved);
    }
}
