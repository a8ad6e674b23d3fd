//! Names that are looked up in turn.
ghost use Rattle.std.specs.Prelude.{◌≡◌};
ghost use Rattle.name_tree.specs.Slots.{live_at};

use crate::nodes::{Entry, Nodes};
use crate::path::Path;
use crate::tree::NameTree;
use mesh_names::name::ElemName;
use std::marker::Model;

/// Looks names up in a tree, which does not change meanwhile. Each walk goes on from the last one, so that near
/// names in turn take few steps each.
#[derive(Drop)]
pub struct Finder<'a> {
    nodes: &'a Nodes,
    path: Path,
}

impl<'a> Model for Finder<'a> {
    ghost use Rattle.std.specs.FinMap as map;
    ghost use Rattle.mesh_names.specs.Names.{name_cmp};
    ghost use Rattle.name_tree.specs.Slots.{Slot, slots_code};

    ghost Value = { map.FinMap name_cmp Slot };

    ghost coded = { slots_code };

    ghost use Rattle.name_tree.specs.NodeSlots.{slots_of};
    ghost use Rattle.name_tree.specs.Paths.{IsPath};
    ghost use Rattle.name_tree.specs.Trees.{IsKept, pairs_of};

    ghost view = { λ a. slots_of a.nodes.now };

    ghost invariant = { λ a. IsKept a.nodes.now × IsPath (pairs_of a.nodes.now) a.path };
}

impl NameTree {
    /// For names that are looked up in turn.
    pub fn finder(&self) -> Finder<'_>
        ensures { result ≡ self.entry.now }
    {
        Finder {
            nodes: &self.nodes,
            path: Path::new(),
        }
    }
}

impl<'a> Finder<'a> {
    /// What the name has. Takes no memory.
    pub fn get(&mut self, name: ElemName) -> Option<Entry>
        ensures value { result ≡ live_at self.old name }
        ensures same { self.new ≡ self.old }
    {
        let place = self.nodes.find(&mut self.path, name)?;
        self.nodes.entry(place)
    }
}
