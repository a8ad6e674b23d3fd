//! Indices and values by name, in slots that can be made ready beforehand.
ghost use Rattle.std.specs.Prelude.{◌≡◌, true, ℕ, Option, Some, None, OnErr, OnOk};
ghost use Rattle.std.specs.FinMap as map;
ghost use Rattle.mesh_names.specs.Names.{Name};
ghost use Rattle.name_tree.specs.InOrder.{KeepsFirst, owner_of};
ghost use Rattle.name_tree.specs.Slots.{live_at, live_of, moved_slot};

use crate::nodes::{Entry, Nodes};
use crate::path::Path;
use mesh_names::name::ElemName;
use mesh_names::patch::VertexKey;
use std::alloc::{AllocError, Global};
use std::marker::Model;

/// What may stand for the name of a slot.
pub trait Keyed {
    // The name of the slot.
    ghost named: { Self → Option Name };

    /// The name of the slot, if there is one.
    fn slot_name(&self) -> Option<ElemName>
        ensures { result ≡ named self.now };
}

/// An element has its own slot.
impl Keyed for ElemName {
    ghost named = { λ n. Some n };

    fn slot_name(&self) -> Option<ElemName> {
        Some(*self)
    }
}

/// A midpoint has the slot of its patch's owner, and a macro vertex none.
impl Keyed for VertexKey {
    ghost named = { owner_of };

    fn slot_name(&self) -> Option<ElemName> {
        match *self {
            VertexKey::Macro(_) => None,
            VertexKey::Patch(owner) => Some(owner),
        }
    }
}

/// A slot for each of some names. An empty one is ready: what is put into it takes no memory.
///
/// The names are a tree, in which a name is found by a walk along its letters. The walk to the last name
/// is remembered, so that near names in turn take few steps each.
#[derive(Drop)]
pub struct NameTree {
    pub(crate) nodes: Nodes,
    path: Path,
}

impl Model for NameTree {
    ghost use Rattle.std.specs.FinMap as map;
    ghost use Rattle.mesh_names.specs.Names.{name_cmp};
    ghost use Rattle.name_tree.specs.Slots.{Slot, slots_code};

    ghost Value = { map.FinMap name_cmp Slot };

    ghost coded = { slots_code };

    ghost use Rattle.name_tree.specs.NodeSlots.{slots_of};
    ghost use Rattle.name_tree.specs.Paths.{IsPath};
    ghost use Rattle.name_tree.specs.Trees.{IsKept, pairs_of};

    ghost view = { λ a. slots_of a.nodes };

    ghost invariant = { λ a. IsKept a.nodes × IsPath (pairs_of a.nodes) a.path };
}

impl NameTree {
    /// No slots. Takes no memory.
    pub fn new(alloc: Global) -> NameTree
        ensures { result ≡ map.empty }
    {
        NameTree {
            nodes: Nodes::new(alloc),
            path: Path::new(),
        }
    }

    /// What the name has. Takes no memory.
    pub fn get(&self, name: ElemName) -> Option<Entry>
        ensures { result ≡ live_at self.now name }
    {
        let mut path = Path::new();
        let place = self.nodes.find(&mut path, name)?;
        self.nodes.entry(place)
    }

    /// Makes a slot for the name ready, if it has none. Those of other names may become ready too.
    pub fn ready(&mut self, name: ElemName) -> Result<(), AllocError>
        ensures live { live_of self.new ≡ live_of self.old }
        ensures kept { (n : Name) → map.contains_key self.old n ≡ true → map.contains_key self.new n ≡ true }
        ensures ready { OnOk result (map.contains_key self.new name ≡ true) }
    {
        self.nodes.make(&mut self.path, name)?;
        Ok(())
    }

    /// Puts an entry into the name's slot. Takes no memory.
    pub fn put(&mut self, name: ElemName, entry: Entry)
        requires { map.contains_key self.old name ≡ true }
        ensures { self.new ≡ map.insert self.old name (Some entry) }
    {
        if let Some(place) = self.nodes.find(&mut self.path, name) {
            self.nodes.put(place, Some(entry));
        }
    }

    /// Takes the entry out of the name's slot, which stays ready. Takes no memory.
    pub fn take_out(&mut self, name: ElemName) -> Option<Entry>
        ensures value { result ≡ live_at self.old name }
        ensures live { live_of self.new ≡ map.remove (live_of self.old) name }
        ensures kept { (n : Name) → map.contains_key self.old n ≡ true → map.contains_key self.new n ≡ true }
    {
        let place = self.nodes.find(&mut self.path, name)?;
        let old = self.nodes.entry(place);
        self.nodes.put(place, None);
        old
    }

    /// Gives the place of the name's slot back where nothing stands in it or beside it. Takes no memory.
    pub fn forget(&mut self, name: ElemName)
        ensures { live_of self.new ≡ live_of self.old }
    {
        self.nodes.prune(&mut self.path, name);
    }

    /// Appends the values of those keys, from the one at the list's length on, that name slots with an
    /// entry, up to the first that does not. Near names in turn take few steps each.
    pub fn append_in_order<K: Keyed>(
        &self,
        keys: &[K],
        values: &mut Vec<i64>,
    ) -> Result<(), AllocError>
        ensures { OnOk result (KeepsFirst K.named self.now keys.now values.old.items values.new.items) }
    {
        let nodes = &self.nodes;
        let mut path = Path::new();
        while let Some(key) = keys.get(values.len()) {
            let Some(name) = key.slot_name() else {
                break;
            };
            let Some(place) = nodes.find(&mut path, name) else {
                break;
            };
            let Some(entry) = nodes.entry(place) else {
                break;
            };
            values.push(entry.value)?;
        }
        Ok(())
    }

    /// Gives each entry the index that stands at the place of its old one. Takes no memory.
    pub fn renumber(&mut self, moved: &[u32])
        ensures live { (n : Name) → live_at self.new n ≡ moved_slot moved.now (live_at self.old n) }
    {
        self.nodes.renumber(moved);
    }
}
