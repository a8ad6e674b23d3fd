//! Slots by the names of owners, which mostly come in the order of names.
ghost use Rattle.std.specs.Prelude.{◌≡◌, IfSome, None, OnOk};
ghost use Rattle.mesh_names.specs.Names.{Name, name_cmp};
ghost use Rattle.std.specs.BTreeMap.{is_at};
ghost use Rattle.std.specs.Map.{lookup};
ghost use Rattle.mesh_writer.specs.Owners.{AreRising, IsNewest, Puts, told_by};

use mesh_names::name::ElemName;
use std::alloc::{AllocError, Global};
use std::collections::BTreeMap;

/// Slots by names. A name that comes after all before it stands in the list, and another in the map.
#[derive(Drop)]
pub(crate) struct Owners {
    in_order: Vec<(ElemName, u32)>,
    late: BTreeMap<ElemName, u32>,
}

impl Owners {
    /// No names.
    pub(crate) fn new(alloc: Global) -> Owners
        ensures rising { AreRising result }
        ensures empty { (n : Name) → told_by result n ≡ None }
    {
        Owners {
            in_order: Vec::new(alloc),
            late: BTreeMap::new(alloc),
        }
    }

    // Whether the name comes after all in the list.
    fn is_newest(&self, name: ElemName) -> bool
        ensures { IsNewest self.now name result }
    {
        match self.in_order.last() {
            None => true,
            Some(entry) => entry.0 < name,
        }
    }

    /// The slot of a name.
    pub(crate) fn get(&self, name: ElemName) -> Option<u32>
        requires { AreRising self.now }
        ensures { result ≡ told_by self.now name }
    {
        if let Some(slot) = self.in_list(name) {
            return Some(slot);
        }
        self.late.get(&name).copied()
    }

    // The slot of a name in the list.
    fn in_list(&self, name: ElemName) -> Option<u32>
        requires { AreRising self.now }
        ensures { result ≡ lookup (is_at (name_cmp name)) self.now.in_order.items }
    {
        if self.is_newest(name) {
            return None;
        }
        match self.in_order.binary_search_by_key(&name, |entry| entry.0) {
            Ok(place) => Some(self.in_order[place].1),
            Err(_) => None,
        }
    }

    /// Gives a new name its slot.
    pub(crate) fn put(&mut self, name: ElemName, slot: u32) -> Result<(), AllocError>
        requires rising { AreRising self.old }
        requires new { told_by self.old name ≡ None }
        ensures rising { OnOk result (AreRising self.new) }
        ensures puts { OnOk result (Puts name slot self.old self.new) }
    {
        if self.is_newest(name) {
            self.in_order.push((name, slot))?;
        } else {
            self.late.insert(name, slot)?;
        }
        Ok(())
    }
}
