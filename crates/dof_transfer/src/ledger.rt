//! What is held of live names, with the administration of their indices.
ghost use Rattle.std.specs.Prelude.{◌≡◌, ◌+◌, ◌<◌, ◌≤◌, ◌^◌, true, [], IfOk, IsSome, OnErr, OnOk, length, map};
ghost use Rattle.std.specs.FinMap.{contains_key, empty, get};
ghost use Rattle.dof_admin.specs.Administration.{used_count};
ghost use Rattle.mesh_names.specs.Names.{Name};
ghost use Rattle.dof_transfer.specs.Held.{IsCompressed, IsSound, IsTidied, SetsValue, given_back, taken, value_of, worth_of};
ghost use Rattle.dof_transfer.specs.Exchanges.{value_in};
ghost use Rattle.dof_transfer.specs.Ledgers.{KeepsReady, held_of};

use crate::refusal::TransferRefusal;
use dof_admin::DofAdmin;
use mesh_names::name::ElemName;
use name_tree::{Entry, NameTree};
use std::alloc::{AllocError, Global};

/// The entries of live names, and the administration that their indices come from.
#[derive(Drop)]
pub(crate) struct Ledger {
    pub(crate) entries: NameTree,
    pub(crate) admin: DofAdmin,
}

impl Ledger {
    /// Nothing. Takes no memory.
    pub(crate) fn new(alloc: Global) -> Ledger
        ensures { result ≡ record { entries = empty; admin = record { flags = []; spare = 0 } } }
    {
        Ledger {
            entries: NameTree::new(alloc),
            admin: DofAdmin::new(alloc),
        }
    }

    /// What a live name has.
    pub(crate) fn get(&self, name: ElemName) -> Option<Entry>
        ensures { result ≡ get (held_of self.now).live name }
    {
        self.entries.get(name)
    }

    // The value of a live name, and 0 of any other.
    fn worth(&self, name: ElemName) -> i64
        ensures { result ≡ worth_of (held_of self.now) name }
    {
        match self.get(name) {
            Some(entry) => entry.value,
            None => 0,
        }
    }

    /// The values of names; one that is not live counts as 0. Names in order take one pass over the
    /// slots.
    pub(crate) fn values(&self, alloc: Global, names: &[ElemName]) -> Result<Vec<i64>, AllocError>
        ensures { IfOk result (λ values. values.items ≡ map (worth_of (held_of self.now)) names.now) }
    {
        let mut values = Vec::new(alloc);
        values.try_reserve(names.len())?;
        self.entries.append_in_order(names, &mut values)?;
        for place in values.len()..names.len() {
            values.push(self.worth(names[place]))?;
        }
        Ok(values)
    }

    /// Makes room for an entry of the name.
    pub(crate) fn ready(&mut self, name: ElemName) -> Result<(), AllocError>
        ensures held { held_of self.new ≡ held_of self.old }
        ensures spare { self.new.admin ≡ self.old.admin }
        ensures kept { KeepsReady self.old self.new }
        ensures ready { OnOk result (contains_key self.new.entries name ≡ true) }
    {
        self.entries.ready(name)
    }

    /// The name gives its index back; its value is answered, or 0 where it has none. Takes no
    /// memory, and the name stays ready.
    pub(crate) fn give_back(&mut self, name: ElemName) -> i64
        requires { IsSound (held_of self.old) }
        ensures value { result ≡ value_in (held_of self.old) name }
        ensures held { held_of self.new ≡ given_back (held_of self.old) name }
        ensures sound { IsSound (held_of self.new) }
        ensures kept { KeepsReady self.old self.new }
        ensures spare { self.old.admin.spare ≤ self.new.admin.spare }
    {
        let Some(entry) = self.entries.take_out(name) else {
            return 0;
        };
        self.admin.free(entry.index);
        entry.value
    }

    /// The name takes the least unused index, with this value. Takes no memory.
    pub(crate) fn take(&mut self, name: ElemName, value: i64)
        requires ready { contains_key self.old.entries name ≡ true }
        requires spare { 1 ≤ self.old.admin.spare }
        requires sound { IsSound (held_of self.old) }
        ensures held { held_of self.new ≡ taken (held_of self.old) name value }
        ensures sound { IsSound (held_of self.new) }
        ensures kept { KeepsReady self.old self.new }
        ensures spare { self.old.admin.spare ≤ self.new.admin.spare + 1 }
    {
        let index = self.admin.get();
        self.entries.put(name, Entry { index, value });
    }

    /// Sets the value of a live name, and nothing else. Takes no memory.
    pub(crate) fn set(&mut self, name: ElemName, value: i64)
        requires live { IsSome (value_of (held_of self.old) name) }
        requires sound { IsSound (held_of self.old) }
        ensures set { SetsValue (held_of self.old) (held_of self.new) name value }
        ensures sound { IsSound (held_of self.new) }
    {
        if let Some(entry) = self.entries.get(name) {
            let index = entry.index;
            self.entries.put(name, Entry { index, value });
        }
    }

    /// Gives the place of the name's slot back where nothing stands in it or beside it. Takes no memory.
    pub(crate) fn forget(&mut self, name: ElemName)
        ensures held { held_of self.new ≡ held_of self.old }
        ensures admin { self.new.admin ≡ self.old.admin }
    {
        self.entries.forget(name);
    }

    /// Renumbers the indices without holes, in their order, exactly where holes outnumber the used
    /// ones.
    pub(crate) fn tidy(&mut self) -> Result<(), TransferRefusal>
        requires { IsSound (held_of self.old) }
        ensures ok { OnOk result (IsTidied (held_of self.old) (held_of self.new)) }
        ensures err { OnErr result (held_of self.new ≡ held_of self.old) }
        ensures values { (n : Name) → value_of (held_of self.new) n ≡ value_of (held_of self.old) n }
        ensures sound { IsSound (held_of self.new) }
    {
        if self.admin.holes() > self.admin.used() {
            self.compress()?;
        }
        Ok(())
    }

    // Renumbers the indices without holes, in their order.
    fn compress(&mut self) -> Result<(), TransferRefusal>
        requires { IsSound (held_of self.old) }
        ensures ok { OnOk result (IsCompressed (held_of self.old) (held_of self.new)) }
        ensures err { OnErr result (self.new ≡ self.old) }
        ensures sound { IsSound (held_of self.new) }
    {
        let moved = self.admin.compress()?;
        self.entries.renumber(&moved);
        Ok(())
    }
}
