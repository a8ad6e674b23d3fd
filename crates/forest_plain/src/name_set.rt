//! A finite set of names.
ghost use Rattle.std.specs.Prelude.{◌≡◌, not, IfOk, OnOk, OnErr};
ghost use Rattle.std.specs.FinSet as set;
ghost use Rattle.mesh_names.specs.Forests.{IsListOf};

use crate::names::{Asked, Growing, Shrinking};
use mesh_names::name::ElemName;
use std::alloc::{AllocError, Global};
use std::collections::BTreeSet;
use std::marker::Model;

/// A finite set of names, in their order.
#[derive(Drop)]
pub struct NameSet {
    pub(crate) names: BTreeSet<ElemName>,
}

impl Model for NameSet {
    ghost use Rattle.std.specs.FinSet as set;
    ghost use Rattle.std.specs.Coded.{coded_ℕ, coded_bool, coded_list, coded×};
    ghost use Rattle.mesh_names.specs.Names.{name_cmp};

    ghost Value = { set.FinSet name_cmp };

    ghost coded = { set.code (coded× coded_ℕ (coded_list coded_bool)) };

    ghost view = { λ a. set.from_list a.names.keys };
}

impl NameSet {
    /// The empty set. Takes no memory.
    pub fn new(alloc: Global) -> NameSet
        ensures { result ≡ set.empty }
    {
        NameSet {
            names: BTreeSet::new(alloc),
        }
    }

    /// The set of these names.
    pub fn of_names(alloc: Global, names: &[ElemName]) -> Result<NameSet, AllocError>
        ensures { IfOk result (λ s. s ≡ set.from_list names.now) }
    {
        let mut found = NameSet::new(alloc);
        for name in names {
            found.insert(*name)?;
        }
        Ok(found)
    }

    /// Whether the name is in the set.
    pub fn contains(&self, name: ElemName) -> bool
        ensures { result ≡ set.contains self.now name }
    {
        self.names.contains(&name)
    }

    /// Adds a name, and says whether it is new.
    pub fn insert(&mut self, name: ElemName) -> Result<bool, AllocError>
        ensures added { IfOk result (λ added. added ≡ not (set.contains self.old name)) }
        ensures held { OnOk result (self.new ≡ set.insert self.old name) }
        ensures err { OnErr result (self.new ≡ self.old) }
    {
        let added = self.names.insert(name)?;
        Ok(added)
    }

    /// Takes a name out of the set. Takes no memory.
    pub fn remove(&mut self, name: ElemName)
        ensures { self.new ≡ set.remove self.old name }
    {
        self.names.remove(&name);
    }

    /// A set of the same names.
    pub fn copy(&self) -> Result<NameSet, AllocError>
        ensures { IfOk result (λ s. s ≡ self.now) }
    {
        Ok(NameSet {
            names: self.names.clone()?,
        })
    }

    /// The names in their order.
    pub fn to_vec(&self, alloc: Global) -> Result<Vec<ElemName>, AllocError>
        ensures { IfOk result (λ v. IsListOf self.now v.items) }
    {
        self.names.iter().copied().collect(alloc)
    }
}

/// Looks names up in a set.
#[derive(Clone, Copy)]
pub struct NameFinder<'a> {
    set: &'a NameSet,
}

impl NameSet {
    /// For names that are looked up in turn.
    pub fn finder(&self) -> NameFinder<'_>
        ensures { result.set.now ≡ self.entry.now }
    {
        NameFinder { set: self }
    }
}

impl Asked for NameFinder<'_> {
    ghost names = { λ f. f.set.now };

    fn has(&mut self, name: ElemName) -> bool {
        self.set.contains(name)
    }
}

impl Growing for NameSet {
    ghost grown = { λ s. s };

    // No others are kept beside them.
    ghost start = { λ _. set.empty };

    fn add(&mut self, name: ElemName) -> Result<bool, AllocError> {
        self.insert(name)
    }
}

impl Shrinking for NameSet {
    ghost left = { λ s. s };

    // No others are kept beside them.
    ghost whole = { λ _. set.empty };

    fn is_left(&self, name: ElemName) -> bool {
        self.contains(name)
    }

    // This can be done without memory.
    fn take_away(&mut self, name: ElemName) -> Result<(), AllocError> {
        self.remove(name);
        Ok(())
    }
}
