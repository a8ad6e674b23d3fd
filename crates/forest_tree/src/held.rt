//! A finite set of names, in a tree.
ghost use Rattle.std.specs.Prelude.{◌≡◌, ◌<◌, ◌≤◌, IfOk, OnErr, OnOk};
ghost use Rattle.std.specs.FinSet as set;
ghost use Rattle.mesh_names.specs.Names.{Name};
ghost use Rattle.mesh_names.specs.Forests.{Has, IsListOf};

use crate::slots::{forget_all, make_ready, put_all, take_out_all};
use forest_plain::names::Asked;
use mesh_names::name::ElemName;
use name_tree::{Finder, NameTree};
use std::alloc::{AllocError, Global};
use std::marker::Model;

/// A finite set of names, in a tree.
#[derive(Drop)]
pub struct HeldNames {
    tree: NameTree,
}

impl Model for HeldNames {
    ghost use Rattle.std.specs.FinSet as set;
    ghost use Rattle.std.specs.Coded.{coded_ℕ, coded_bool, coded_list, coded×};
    ghost use Rattle.mesh_names.specs.Names.{name_cmp};
    ghost use Rattle.name_tree.specs.Held.{held};

    ghost Value = { set.FinSet name_cmp };

    ghost coded = { set.code (coded× coded_ℕ (coded_list coded_bool)) };

    ghost view = { λ a. held a.tree };
}

impl HeldNames {
    /// The empty set. Takes no memory.
    pub fn new(alloc: Global) -> HeldNames
        ensures { result ≡ set.empty }
    {
        HeldNames {
            tree: NameTree::new(alloc),
        }
    }

    /// Whether the name is in the set. Takes no memory.
    pub fn contains(&self, name: ElemName) -> bool
        ensures { result ≡ set.contains self.now name }
    {
        self.tree.get(name).is_some()
    }

    /// Adds the names: all of them, or none where memory is wanting.
    pub fn add_all(&mut self, names: &[ElemName]) -> Result<(), AllocError>
        ensures ok { OnOk result (self.new ≡ set.union self.old (set.from_list names.now)) }
        ensures err { OnErr result (self.new ≡ self.old) }
    {
        make_ready(&mut self.tree, names)?;
        put_all(&mut self.tree, names);
        Ok(())
    }

    /// Takes the names out of the set. Takes no memory.
    pub fn remove_all(&mut self, names: &[ElemName])
        ensures { self.new ≡ set.difference self.old (set.from_list names.now) }
    {
        take_out_all(&mut self.tree, names);
        forget_all(&mut self.tree, names);
    }

    /// The names in their order, where all lie below the first macro elements.
    pub fn to_vec(&self, alloc: Global, elements: u32) -> Result<Vec<ElemName>, AllocError>
        requires few { elements ≤ 65535 }
        requires below { (n : Name) → Has self.now n → n.0 < elements }
        ensures { IfOk result (λ v. IsListOf self.now v.items) }
    {
        self.tree.names(alloc, elements)
    }
}

/// Looks names up in a set, which does not change meanwhile: near names in turn take few steps each.
#[derive(Drop)]
pub struct HeldFinder<'a> {
    finder: Finder<'a>,
}

impl<'a> Model for HeldFinder<'a> {
    ghost use Rattle.std.specs.FinSet as set;
    ghost use Rattle.std.specs.Coded.{coded_ℕ, coded_bool, coded_list, coded×};
    ghost use Rattle.mesh_names.specs.Names.{name_cmp};
    ghost use Rattle.name_tree.specs.Held.{held};

    ghost Value = { set.FinSet name_cmp };

    ghost coded = { set.code (coded× coded_ℕ (coded_list coded_bool)) };

    ghost view = { λ a. held a.finder };
}

impl HeldNames {
    /// For names that are looked up in turn.
    pub fn finder(&self) -> HeldFinder<'_>
        ensures { result ≡ self.entry.now }
    {
        HeldFinder {
            finder: self.tree.finder(),
        }
    }
}

impl<'a> HeldFinder<'a> {
    /// Whether the name is in the set. Takes no memory.
    pub fn contains(&mut self, name: ElemName) -> bool
        ensures found { result ≡ set.contains self.old name }
        ensures same { self.new ≡ self.old }
    {
        self.finder.get(name).is_some()
    }
}

impl Asked for HeldFinder<'_> {
    ghost names = { λ s. s };

    fn has(&mut self, name: ElemName) -> bool {
        self.contains(name)
    }
}
