//! The members of a refined forest without those that coarsening takes away.
ghost use Rattle.std.specs.Prelude.{◌≡◌};
ghost use Rattle.std.specs.FinSet as set;
ghost use Rattle.mesh_names.specs.Forests.{Within};

use crate::held::HeldNames;
use forest_plain::name_set::NameSet;
use forest_plain::names::Shrinking;
use mesh_names::name::ElemName;
use std::alloc::{AllocError, Global};

/// The members of a refined forest, of which those that are gone are noted beside them.
#[derive(Drop)]
pub struct Lessened<'a> {
    members: &'a HeldNames,
    fresh: &'a NameSet,
    gone: NameSet,
    ghost within: { Within gone (set.union members.now fresh.now) },
}

impl<'a> Lessened<'a> {
    ghost use Rattle.forest_tree.specs.Grown.{whole_of};

    /// Nothing is gone yet. Takes no memory.
    pub(crate) fn new(alloc: Global, members: &'a HeldNames, fresh: &'a NameSet) -> Lessened<'a>
        ensures whole { whole_of result ≡ set.union members.entry.now fresh.entry.now }
        ensures gone { result.gone ≡ set.empty }
    {
        Lessened {
            members,
            fresh,
            gone: NameSet::new(alloc),
        }
    }

    /// The members that are gone.
    pub(crate) fn into_gone(self) -> NameSet
        ensures gone { result ≡ self.entry.gone }
        ensures within { Within result (whole_of self.entry) }
    {
        let Lessened {
            members: _,
            fresh: _,
            gone,
        } = self;
        gone
    }
}

impl Shrinking for Lessened<'_> {
    ghost use Rattle.forest_tree.specs.Grown.{left_of, whole_of};

    ghost left = { left_of };

    ghost whole = { whole_of };

    fn is_left(&self, name: ElemName) -> bool {
        if self.gone.contains(name) {
            return false;
        }
        self.members.contains(name) || self.fresh.contains(name)
    }

    fn take_away(&mut self, name: ElemName) -> Result<(), AllocError> {
        if self.is_left(name) {
            self.gone.insert(name)?;
        }
        Ok(())
    }
}
