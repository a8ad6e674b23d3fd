//! The members of a forest with those that a round adds.
ghost use Rattle.std.specs.Prelude.{◌≡◌};
ghost use Rattle.std.specs.FinSet as set;
ghost use Rattle.forest_tree.specs.Apart.{IsApart};

use crate::held::{HeldFinder, HeldNames};
use forest_plain::name_set::NameSet;
use forest_plain::names::Growing;
use mesh_names::name::ElemName;
use std::alloc::{AllocError, Global};

/// The members of a forest, and beside them those that a round adds.
#[derive(Drop)]
pub struct Grown<'a> {
    members: HeldFinder<'a>,
    fresh: NameSet,
    ghost apart: { IsApart members fresh },
}

impl<'a> Grown<'a> {
    ghost use Rattle.forest_tree.specs.Grown.{start_of};

    /// Nothing is added yet. Takes no memory.
    pub(crate) fn new(alloc: Global, members: &'a HeldNames) -> Grown<'a>
        ensures start { start_of result ≡ members.entry.now }
        ensures fresh { result.fresh ≡ set.empty }
    {
        Grown {
            members: members.finder(),
            fresh: NameSet::new(alloc),
        }
    }

    /// The new members.
    pub(crate) fn into_fresh(self) -> NameSet
        ensures fresh { result ≡ self.entry.fresh }
        ensures apart { IsApart (start_of self.entry) result }
    {
        let Grown { members: _, fresh } = self;
        fresh
    }
}

impl Growing for Grown<'_> {
    ghost use Rattle.forest_tree.specs.Grown.{grown_of, start_of};

    ghost grown = { grown_of };

    ghost start = { start_of };

    fn add(&mut self, name: ElemName) -> Result<bool, AllocError> {
        if self.members.contains(name) {
            return Ok(false);
        }
        let added = self.fresh.insert(name)?;
        Ok(added)
    }
}
