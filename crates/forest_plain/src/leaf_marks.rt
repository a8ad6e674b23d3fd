//! The marks of leaves that may be coarsened.
ghost use Rattle.std.specs.Prelude.{◌≡◌, ◌<◌, Bool, ◌&&◌, ◌++◌, [], pos, not, cond, IfOk, OnOk, option_map, option_to_list};
ghost use Rattle.std.specs.Int.{is_negative};
ghost use Rattle.std.specs.FinSet as set;
ghost use Rattle.std.specs.FinSet.{from_list};
ghost use Rattle.mesh_names.specs.Names.{Name, depth, name_cmp, name_eq, parent_of};
ghost use Rattle.mesh_names.specs.Forests.{Has};
ghost use Rattle.mesh_names.specs.Coarsening.{allowance, child_at};
ghost use Rattle.forest_plain.specs.LeafMarks.{joined_in, leaf_mark};
ghost use Rattle.forest_plain.specs.MarkMaps.{mark_in};

use crate::marks::Marks;
use crate::name_set::NameSet;
use mesh_names::name::ElemName;
use std::alloc::{AllocError, Global};
use std::collections::BTreeMap;

/// The leaves with marks below 0, and the parents of such leaves, whose patches are still to be
/// tried.
#[derive(Drop)]
pub struct LeafMarks {
    pub(crate) marks: BTreeMap<ElemName, i64>,
    pub(crate) parents: Vec<ElemName>,
}

impl LeafMarks {
    /// No marks. Takes no memory.
    pub fn new(alloc: Global) -> LeafMarks
        ensures marks { (n : Name) → leaf_mark result n ≡ pos 0 }
        ensures parents { result.parents.items ≡ [] }
    {
        LeafMarks {
            marks: BTreeMap::new(alloc),
            parents: Vec::new(alloc),
        }
    }

    /// The marks below 0 of those leaves that are no members of the refined forest.
    pub fn of_leaves(
        alloc: Global,
        leaves: &[ElemName],
        marks: &Marks,
        refined: &NameSet,
    ) -> Result<LeafMarks, AllocError>
        ensures marks { IfOk result (λ m. (n : Name) → allowance (leaf_mark m n) ≡ cond (set.contains {R = name_cmp} (from_list leaves.now) n && not (set.contains refined.now n)) (allowance (mark_in marks.now n)) 0) }
        ensures parents { IfOk result (λ m. (n : Name) (side : Bool) → 0 < allowance (leaf_mark m (child_at n side)) → Has (from_list m.parents.items) n) }
    {
        let mut found = LeafMarks::new(alloc);
        for leaf in leaves {
            if !refined.contains(*leaf) {
                found.add(*leaf, marks.of(*leaf))?;
            }
        }
        Ok(found)
    }

    /// Keeps the mark of a leaf, if it is below 0; its parent is then to be tried.
    pub fn add(&mut self, leaf: ElemName, mark: i64) -> Result<(), AllocError>
        ensures marks { OnOk result ((n : Name) → leaf_mark self.new n ≡ cond (name_eq leaf n && is_negative mark) mark (leaf_mark self.old n)) }
        ensures parents { OnOk result (self.new.parents.items ≡ self.old.parents.items ++ cond (is_negative mark) (option_to_list (option_map (λ w. (leaf.0, w)) (parent_of leaf.1))) []) }
    {
        if mark >= 0 {
            return Ok(());
        }
        self.marks.insert(leaf, mark)?;
        if let Some(parent) = leaf.parent() {
            self.parents.push(parent)?;
        }
        Ok(())
    }

    /// The mark of the element as a leaf: the greater of its children's marks, plus one. `None`
    /// where these are not both below 0.
    pub fn joined(&self, name: ElemName) -> Option<i64>
        requires { depth name < 24 }
        ensures { result ≡ joined_in (leaf_mark self.now) name }
    {
        let first = self.of(name.child_at(false));
        let second = self.of(name.child_at(true));
        if first >= 0 || second >= 0 {
            return None;
        }
        Some(first.max(second) + 1)
    }

    // The mark that is kept of a leaf, and 0 where none is.
    fn of(&self, name: ElemName) -> i64
        ensures { result ≡ leaf_mark self.now name }
    {
        match self.marks.get(&name) {
            Some(mark) => *mark,
            None => 0,
        }
    }
}
