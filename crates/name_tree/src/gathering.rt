//! The names of a tree, by a walk over all nodes.
ghost use Rattle.std.specs.Prelude.{◌≡◌, ◌<◌, ◌≤◌, ◌++◌, ◌∷◌, [], All, Some, ℕ, cond, is_some, length, IfOk, OnOk};
ghost use Rattle.std.specs.FinSet.{from_list};
ghost use Rattle.mesh_names.specs.Names.{Name};
ghost use Rattle.mesh_names.specs.Forests.{Has, IsListOf};
ghost use Rattle.name_tree.specs.Held.{Gathers, held};
ghost use Rattle.name_tree.specs.Trees.{IsKept, node_at, pairs_of, place};

use crate::growing::child_place;
use crate::nodes::Nodes;
use crate::tree::NameTree;
use mesh_names::name::ElemName;
use std::alloc::{AllocError, Global};

impl Nodes {
    // Appends a name if there is an entry in its node.
    fn add_entry(
        &self,
        name: ElemName,
        node: u32,
        found: &mut Vec<ElemName>,
    ) -> Result<(), AllocError>
        requires { node < length self.now.nodes }
        ensures { OnOk result (found.new.items ≡ found.old.items ++ cond (is_some (node_at self.now.nodes node).entry) (name ∷ []) []) }
    {
        if self.entry(node).is_some() {
            found.push(name)?;
        }
        Ok(())
    }

    /// Appends the names with an entry at and below one, whose node stands here.
    pub(crate) fn gather(
        &self,
        name: ElemName,
        node: u32,
        found: &mut Vec<ElemName>,
    ) -> Result<(), AllocError>
        requires kept { IsKept self.now }
        requires node { place (pairs_of self.now) name.0 name.1 ≡ Some node }
        ensures { OnOk result (Gathers self.now name found.old.items found.new.items) }
    {
        self.add_entry(name, node, found)?;
        if name.depth() == 24 {
            return Ok(());
        }
        let Some(pair) = self.below(node) else {
            return Ok(());
        };
        self.gather(name.child_at(false), child_place(pair, false), found)?;
        self.gather(name.child_at(true), child_place(pair, true), found)?;
        Ok(())
    }

    /// Appends the names with an entry at and below a macro element.
    fn gather_from(&self, root: u32, found: &mut Vec<ElemName>) -> Result<(), AllocError>
        requires kept { IsKept self.now }
        requires root { root < 65535 }
        ensures { OnOk result (Gathers self.now (root, []) found.old.items found.new.items) }
    {
        let Some(pair) = self.top(root) else {
            return Ok(());
        };
        self.gather(ElemName::top(root), child_place(pair, false), found)?;
        Ok(())
    }
}

impl NameTree {
    /// The names of slots with an entry, in their order, where all lie below the first macro elements.
    pub fn names(&self, alloc: Global, elements: u32) -> Result<Vec<ElemName>, AllocError>
        requires few { elements ≤ 65535 }
        requires below { (n : Name) → Has (held self.now) n → n.0 < elements }
        ensures { IfOk result (λ v. IsListOf (held self.now) v.items) }
    {
        let mut found = Vec::new(alloc);
        for root in 0..elements {
            self.nodes.gather_from(root, &mut found)?;
        }
        found.sort_unstable();
        // No name was found twice; this is a pass that finds nothing, and shows it.
        found.dedup();
        Ok(found)
    }
}
