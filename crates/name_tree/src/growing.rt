//! Pairs of nodes that are added to a tree, and those that are given back.
ghost use Rattle.std.specs.Prelude.{◌≡◌, ◌+◌, ◌*◌, ◌<◌, ◌≤◌, ◌^◌, [], true, ℕ, None, Some, IfOk, IfErr, IfSome, IsSome, length};
ghost use Rattle.mesh_names.specs.Names.{Name, depth, digit};
ghost use Rattle.name_tree.specs.Trees.{IsBlank, IsKept, Root, Source, Under, live_in, node_at, pairs_of, place};
ghost use Rattle.name_tree.specs.Paths.{IsPath};
ghost use Rattle.name_tree.specs.Growth.{Adds, Grows, IsFree, IsNamed, Keeps, Stays, Shrinks};

use crate::nodes::Nodes;
use crate::path::Path;
use mesh_names::name::ElemName;
use std::alloc::AllocError;

/// The node on one side of a pair.
pub(crate) fn child_place(pair: u32, side: bool) -> u32
    requires { pair < 2 ^ 31 }
    ensures { result ≡ 2 * pair + digit side }
{
    pair * 2 + side as u32
}

impl Nodes {
    // Two nodes more, with nothing in them.
    fn widen(&mut self) -> Result<(), AllocError>
        requires { IsKept self.old }
        ensures ok { IfOk result (λ _. length self.new.nodes ≡ length self.old.nodes + 2) }
        ensures err { IfErr result (λ _. self.new.nodes ≡ self.old.nodes) }
        ensures nodes { (i : ℕ) → node_at self.new.nodes i ≡ node_at self.old.nodes i }
        ensures tops { self.new.tops.items ≡ self.old.tops.items }
        ensures spare { self.new.spare.items ≡ self.old.spare.items }
    {
        self.spare.try_reserve(self.nodes.len() / 2 + 1)?;
        self.nodes.widen()
    }

    // A pair that is not named, with nothing in it.
    fn fresh(&mut self) -> Result<u32, AllocError>
        requires { IsKept self.old }
        ensures kept { IsKept self.new }
        ensures free { IfOk result (IsFree self.new) }
        ensures nodes { (i : ℕ) → node_at self.new.nodes i ≡ node_at self.old.nodes i }
        ensures tops { self.new.tops.items ≡ self.old.tops.items }
    {
        if let Some(pair) = self.spare.pop() {
            return Ok(pair);
        }
        let pair = self.nodes.len() / 2;
        if pair >= 2_147_483_647 {
            return Err(AllocError);
        }
        self.widen()?;
        Ok(pair as u32)
    }

    // A pair for the children of a node.
    fn sprout(&mut self, place: u32) -> Result<u32, AllocError>
        requires kept { IsKept self.old }
        requires named { IsNamed (pairs_of self.old) place }
        requires none { (node_at self.old.nodes place).below ≡ None }
        ensures kept { IsKept self.new }
        ensures ok { IfOk result (Grows self.old self.new (Under place)) }
        ensures err { IfErr result (λ _. Stays self.old self.new) }
    {
        let pair = self.fresh()?;
        self.join(place, Some(pair));
        Ok(pair)
    }

    // A pair for a macro element.
    fn plant(&mut self, root: u32) -> Result<u32, AllocError>
        requires kept { IsKept self.old }
        requires none { pairs_of self.old (Root root) ≡ None }
        ensures kept { IsKept self.new }
        ensures ok { IfOk result (Grows self.old self.new (Root root)) }
        ensures err { IfErr result (λ _. Stays self.old self.new) }
    {
        self.reach(root)?;
        let pair = self.fresh()?;
        self.tops[root as usize] = Some(pair);
        Ok(pair)
    }

    // Makes the list of macro elements as long as to have this one.
    fn reach(&mut self, root: u32) -> Result<(), AllocError>
        ensures nodes { self.new.nodes ≡ self.old.nodes }
        ensures spare { self.new.spare.items ≡ self.old.spare.items }
        ensures tops { (s : Source) → pairs_of self.new s ≡ pairs_of self.old s }
        ensures long { IfOk result (λ _. root < length self.new.tops.items) }
    {
        while self.tops.len() <= root as usize {
            self.tops.push(None)?;
        }
        Ok(())
    }

    // The pair below a node, which is made if there is none.
    fn pair_below(&mut self, place: u32) -> Result<u32, AllocError>
        requires kept { IsKept self.old }
        requires named { IsNamed (pairs_of self.old) place }
        ensures kept { IsKept self.new }
        ensures same { Keeps self.old self.new }
        ensures below { IfOk result (λ p. pairs_of self.new (Under place) ≡ Some p) }
    {
        match self.below(place) {
            Some(pair) => Ok(pair),
            None => self.sprout(place),
        }
    }

    /// The place of a name's node, which is made if there is none. The path leads there.
    pub(crate) fn make(&mut self, path: &mut Path, name: ElemName) -> Result<u32, AllocError>
        requires kept { IsKept self.old }
        requires path { IsPath (pairs_of self.old) path.old }
        ensures kept { IsKept self.new }
        ensures path { IsPath (pairs_of self.new) path.new }
        ensures same { Keeps self.old self.new }
        ensures at { IfOk result (λ i. place (pairs_of self.new) name.0 name.1 ≡ Some i) }
        ensures name { IfOk result (λ i. path.new.name ≡ Some name) }
        ensures low { IfOk result (λ i. depth name ≤ 24) }
    {
        if let Some(place) = self.find(path, name) {
            return Ok(place);
        }
        let Some(above) = name.split() else {
            let pair = self.plant(name.root())?;
            path.places[0] = pair * 2;
            path.name = Some(name);
            return Ok(pair * 2);
        };
        let place = self.make(path, above.0)?;
        let pair = self.pair_below(place)?;
        let place = child_place(pair, above.1);
        path.places[name.depth() as usize] = place;
        path.name = Some(name);
        Ok(place)
    }

    // Gives the pair below a node back.
    fn part(&mut self, place: u32, pair: u32)
        requires kept { IsKept self.old }
        requires named { IsNamed (pairs_of self.old) place }
        requires below { (node_at self.old.nodes place).below ≡ Some pair }
        requires blank { IsBlank self.old.nodes pair }
        ensures kept { IsKept self.new }
        ensures shrinks { Shrinks self.old self.new place pair }
    {
        self.join(place, None);
        if self.spare.len() < self.spare.capacity() {
            self.spare.push_reserved(pair);
        }
    }

    /// Gives the pair in which a name's node stands back if nothing stands in it. The path leads to
    /// the name's parent. Takes no memory.
    pub(crate) fn prune(&mut self, path: &mut Path, name: ElemName)
        requires kept { IsKept self.old }
        requires path { IsPath (pairs_of self.old) path.old }
        ensures kept { IsKept self.new }
        ensures path { IsPath (pairs_of self.new) path.new }
        ensures same { (n : Name) → live_in (pairs_of self.new) self.new.nodes n ≡ live_in (pairs_of self.old) self.old.nodes n }
    {
        let Some(parent) = name.parent() else {
            return;
        };
        let Some(place) = self.find(path, parent) else {
            return;
        };
        if let Some(pair) = self.below(place)
            && self.is_blank(pair)
        {
            self.part(place, pair);
        }
    }
}
