//! A path to a node, which is remembered from one name to the next.
ghost use Rattle.std.specs.Prelude.{◌≡◌, ◌<◌, ◌≤◌, ◌+◌, None, Some, IfSome, MatchOption, option_map};
ghost use Rattle.mesh_names.specs.Names.{depth};
ghost use Rattle.name_tree.specs.Trees.{IsKept, LeadsTo, Root, Under, pairs_of, place};
ghost use Rattle.name_tree.specs.Paths.{IsPath};

use crate::letters::{common_letters, first_letters, letter};
use crate::nodes::Nodes;
use mesh_names::name::ElemName;

/// The name that was found last, and the places of its first letters.
#[derive(Clone, Copy)]
pub(crate) struct Path {
    pub(crate) name: Option<ElemName>,
    pub(crate) places: [u32; 25],
}

impl Path {
    /// A path that leads nowhere.
    pub(crate) fn new() -> Path
        ensures { result.name ≡ None }
    {
        Path {
            name: None,
            places: [0; 25],
        }
    }
}

impl Nodes {
    /// How many first letters of a name the path has led to; none where not even its macro element has
    /// a node.
    fn begin(&self, path: &mut Path, name: ElemName) -> Option<u8>
        requires kept { IsKept self.now }
        requires path { IsPath (pairs_of self.now) path.old }
        ensures within { IfSome result (λ k. k ≤ depth name) }
        ensures leads { IfSome result (λ k. LeadsTo (pairs_of self.now) name k path.new.places) }
        ensures none { result ≡ None → pairs_of self.now (Root name.0) ≡ None }
        ensures path { result ≡ None → IsPath (pairs_of self.now) path.new }
    {
        if let Some(last) = path.name
            && let Some(letters) = common_letters(last, name)
        {
            return Some(letters);
        }
        let pair = self.top(name.root())?;
        path.places[0] = pair * 2;
        Some(0)
    }

    /// The place of a name's node, if it has one. The path leads there, or as far as there are nodes.
    pub(crate) fn find(&self, path: &mut Path, name: ElemName) -> Option<u32>
        requires kept { IsKept self.now }
        requires path { IsPath (pairs_of self.now) path.old }
        ensures place { result ≡ place (pairs_of self.now) name.0 name.1 }
        ensures path { IsPath (pairs_of self.now) path.new }
        ensures name { IfSome result (λ i. path.new.name ≡ Some name) }
        ensures low { IfSome result (λ i. depth name ≤ 24) }
    {
        let mut level = self.begin(path, name)?;
        while level < name.depth() {
            let Some(pair) = self.below(path.places[level as usize]) else {
                path.name = Some(first_letters(name, level));
                return None;
            };
            level += 1;
            path.places[level as usize] = pair * 2 + letter(name, level) as u32;
        }
        path.name = Some(name);
        Some(path.places[level as usize])
    }
}
