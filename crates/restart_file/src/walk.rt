//! A walk over the elements of a tree in preorder.
ghost use Rattle.std.specs.Prelude.{◌≡◌, IfSome};
ghost use Rattle.restart_file.specs.Walks.{after, coming};

use mesh_names::name::ElemName;

/// The element that a walk comes to after the whole tree of this one: child 1 of the lowest element
/// above of which this one is in child 0. `None` where there is none, at the end of the walk.
pub(crate) fn next_after(name: ElemName) -> Option<ElemName>
    ensures coming { coming result ≡ after name.0 name.1 }
    ensures root { IfSome result (λ n. n.0 ≡ name.0) }
{
    let _few = name.depth();
    let mut at = name;
    while let Some((parent, side)) = at.split() {
        if !side {
            return Some(parent.child_at(true));
        }
        at = parent;
    }
    None
}
