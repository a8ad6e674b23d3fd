//! Lists of names that are put into a tree, or taken out of it.
ghost use Rattle.std.specs.Prelude.{◌≡◌, true, All, IfOk, OnErr, OnOk};
ghost use Rattle.std.specs.FinMap as map;
ghost use Rattle.std.specs.FinSet as set;
ghost use Rattle.name_tree.specs.Held.{held};
ghost use Rattle.name_tree.specs.Slots.{live_of};

use mesh_names::name::ElemName;
use name_tree::{Entry, NameTree};
use std::alloc::AllocError;

/// Makes a slot ready for each name.
pub(crate) fn make_ready(tree: &mut NameTree, names: &[ElemName]) -> Result<(), AllocError>
    ensures live { live_of tree.new ≡ live_of tree.old }
    ensures ready { OnOk result (All (λ n. map.contains_key tree.new n ≡ true) names.now) }
{
    for name in names {
        tree.ready(*name)?;
    }
    Ok(())
}

/// Puts the names into their slots. Takes no memory.
pub(crate) fn put_all(tree: &mut NameTree, names: &[ElemName])
    requires { All (λ n. map.contains_key tree.old n ≡ true) names.now }
    ensures { held tree.new ≡ set.union (held tree.old) (set.from_list names.now) }
{
    for name in names {
        tree.put(*name, Entry { index: 0, value: 0 });
    }
}

/// Takes the names out of their slots. Takes no memory.
pub(crate) fn take_out_all(tree: &mut NameTree, names: &[ElemName])
    ensures { held tree.new ≡ set.difference (held tree.old) (set.from_list names.now) }
{
    for name in names {
        tree.take_out(*name);
    }
}

/// Gives slots back that are empty, the last first, since those of longer names come later. Takes no
/// memory.
pub(crate) fn forget_all(tree: &mut NameTree, names: &[ElemName])
    ensures { live_of tree.new ≡ live_of tree.old }
{
    for name in names.iter().rev() {
        tree.forget(*name);
    }
}
