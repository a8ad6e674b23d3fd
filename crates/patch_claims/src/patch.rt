//! A patch that a pass has claimed or published.
ghost use Rattle.std.specs.Prelude.{◌≡◌, ◌<◌, ◌+◌, ◌∷◌, ◌++◌, [], length, vec_capacity};
ghost use Rattle.patch_claims.specs.Patches.{patch_at};

use mesh_names::patch::PatchName;
use table_words::layout::ElemAt;

/// The places of a patch's members.
#[derive(Clone, Copy, Debug)]
pub struct Spot {
    pub first: ElemAt,
    pub second: Option<ElemAt>,
}

/// A published patch: its block, the places of its members, and its name.
#[derive(Clone, Copy, Debug)]
pub struct Patch {
    pub block: u32,
    pub spot: Spot,
    pub name: PatchName,
}

/// Appends a published patch to a list that has room for it.
pub fn keep(
    published: &mut Vec<Patch>,
    block: u32,
    first: ElemAt,
    second: Option<ElemAt>,
    name: PatchName,
)
    requires room { length published.old.items < vec_capacity published.old }
    ensures items { published.new.items ≡ published.old.items ++ patch_at block first second name ∷ [] }
    ensures capacity { vec_capacity published.new ≡ vec_capacity published.old }
{
    let patch = Patch {
        block,
        spot: Spot { first, second },
        name,
    };
    published.push_reserved(patch);
}
