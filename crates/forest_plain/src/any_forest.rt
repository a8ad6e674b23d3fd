//! What each forest can do.
ghost use Rattle.std.specs.Prelude.{◌≡◌, ◌↔◌, ℕ, false, All, IfErr, IfOk, IsTrue, OnErr};
ghost use Rattle.mesh_names.specs.Forests.{IsInMesh, IsLeaf, IsListOf};
ghost use Rattle.mesh_names.specs.Leaves.{leaves};
ghost use Rattle.mesh_names.specs.Marks.{IsWellFormed};
ghost use Rattle.mesh_names.specs.Patches.{patch_count};
ghost use Rattle.forest_plain.specs.AnyForest.{IsDone, IsRefusal, Seen};

use crate::refusal::RoundRefusal;
use mesh_names::name::ElemName;
use mesh_names::patch::RoundDelta;
use mesh_names::rows::RoundMarks;

/// A conforming forest over a macro mesh. No round may be open at a call, and none is after it.
pub trait Forest {
    // The forest, as contracts see it.
    ghost seen: { Self → Seen };

    // How many patches of its pool it kept back when it last compared a refined forest with it.
    ghost kept: { Self → ℕ };

    /// Bisects each leaf with a mark above 0 as often as its mark says, and all that a conforming
    /// forest needs with it (Mitchell): the refined forest is the least one. Then takes away each
    /// patch whose members' children are all leaves with marks below 0, and goes on so, where a
    /// member that becomes a leaf has the greater of its children's marks, plus one. A leaf's mark
    /// is the number of the last mark row that names it or every leaf; a leaf that this round made
    /// has none. Of rows of values only the places are checked. Where rounds are limited, one
    /// fewer is left. After a refusal the forest is as it was, and so is the number of rounds that
    /// are left.
    fn round(&mut self, marks: &RoundMarks) -> Result<RoundDelta, RoundRefusal>
        requires closed { (seen self.old).is_open ≡ false }
        requires formed { All IsWellFormed marks.now.rows.items }
        ensures ok { IfOk result (IsDone (seen self.old) (kept self.new) marks.now.rows.items (seen self.new)) }
        ensures refused { IfErr result (IsRefusal (seen self.old) (kept self.new) marks.now.rows.items) }
        ensures unchanged { OnErr result (seen self.new ≡ seen self.old) };

    /// Whether the name is a leaf; no name with a root out of range is one. Takes no memory.
    fn is_leaf(&mut self, name: ElemName) -> bool
        requires { (seen self.old).is_open ≡ false }
        ensures leaf { IsTrue result ↔ IsLeaf (seen self.old).mesh (seen self.old).members name }
        ensures unchanged { seen self.new ≡ seen self.old };

    /// The leaves in the order of names.
    fn leaves(&mut self) -> Result<Vec<ElemName>, RoundRefusal>
        requires { (seen self.old).is_open ≡ false }
        ensures ok { IfOk result (λ v. IsListOf (leaves (seen self.old).mesh (seen self.old).members) v.items) }
        ensures mesh { IfOk result (λ v. All (IsInMesh (seen self.old).mesh) v.items) }
        ensures memory { IfErr result (λ r. r ≡ RoundRefusal.Memory) }
        ensures unchanged { seen self.new ≡ seen self.old };

    /// The number of patches. Takes no memory.
    fn patches(&self) -> u32
        requires { (seen self.now).is_open ≡ false }
        ensures { result ≡ patch_count (seen self.now).sides (seen self.now).members };
}
