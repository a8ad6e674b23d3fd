//! One round of a mesh.
ghost use Rattle.std.specs.Prelude.{◌≡◌, ◌≢◌, false, All, IfErr, IfOk, IsFalse, OnErr, OnOk};
ghost use Rattle.mesh_names.specs.Forests.{IsInMesh, IsListOf};
ghost use Rattle.mesh_names.specs.Leaves.{leaves};
ghost use Rattle.mesh_names.specs.Marks.{IsWellFormed};
ghost use Rattle.compat_check.specs.Meshes.{across_in, shape_of};
ghost use Rattle.forest_plain.specs.AnyForest.{IsRefusal, IsUsedUp, KeepsRest, one_fewer, room_in};
ghost use Rattle.mesh_rounds.specs.State.{IsMeshRound, IsState, ListsLeaves, SetsEvery, with_values};

use crate::values::Values;
use compat_check::mesh::MacroMesh;
use forest_plain::any_forest::Forest;
use forest_plain::refusal::RoundRefusal;
use mesh_names::name::ElemName;
use mesh_names::rows::{MarkRow, Place, RoundMarks, What};
use std::alloc::Global;

// Whether a row gives every leaf, or every vertex of a leaf, a value.
fn sets_every(rows: &[MarkRow]) -> bool
    ensures { IsFalse result → All (λ row. SetsEvery row → ⊥) rows.now }
{
    for row in rows {
        if row.what != What::Mark && row.place == Place::EveryLeaf {
            return true;
        }
    }
    false
}

// The leaves, where a row gives all of them or all their vertices a value.
fn listed_leaves<F: Forest>(
    alloc: Global,
    forest: &mut F,
    rows: &[MarkRow],
) -> Result<Vec<ElemName>, RoundRefusal>
    requires { (F.seen forest.old).is_open ≡ false }
    ensures listed { IfOk result (λ v. ListsLeaves (F.seen forest.old).mesh (F.seen forest.old).members rows.now v.items) }
    ensures memory { IfErr result (λ r. r ≡ RoundRefusal.Memory) }
    ensures unchanged { F.seen forest.new ≡ F.seen forest.old }
{
    if sets_every(rows) {
        return forest.leaves();
    }
    Ok(Vec::new(alloc))
}

/// One round of a mesh. Its rows give leaves and vertices values, where of all rows that name one the
/// last wins; the forest is refined and coarsened; and the values go along (Mitchell's bisection): a new
/// vertex has half the sum of the values at the ends of the edge that it bisects, rounded down, child 0
/// of an element half of its value, rounded down, and child 1 the rest, and a coarsened element the sum
/// of its children's. A refusal changes nothing, unless memory runs out: then forest and values may only
/// be dropped.
pub fn round<F: Forest>(
    alloc: Global,
    mesh: &MacroMesh,
    forest: &mut F,
    values: &mut Values,
    marks: &RoundMarks,
) -> Result<(), RoundRefusal>
    requires formed { All IsWellFormed marks.now.rows.items }
    requires closed { (F.seen forest.old).is_open ≡ false }
    requires mesh { (F.seen forest.old).mesh ≡ shape_of mesh.now }
    requires sides { (F.seen forest.old).sides ≡ across_in mesh.now }
    requires state { IsState mesh.now (with_values (F.seen forest.old).members values.old) }
    ensures ok { OnOk result (IsMeshRound mesh.now (room_in (F.seen forest.old) (F.kept forest.new)) marks.now.rows.items (with_values (F.seen forest.old).members values.old) (with_values (F.seen forest.new).members values.new)) }
    ensures state { OnOk result (IsState mesh.now (with_values (F.seen forest.new).members values.new)) }
    ensures left { OnOk result ((IsUsedUp (F.seen forest.old) → ⊥) × ((F.seen forest.new).left ≡ one_fewer (F.seen forest.old).left)) }
    ensures refused { IfErr result (IsRefusal (F.seen forest.old) (F.kept forest.new) marks.now.rows.items) }
    ensures unchanged { IfErr result (λ r. r ≢ RoundRefusal.Memory → (F.seen forest.new ≡ F.seen forest.old) × (values.new ≡ values.old)) }
    ensures closed { (F.seen forest.new).is_open ≡ false }
    ensures same { KeepsRest (F.seen forest.old) (F.seen forest.new) }
{
    let _checked = mesh.element_count();
    let leaves = listed_leaves(alloc, forest, &marks.rows)?;
    let delta = forest.round(marks)?;
    values.set(mesh, &leaves, &marks.rows);
    match values.follow(mesh, &delta) {
        Ok(()) => Ok(()),
        Err(_) => Err(RoundRefusal::Memory),
    }
}
