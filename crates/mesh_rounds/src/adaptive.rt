//! A mesh that rounds adapt: a forest over a macro mesh, and the values of its vertices and leaves.
ghost use Rattle.std.specs.Prelude.{◌≡◌, ◌≢◌, false, All, IfErr, IfOk, OnOk, map};
ghost use Rattle.std.specs.FinSet.{empty};
ghost use Rattle.mesh_names.specs.Forests.{IsInMesh};
ghost use Rattle.mesh_names.specs.Marks.{IsWellFormed};
ghost use Rattle.compat_check.specs.Meshes.{across_in, shape_of};
ghost use Rattle.dof_transfer.specs.Held.{value_of, worth_of};
ghost use Rattle.dof_transfer.specs.VertexValues.{value_at};
ghost use Rattle.forest_plain.specs.AnyForest.{IsRefusal, IsUsedUp, KeepsRest, one_fewer};
ghost use Rattle.mesh_rounds.specs.Resumed.{IsResumed, IsWhole};
ghost use Rattle.mesh_rounds.specs.State.{Belongs, IsFirst, IsState, with_values};
ghost use Rattle.mesh_rounds.specs.Texts.{AreCounts, AreLeaves, IsTextOfState};

use crate::resuming::resumed;
use crate::round::round;
use crate::values::Values;
use compat_check::mesh::MacroMesh;
use dof_transfer::TransferRefusal;
use forest_plain::any_forest::Forest;
use forest_plain::refusal::RoundRefusal;
use mesh_names::name::ElemName;
use mesh_names::patch::{RoundDelta, VertexKey};
use mesh_names::rows::RoundMarks;
use mesh_writer::refusal::WriterRefusal;
use mesh_writer::text::mesh_text;
use std::alloc::Global;
use std::thread::Threads;

/// How much a mesh has: leaves, vertices (those of the macro mesh that no element has, too), patches, and
/// indices of vertices that are not used.
#[derive(Clone, Copy, Debug, PartialEq, Eq)]
pub struct Counts {
    pub leaves: usize,
    pub vertices: u64,
    pub patches: u32,
    pub holes: u32,
}

/// A conforming mesh that rounds refine and coarsen, with the values of its vertices and leaves.
///
/// Where memory runs out in a round, the mesh is lost: from then on each round and each text is refused
/// as if memory had run out, and what the other calls answer is of no use.
#[derive(Drop)]
pub struct AdaptiveMesh<'m, F: Forest + Drop> {
    alloc: Global,
    mesh: &'m MacroMesh,
    forest: F,
    values: Values,
    is_lost: bool,
    ghost closed: { (F.seen forest).is_open ≡ false },
    ghost shape: { (F.seen forest).mesh ≡ shape_of mesh.now },
    ghost sides: { (F.seen forest).sides ≡ across_in mesh.now },
    ghost state: { is_lost ≡ false → Belongs mesh.now (with_values (F.seen forest).members values) },
}

// Whether memory ran out.
fn is_memory(answer: &Result<(), RoundRefusal>) -> bool
    ensures { result ≡ false → IfErr answer.now (λ r. r ≢ RoundRefusal.Memory) }
{
    matches!(answer, Err(RoundRefusal::Memory))
}

impl<'m, F: Forest + Drop> AdaptiveMesh<'m, F> {
    ghost use Rattle.mesh_rounds.specs.Adaptive.{IsSame, LeadsTo, kept_of, mesh_of, seen_of, state_of};

    /// The macro mesh with its values, from a forest over it in which nothing is bisected.
    pub fn new(
        alloc: Global,
        mesh: &'m MacroMesh,
        forest: F,
    ) -> Result<AdaptiveMesh<'m, F>, TransferRefusal>
        requires closed { (F.seen forest).is_open ≡ false }
        requires mesh { (F.seen forest).mesh ≡ shape_of mesh.now }
        requires sides { (F.seen forest).sides ≡ across_in mesh.now }
        requires nothing { (F.seen forest).members ≡ empty }
        ensures first { IfOk result (λ m. IsFirst mesh.entry.now (state_of m)) }
        ensures state { IfOk result (λ m. IsState (mesh_of m) (state_of m)) }
        ensures mesh { IfOk result (λ m. mesh_of m ≡ mesh.entry.now) }
        ensures forest { IfOk result (λ m. seen_of m ≡ F.seen forest) }
    {
        let values = Values::new(alloc, mesh)?;
        Ok(AdaptiveMesh {
            alloc,
            mesh,
            forest,
            values,
            is_lost: false,
        })
    }

    /// The mesh of a forest that is given whole, with the values that the macro mesh's lead to. The
    /// patches are those that lead to it from the macro mesh. Takes time by the patches.
    pub fn resumed(
        alloc: Global,
        mesh: &'m MacroMesh,
        forest: F,
        delta: &RoundDelta,
    ) -> Result<AdaptiveMesh<'m, F>, TransferRefusal>
        requires closed { (F.seen forest).is_open ≡ false }
        requires mesh { (F.seen forest).mesh ≡ shape_of mesh.now }
        requires sides { (F.seen forest).sides ≡ across_in mesh.now }
        requires whole { IsWhole mesh.now (F.seen forest).members delta.now }
        ensures resumed { IfOk result (λ m. IsResumed mesh.entry.now (state_of m)) }
        ensures state { IfOk result (λ m. IsState (mesh_of m) (state_of m)) }
        ensures mesh { IfOk result (λ m. mesh_of m ≡ mesh.entry.now) }
        ensures forest { IfOk result (λ m. seen_of m ≡ F.seen forest) }
    {
        let values = resumed(alloc, mesh, delta)?;
        Ok(AdaptiveMesh {
            alloc,
            mesh,
            forest,
            values,
            is_lost: false,
        })
    }

    /// The macro mesh.
    pub fn macro_mesh(&self) -> &'m MacroMesh
        ensures { result.now ≡ mesh_of self.now }
    {
        self.mesh
    }

    /// The forest.
    pub fn forest(&self) -> &F
        ensures seen { F.seen result.now ≡ seen_of self.now }
    {
        &self.forest
    }

    /// One round. Its rows give leaves and vertices values, where of all rows that name one the last wins;
    /// the mesh is refined and coarsened; and the values go along (Mitchell's bisection): a new vertex has
    /// half the sum of the values at the ends of the edge that it bisects, rounded down, child 0 of an
    /// element half of its value, rounded down, and child 1 the rest, and a coarsened element the sum of
    /// its children's. A refusal changes nothing, unless memory runs out: then the mesh is lost.
    pub fn round(&mut self, marks: &RoundMarks) -> Result<(), RoundRefusal>
        requires formed { All IsWellFormed marks.now.rows.items }
        ensures ok { OnOk result (LeadsTo marks.now.rows.items self.old self.new) }
        ensures state { OnOk result (IsState (mesh_of self.new) (state_of self.new)) }
        ensures left { OnOk result ((IsUsedUp (seen_of self.old) → ⊥) × ((seen_of self.new).left ≡ one_fewer (seen_of self.old).left)) }
        ensures refused { IfErr result (IsRefusal (seen_of self.old) (kept_of self.new) marks.now.rows.items) }
        ensures unchanged { IfErr result (λ r. r ≢ RoundRefusal.Memory → IsSame self.old self.new) }
        ensures same { mesh_of self.new ≡ mesh_of self.old }
        ensures rest { KeepsRest (seen_of self.old) (seen_of self.new) }
    {
        if self.is_lost {
            return Err(RoundRefusal::Memory);
        }
        let answer = round(
            self.alloc,
            self.mesh,
            &mut self.forest,
            &mut self.values,
            marks,
        );
        self.is_lost = is_memory(&answer);
        answer
    }

    /// The leaves in the order of names.
    pub fn leaves(&mut self) -> Result<Vec<ElemName>, RoundRefusal>
        ensures ok { IfOk result (λ v. AreLeaves (mesh_of self.old) (state_of self.old) v.items) }
        ensures inside { IfOk result (λ v. All (IsInMesh (shape_of (mesh_of self.old))) v.items) }
        ensures memory { IfErr result (λ r. r ≡ RoundRefusal.Memory) }
        ensures same { IsSame self.old self.new }
    {
        self.forest.leaves()
    }

    /// How much the mesh has.
    pub fn counts(&mut self) -> Result<Counts, RoundRefusal>
        ensures ok { IfOk result (AreCounts (mesh_of self.old) (state_of self.old)) }
        ensures memory { IfErr result (λ r. r ≡ RoundRefusal.Memory) }
        ensures same { IsSame self.old self.new }
    {
        let leaves = self.forest.leaves()?;
        let patches = self.forest.patches();
        Ok(Counts {
            leaves: leaves.len(),
            vertices: u64::from(self.mesh.vertex_count()) + u64::from(patches),
            patches,
            holes: self.values.vertices.holes(),
        })
    }

    /// The value of a vertex; `None` where the mesh has no such vertex. Takes no memory.
    pub fn vertex_value(&self, key: VertexKey) -> Option<i64>
        ensures { result ≡ value_at (state_of self.now).vertices key }
    {
        self.values.vertices.value(key)
    }

    /// The value of a leaf; `None` where the name is no leaf. Takes no memory.
    pub fn leaf_value(&self, name: ElemName) -> Option<i64>
        ensures { result ≡ value_of (state_of self.now).elements name }
    {
        self.values.elements.value(name)
    }

    /// The values of elements; one that is no leaf counts as 0. Leaves in order take one pass.
    pub fn leaf_values(&self, names: &[ElemName]) -> Result<Vec<i64>, TransferRefusal>
        ensures { IfOk result (λ values. values.items ≡ map (worth_of (state_of self.now).elements) names.now) }
    {
        self.values.elements.values(self.alloc, names)
    }

    /// The text of the mesh, in the form of a macro file with every list. It is refused only where memory
    /// runs out. The lines are made in several threads where there are such.
    pub fn text<R: Threads + Sync>(&mut self, rt: &R) -> Result<Vec<u8>, WriterRefusal>
        ensures ok { IfOk result (λ text. IsTextOfState (mesh_of self.old) (state_of self.old) text.items) }
        ensures same { IsSame self.old self.new }
    {
        if self.is_lost {
            return Err(WriterRefusal::Memory);
        }
        let _checked = self.mesh.element_count();
        let Ok(leaves) = self.forest.leaves() else {
            return Err(WriterRefusal::Memory);
        };
        mesh_text(
            rt,
            self.alloc,
            self.mesh,
            &leaves,
            &self.values.vertices,
            &self.values.elements,
        )
    }
}
