//! Values of vertices.
ghost use Rattle.std.specs.Prelude.{◌≡◌, ◌+◌, ◌^◌, ◌<◌, ◌≤◌, nat_abs, All, Some, IfOk, IfSome, IsSome, OnErr, OnOk, length, map};
ghost use Rattle.dof_admin.specs.Administration.{used_count};
ghost use Rattle.mesh_names.specs.Forests.{IsForest, Names};
ghost use Rattle.dof_transfer.specs.VertexNames.{AreOfVertices, AreVertexValues, IsTransition};
ghost use Rattle.mesh_names.specs.Triangles.{level, size};
ghost use Rattle.mesh_names.specs.declared.patch.PatchName.{PatchName};
ghost use Rattle.mesh_names.specs.declared.patch.VertexKey.{VertexKey};
ghost use Rattle.compat_check.specs.Meshes.{shape_of};
ghost use Rattle.dof_transfer.specs.VertexLedgers.{vertices_of};
ghost use Rattle.dof_transfer.specs.VertexValues.{AreMacroVertices, IsVertexChange, IsVertexTidied, SetsVertex, index_at, value_at, worth};

use crate::refusal::TransferRefusal;
use crate::vertex_ledger::VertexLedger;
use compat_check::mesh::MacroMesh;
use mesh_names::laws;
use mesh_names::patch::{RoundDelta, VertexKey};
use std::alloc::Global;
use std::marker::Model;

/// The index and the value of each vertex of a mesh, by its key.
#[derive(Drop)]
pub struct VertexValues {
    alloc: Global,
    inside: VertexLedger,
}

impl Model for VertexValues {
    ghost use Rattle.dof_transfer.specs.VertexValues.{AreSmall, IsVertexSound, VertexHeld, vertex_held_code};

    ghost Value = { VertexHeld };

    ghost coded = { vertex_held_code };

    ghost use Rattle.dof_transfer.specs.VertexLedgers.{vertices_of};

    ghost view = { λ a. vertices_of a.inside };

    ghost invariant = { λ a. IsVertexSound (vertices_of a.inside) × AreSmall (vertices_of a.inside) };
}

impl VertexValues {
    /// The values of the macro vertices; each takes its own number as its index.
    pub fn new(alloc: Global, mesh: &MacroMesh) -> Result<VertexValues, TransferRefusal>
        ensures { IfOk result (AreMacroVertices mesh.now) }
    {
        let inside = VertexLedger::new(alloc, mesh)?;
        Ok(VertexValues { alloc, inside })
    }

    /// The value of a vertex; `None` exactly where the mesh has no such vertex. It is at most
    /// 2^31 in size. Takes no memory.
    pub fn value(&self, key: VertexKey) -> Option<i64>
        ensures value { result ≡ value_at self.now key }
        ensures small { IfSome result (λ v. nat_abs v ≤ 2 ^ 31) }
    {
        self.inside.value(key)
    }

    /// The values of vertices; one that the mesh has not counts as 0. Macro vertices and then midpoints
    /// in the order of their patches' owners take one pass over what is held in place of a look-up each.
    pub fn values(&self, alloc: Global, keys: &[VertexKey]) -> Result<Vec<i64>, TransferRefusal>
        ensures { IfOk result (λ values. values.items ≡ map (worth self.now) keys.now) }
    {
        let values = self.inside.values(alloc, keys)?;
        Ok(values)
    }

    /// The index of a vertex; `None` exactly where the mesh has no such vertex. Indices of two
    /// vertices differ. Takes no memory.
    pub fn index(&self, key: VertexKey) -> Option<u32>
        ensures index { result ≡ index_at self.now key }
        ensures apart { IfSome result (λ i. (k : VertexKey) → index_at self.now k ≡ Some i → k ≡ key) }
    {
        self.inside.index(key)
    }

    /// Sets the value of a vertex, and nothing else. Takes no memory.
    pub fn set_vertex(&mut self, key: VertexKey, value: i64)
        requires live { IsSome (value_at self.old key) }
        requires small { nat_abs value ≤ 2 ^ 31 }
        ensures { SetsVertex self.old self.new key value }
    {
        self.inside.set(key, value);
    }

    /// The values after a round (Mitchell's bisection). The midpoint of each born patch takes half
    /// the sum of the values at the ends of its refinement edge, rounded down, also where it was a
    /// vertex before and died since. After a refusal nothing has changed.
    ///
    /// The midpoints of born patches take an index each in order, and then those of died patches
    /// give theirs back. Each takes the least unused index.
    pub fn apply(&mut self, mesh: &MacroMesh, delta: &RoundDelta) -> Result<(), TransferRefusal>
        requires rooted { All (λ (p : PatchName). p.first.0 < size (shape_of mesh.now)) delta.now.born.items }
        requires low { All (λ (p : PatchName). level (shape_of mesh.now) p.first ≤ 24) delta.now.born.items }
        ensures ok { OnOk result (IsVertexChange mesh.now self.old delta.now.born.items delta.now.died.items self.new) }
        ensures values { OnOk result ((before after : Names) → IsForest (shape_of mesh.now) before → AreOfVertices mesh.now before self.old → IsTransition mesh.now before delta.now.born.items delta.now.died.items after → AreVertexValues mesh.now after self.old self.new) }
        ensures err { OnErr result (self.new ≡ self.old) }
    {
        laws::partner_is_only();
        laws::partners_pair();
        let _checked = mesh.element_count();
        self.inside.prepare(&delta.born)?;
        self.inside.make_all(mesh, &delta.born);
        self.inside.remove_all(&delta.died);
        Ok(())
    }

    /// Renumbers the indices without holes, in their order, exactly where holes outnumber the used
    /// ones. All values stay, and so do the indices of macro vertices. After a refusal nothing has
    /// changed.
    pub fn tidy(&mut self) -> Result<(), TransferRefusal>
        ensures ok { OnOk result (IsVertexTidied self.old self.new) }
        ensures err { OnErr result (self.new ≡ self.old) }
    {
        self.inside.tidy()
    }

    /// How many indices below the greatest are not used. Takes no memory.
    pub fn holes(&self) -> u32
        ensures { result + used_count self.now.patches.flags ≡ length self.now.patches.flags }
    {
        self.inside.ledger.admin.holes()
    }
}
