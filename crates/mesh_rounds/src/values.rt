//! The values of a mesh's vertices and leaves.
ghost use Rattle.std.specs.Prelude.{◌≡◌, ◌<◌, ◌≤◌, All, IfOk, IsSome, OnErr, OnOk};
ghost use Rattle.mesh_names.specs.Forests.{IsInMesh, Names};
ghost use Rattle.mesh_names.specs.Marks.{IsWellFormed};
ghost use Rattle.mesh_names.specs.Names.{Name};
ghost use Rattle.mesh_names.specs.Triangles.{level, size};
ghost use Rattle.mesh_names.specs.declared.patch.PatchName.{PatchName};
ghost use Rattle.compat_check.specs.Meshes.{shape_of};
ghost use Rattle.dof_transfer.specs.Changes.{AreParents};
ghost use Rattle.dof_transfer.specs.Exchanges.{IsPair, all_members};
ghost use Rattle.dof_transfer.specs.Held.{value_of};
ghost use Rattle.dof_transfer.specs.Macros.{AreMacroElements};
ghost use Rattle.dof_transfer.specs.VertexValues.{AreMacroVertices};
ghost use Rattle.mesh_rounds.specs.State.{ElementsFollow, VerticesFollow};
ghost use Rattle.mesh_rounds.specs.Taking.{HasCorners, IsAmong, IsEvery, LeavesSet, NamesAmong, NamesCorners, NamesLive, VerticesSet};

use crate::rows::{set_leaf_values, set_vertex_values};
use compat_check::mesh::MacroMesh;
use dof_transfer::{ElementValues, TransferRefusal, VertexValues};
use mesh_names::name::ElemName;
use mesh_names::patch::RoundDelta;
use mesh_names::rows::{MarkRow, What};
use std::alloc::Global;

/// The values of a mesh's vertices and leaves, with their indices.
#[derive(Drop)]
pub struct Values {
    pub vertices: VertexValues,
    pub elements: ElementValues,
}

impl Values {
    /// The values of the macro mesh.
    pub fn new(alloc: Global, mesh: &MacroMesh) -> Result<Values, TransferRefusal>
        ensures vertices { IfOk result (λ v. AreMacroVertices mesh.now v.vertices) }
        ensures elements { IfOk result (λ v. AreMacroElements mesh.now v.elements) }
    {
        let vertices = VertexValues::new(alloc, mesh)?;
        let elements = ElementValues::new(alloc, mesh)?;
        Ok(Values { vertices, elements })
    }

    // The values after a round's rows. The leaves need be listed only where a row is for every leaf.
    pub(crate) fn set(&mut self, mesh: &MacroMesh, leaves: &[ElemName], rows: &[MarkRow])
        requires formed { All IsWellFormed rows.now }
        requires leaves { All (λ n. IsSome (value_of self.old.elements n)) leaves.now }
        requires live { All (NamesLive self.old.elements) rows.now }
        requires every { All (λ row. IsEvery What.Elem row → (n : Name) → IsSome (value_of self.old.elements n) → IsAmong n leaves.now) rows.now }
        requires mesh { All (IsInMesh (shape_of mesh.now)) leaves.now }
        requires corners { All (HasCorners mesh.now self.old.vertices) leaves.now }
        requires live_corners { All (NamesCorners mesh.now self.old.vertices) rows.now }
        requires every_corner { All (λ row. IsEvery What.Vert row → All (NamesAmong leaves.now) rows.now) rows.now }
        ensures elements { LeavesSet leaves.now rows.now self.old.elements self.new.elements }
        ensures vertices { VerticesSet mesh.now leaves.now rows.now self.old.vertices self.new.vertices }
    {
        set_leaf_values(&mut self.elements, leaves, rows);
        set_vertex_values(mesh, &mut self.vertices, leaves, rows);
    }

    // The values after a round's patches.
    pub(crate) fn follow(
        &mut self,
        mesh: &MacroMesh,
        delta: &RoundDelta,
    ) -> Result<(), TransferRefusal>
        requires pairs { All IsPair delta.now.born.items }
        requires rooted { All (λ (p : PatchName). p.first.0 < size (shape_of mesh.now)) delta.now.born.items }
        requires low { All (λ (p : PatchName). level (shape_of mesh.now) p.first ≤ 24) delta.now.born.items }
        requires parents { AreParents (shape_of mesh.now) (all_members delta.now.died.items) }
        ensures vertices { OnOk result ((before after : Names) → VerticesFollow mesh.now before delta.now after self.old.vertices self.new.vertices) }
        ensures elements { OnOk result ((before after : Names) → ElementsFollow mesh.now before delta.now after self.old.elements self.new.elements) }
    {
        self.vertices.apply(mesh, delta)?;
        self.vertices.tidy()?;
        self.elements.apply(mesh, delta)?;
        self.elements.tidy()?;
        Ok(())
    }
}
