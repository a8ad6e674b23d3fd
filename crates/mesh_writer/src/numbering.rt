//! Numbers for the vertices of a mesh.
ghost use Rattle.std.specs.Prelude.{◌≡◌, map, length, All, IfOk};
ghost use Rattle.mesh_names.specs.Patches.{vertex_of};
ghost use Rattle.mesh_names.specs.Forests.{IsInMesh};
ghost use Rattle.compat_check.specs.Meshes.{shape_of};
ghost use Rattle.mesh_writer.specs.Numbering.{vertices};
ghost use Rattle.mesh_writer.specs.Numbers.{AreNumbers, IsKeyOf, written_in};

use crate::order::{Order, keys_in, points_in};
use crate::refusal::WriterRefusal;
use crate::walk::visit;
use compat_check::mesh::MacroMesh;
use mesh_names::name::ElemName;
use mesh_names::patch::VertexKey;
use std::alloc::{AllocError, Global};

/// The written vertices, by their keys and where they lie, and the leaves, by the numbers of their
/// corners and the labels of their edges; and the keys by slot, with the slot of each number.
#[derive(Drop)]
pub struct Numbers {
    pub(crate) known: Vec<VertexKey>,
    pub(crate) slots: Vec<u32>,
    pub(crate) keys: Vec<VertexKey>,
    pub(crate) points: Vec<(i64, i64)>,
    pub(crate) triples: Vec<[u32; 3]>,
    pub(crate) labels: Vec<[i8; 3]>,
}

/// The vertices of the mesh over these leaves, in written order. Its only refusal is want of memory.
pub fn numbering(
    alloc: Global,
    mesh: &MacroMesh,
    leaves: &[ElemName],
) -> Result<Vec<VertexKey>, WriterRefusal>
    requires { All (IsInMesh (shape_of mesh.now)) leaves.now }
    ensures written { IfOk result (λ keys. map (vertex_of (shape_of mesh.now)) keys.items ≡ vertices (shape_of mesh.now) (length mesh.now.vertices) leaves.now) }
    ensures keys { IfOk result (λ keys. All (IsKeyOf mesh.now) keys.items) }
{
    let numbers = Numbers::of_leaves(alloc, mesh, leaves)?;
    Ok(numbers.keys)
}

impl Numbers {
    /// The vertices of the mesh over these leaves. Where the leaves come in order, each name above
    /// them is visited once.
    pub fn of_leaves(
        alloc: Global,
        mesh: &MacroMesh,
        leaves: &[ElemName],
    ) -> Result<Numbers, AllocError>
        requires { All (IsInMesh (shape_of mesh.now)) leaves.now }
        ensures numbers { IfOk result (AreNumbers mesh.now leaves.now) }
        ensures written { IfOk result (λ n. written_in (shape_of mesh.now) n ≡ vertices (shape_of mesh.now) (length mesh.now.vertices) leaves.now) }
    {
        let met = visit(alloc, mesh, leaves)?;
        let slots = met.slots;
        let order = Order::of_corners(alloc, mesh.vertex_count(), slots.count(), &met.corners)?;
        let keys = keys_in(alloc, &order.slots, &slots.keys)?;
        let points = points_in(alloc, &order.slots, &slots.points)?;
        let triples = order.triples(alloc, &met.corners)?;
        Ok(Numbers {
            known: slots.keys,
            slots: order.slots,
            keys,
            points,
            triples,
            labels: met.labels,
        })
    }

    /// How many vertices are written.
    pub fn count(&self) -> usize
        ensures { result ≡ length self.now.keys.items }
    {
        self.keys.len()
    }
}
