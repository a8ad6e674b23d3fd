//! Slots: the vertices that a walk has met, in the order in which it met them.
//!
//! The macro vertices come first, so that their slots are their numbers.
ghost use Rattle.std.specs.Prelude.{◌≡◌, IfOk, length, map};
ghost use Rattle.mesh_writer.specs.Numbers.{macro_keys};
ghost use Rattle.mesh_writer.specs.Owners.{AreRising};
ghost use Rattle.mesh_writer.specs.Slots.{AddsSlot, AreSlots, point_of_key};

use crate::owners::Owners;
use compat_check::mesh::MacroMesh;
use mesh_names::patch::VertexKey;
use std::alloc::{AllocError, Global};

/// The vertices that were met: their keys and where they lie, by slot.
#[derive(Drop)]
pub(crate) struct Slots {
    pub(crate) keys: Vec<VertexKey>,
    pub(crate) points: Vec<(i64, i64)>,
    owners: Owners,
}

/// A number of 32 bits; where there are more vertices, memory would not hold the text.
pub(crate) fn narrow(number: usize) -> Result<u32, AllocError>
    ensures { IfOk result (λ n. n ≡ number) }
{
    match u32::try_from(number) {
        Ok(number) => Ok(number),
        Err(_) => Err(AllocError),
    }
}

// The keys of the macro vertices.
fn macro_keys(alloc: Global, count: u32) -> Result<Vec<VertexKey>, AllocError>
    ensures { IfOk result (λ keys. keys.items ≡ macro_keys count) }
{
    let mut keys = Vec::new(alloc);
    for number in 0..count {
        keys.push(VertexKey::Macro(number))?;
    }
    Ok(keys)
}

// Where the macro vertices lie.
fn macro_points(alloc: Global, mesh: &MacroMesh) -> Result<Vec<(i64, i64)>, AllocError>
    ensures { IfOk result (λ points. points.items ≡ map (point_of_key mesh.now) (macro_keys (length mesh.now.vertices))) }
{
    let mut points = Vec::new(alloc);
    for number in 0..mesh.vertex_count() {
        points.push(mesh.point(VertexKey::Macro(number)))?;
    }
    Ok(points)
}

impl Slots {
    /// The macro vertices alone.
    pub(crate) fn of_macro(alloc: Global, mesh: &MacroMesh) -> Result<Slots, AllocError>
        ensures { IfOk result (AreSlots mesh.now) }
    {
        let keys = macro_keys(alloc, mesh.vertex_count())?;
        let points = macro_points(alloc, mesh)?;
        Ok(Slots {
            keys,
            points,
            owners: Owners::new(alloc),
        })
    }

    /// How many vertices were met.
    pub(crate) fn count(&self) -> usize
        ensures { result ≡ length self.now.keys.items }
    {
        self.keys.len()
    }

    /// The slot of a vertex with this key, which lies at this point: a new one, where it had none.
    pub(crate) fn slot(&mut self, key: VertexKey, point: (i64, i64)) -> Result<u32, AllocError>
        requires { AreRising self.old.owners }
        ensures { IfOk result (AddsSlot key point self.old self.new) }
    {
        let owner = match key {
            VertexKey::Macro(number) => return Ok(number),
            VertexKey::Patch(owner) => owner,
        };
        if let Some(slot) = self.owners.get(owner) {
            return Ok(slot);
        }
        let slot = narrow(self.keys.len())?;
        self.owners.put(owner, slot)?;
        self.keys.push(key)?;
        self.points.push(point)?;
        Ok(slot)
    }
}
