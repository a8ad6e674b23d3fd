//! What is held of vertices: the macro vertices in a list, and the midpoints by their patches'
//! owners.
ghost use Rattle.std.specs.Prelude.{◌≡◌, ◌+◌, ◌^◌, ◌<◌, ◌≤◌, ◌+ℤ◌, nat_abs, true, [], map, All, IfOk, IsSome, OnErr, OnOk, length, take};
ghost use Rattle.std.specs.FinMap.{contains_key};
ghost use Rattle.mesh_names.specs.Triangles.{level, size};
ghost use Rattle.mesh_names.specs.declared.patch.PatchName.{PatchName};
ghost use Rattle.macro_file.specs.declared.text.MacroVertex.{MacroVertex};
ghost use Rattle.compat_check.specs.Meshes.{shape_of};
ghost use Rattle.dof_transfer.specs.Exchanges.{floor_half};
ghost use Rattle.dof_transfer.specs.Held.{all_given_back};
ghost use Rattle.name_tree.specs.InOrder.{AreFirst};
ghost use Rattle.dof_transfer.specs.Ledgers.{HasRoom, KeepsReady};
ghost use Rattle.dof_transfer.specs.VertexLedgers.{vertices_of};
ghost use Rattle.dof_transfer.specs.VertexValues.{AreMacroVertices, AreMade, AreSmall, IsMade, IsVertexSound, IsVertexTidied, SetsVertex, index_at, owners, value_at, worth};

use crate::bisecting::floor_half;
use crate::ledger::Ledger;
use crate::refusal::TransferRefusal;
use compat_check::mesh::MacroMesh;
use mesh_names::patch::{PatchName, VertexKey};
use std::alloc::{AllocError, Global};

/// The values of the macro vertices, and a ledger of the midpoints by their patches' owners.
#[derive(Drop)]
pub(crate) struct VertexLedger {
    pub(crate) macros: Vec<i64>,
    pub(crate) ledger: Ledger,
}

impl VertexLedger {
    /// The macro vertices.
    pub(crate) fn new(alloc: Global, mesh: &MacroMesh) -> Result<VertexLedger, TransferRefusal>
        ensures macros { IfOk result (λ l. AreMacroVertices mesh.now (vertices_of l)) }
        ensures small { IfOk result (λ l. AreSmall (vertices_of l)) }
        ensures sound { IfOk result (λ l. IsVertexSound (vertices_of l)) }
    {
        let macros = macro_values(alloc, mesh)?;
        let mut ledger = Ledger::new(alloc);
        ledger.use_first(mesh.vertex_count())?;
        Ok(VertexLedger { macros, ledger })
    }

    /// Sets the value of a live vertex, and nothing else. Takes no memory.
    pub(crate) fn set(&mut self, key: VertexKey, value: i64)
        requires live { IsSome (value_at (vertices_of self.old) key) }
        requires within { nat_abs value ≤ 2 ^ 31 }
        requires sound { IsVertexSound (vertices_of self.old) }
        requires small { AreSmall (vertices_of self.old) }
        ensures set { SetsVertex (vertices_of self.old) (vertices_of self.new) key value }
        ensures sound { IsVertexSound (vertices_of self.new) }
        ensures small { AreSmall (vertices_of self.new) }
    {
        match key {
            VertexKey::Macro(vertex) => {
                if let Some(place) = self.macros.get_mut(vertex as usize) {
                    *place = value;
                }
            }
            VertexKey::Patch(owner) => self.ledger.set(owner, value),
        }
    }

    /// Renumbers the indices without holes, in their order, exactly where holes outnumber the used
    /// ones.
    pub(crate) fn tidy(&mut self) -> Result<(), TransferRefusal>
        requires sound { IsVertexSound (vertices_of self.old) }
        requires small { AreSmall (vertices_of self.old) }
        ensures ok { OnOk result (IsVertexTidied (vertices_of self.old) (vertices_of self.new)) }
        ensures err { OnErr result (vertices_of self.new ≡ vertices_of self.old) }
        ensures sound { IsVertexSound (vertices_of self.new) }
        ensures small { AreSmall (vertices_of self.new) }
    {
        self.ledger.tidy()
    }

    /// The value of a live vertex.
    pub(crate) fn value(&self, key: VertexKey) -> Option<i64>
        ensures { result ≡ value_at (vertices_of self.now) key }
    {
        match key {
            VertexKey::Macro(vertex) => self.macros.get(vertex as usize).copied(),
            VertexKey::Patch(owner) => match self.ledger.get(owner) {
                Some(entry) => Some(entry.value),
                None => None,
            },
        }
    }

    // Appends the values of the macro vertices that come first.
    fn append_macros(&self, keys: &[VertexKey], values: &mut Vec<i64>) -> Result<(), AllocError>
        requires small { AreSmall (vertices_of self.now) }
        requires none { values.old.items ≡ [] }
        ensures { OnOk result (AreFirst (worth (vertices_of self.now)) keys.now values.new.items) }
    {
        for key in keys {
            let VertexKey::Macro(_) = *key else {
                break;
            };
            values.push(self.worth(*key))?;
        }
        Ok(())
    }

    /// The values of vertices; one that is not live counts as 0. Macro vertices and then midpoints in
    /// the order of their patches' owners take one pass over the slots.
    pub(crate) fn values(&self, alloc: Global, keys: &[VertexKey]) -> Result<Vec<i64>, AllocError>
        requires { AreSmall (vertices_of self.now) }
        ensures { IfOk result (λ values. values.items ≡ map (worth (vertices_of self.now)) keys.now) }
    {
        let mut values = Vec::new(alloc);
        values.try_reserve(keys.len())?;
        self.append_macros(keys, &mut values)?;
        self.ledger.entries.append_in_order(keys, &mut values)?;
        for place in values.len()..keys.len() {
            values.push(self.worth(keys[place]))?;
        }
        Ok(values)
    }

    /// The index of a live vertex.
    pub(crate) fn index(&self, key: VertexKey) -> Option<u32>
        ensures { result ≡ index_at (vertices_of self.now) key }
    {
        match key {
            VertexKey::Macro(vertex) => {
                if (vertex as usize) < self.macros.len() {
                    Some(vertex)
                } else {
                    None
                }
            }
            VertexKey::Patch(owner) => match self.ledger.get(owner) {
                Some(entry) => Some(entry.index),
                None => None,
            },
        }
    }

    // The value of a live vertex, and 0 of any other.
    fn worth(&self, key: VertexKey) -> i64
        requires { AreSmall (vertices_of self.now) }
        ensures worth { result ≡ worth (vertices_of self.now) key }
        ensures small { nat_abs result ≤ 2 ^ 31 }
    {
        self.value(key).unwrap_or(0)
    }

    // The midpoint of a patch takes the least unused index.
    fn make(&mut self, mesh: &MacroMesh, patch: &PatchName)
        requires rooted { patch.now.first.0 < size (shape_of mesh.now) }
        requires low { level (shape_of mesh.now) patch.now.first ≤ 24 }
        requires room { HasRoom self.old.ledger patch.now.first }
        requires spare { 1 ≤ self.old.ledger.admin.spare }
        requires sound { IsVertexSound (vertices_of self.old) }
        requires small { AreSmall (vertices_of self.old) }
        ensures made { IsMade mesh.now (vertices_of self.old) patch.now (vertices_of self.new) }
        ensures sound { IsVertexSound (vertices_of self.new) }
        ensures small { AreSmall (vertices_of self.new) }
        ensures kept { KeepsReady self.old.ledger self.new.ledger }
        ensures spare { self.old.ledger.admin.spare ≤ self.new.ledger.admin.spare + 1 }
    {
        let [first, second, _] = mesh.corners(patch.first);
        let value = mean(self.worth(first), self.worth(second));
        self.ledger.take(patch.first, value);
    }

    /// The midpoints of born patches in order. Takes no memory.
    pub(crate) fn make_all(&mut self, mesh: &MacroMesh, born: &[PatchName])
        requires rooted { All (λ (p : PatchName). p.first.0 < size (shape_of mesh.now)) born.now }
        requires low { All (λ (p : PatchName). level (shape_of mesh.now) p.first ≤ 24) born.now }
        requires room { All (λ (p : PatchName). HasRoom self.old.ledger p.first) born.now }
        requires spare { length born.now ≤ self.old.ledger.admin.spare }
        requires sound { IsVertexSound (vertices_of self.old) }
        requires small { AreSmall (vertices_of self.old) }
        ensures made { AreMade mesh.now (vertices_of self.old) born.now (vertices_of self.new) }
        ensures sound { IsVertexSound (vertices_of self.new) }
        ensures small { AreSmall (vertices_of self.new) }
    {
        for patch in born {
            self.make(mesh, patch);
        }
    }

    /// The midpoints of died patches give their indices back in order. Takes no memory.
    pub(crate) fn remove_all(&mut self, died: &[PatchName])
        requires sound { IsVertexSound (vertices_of self.old) }
        requires small { AreSmall (vertices_of self.old) }
        ensures removed { vertices_of self.new ≡ record { macros = self.old.macros.items; patches = all_given_back (vertices_of self.old).patches (owners died.now) } }
        ensures sound { IsVertexSound (vertices_of self.new) }
        ensures small { AreSmall (vertices_of self.new) }
    {
        for patch in died {
            let _ = self.ledger.give_back(patch.first);
            self.ledger.forget(patch.first);
        }
    }

    /// Makes room for the midpoints of born patches.
    pub(crate) fn prepare(&mut self, born: &[PatchName]) -> Result<(), TransferRefusal>
        ensures same { vertices_of self.new ≡ vertices_of self.old }
        ensures room { OnOk result (All (λ (p : PatchName). HasRoom self.new.ledger p.first) born.now) }
        ensures spare { OnOk result (length born.now ≤ self.new.ledger.admin.spare) }
    {
        for patch in born {
            self.ledger.ready(patch.first)?;
        }
        self.ledger.reserve(born.len())?;
        Ok(())
    }
}

// The values of the macro vertices.
fn macro_values(alloc: Global, mesh: &MacroMesh) -> Result<Vec<i64>, AllocError>
    ensures all { IfOk result (λ v. v.items ≡ map (λ (x : MacroVertex). x.value) mesh.now.vertices) }
    ensures small { IfOk result (λ v. All (λ z. nat_abs z ≤ 2 ^ 31) v.items) }
{
    let count = mesh.vertex_count();
    let mut values = Vec::with_capacity(alloc, count as usize)?;
    for vertex in 0..count {
        values.push(mesh.vertex(vertex).value)?;
    }
    Ok(values)
}

// Half the sum of two values, rounded down.
fn mean(first: i64, second: i64) -> i64
    requires first { nat_abs first ≤ 2 ^ 31 }
    requires second { nat_abs second ≤ 2 ^ 31 }
    ensures { result ≡ floor_half (first +ℤ second) }
{
    floor_half(first + second)
}
