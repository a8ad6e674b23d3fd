//! Values of elements.
ghost use Rattle.std.specs.Prelude.{◌≡◌, ◌+◌, ◌^◌, ◌≤◌, nat_abs, All, Some, IfOk, IfSome, IsSome, OnErr, OnOk, length, map};
ghost use Rattle.dof_admin.specs.Administration.{used_count};
ghost use Rattle.mesh_names.specs.Triangles.{size};
ghost use Rattle.compat_check.specs.Meshes.{shape_of};
ghost use Rattle.mesh_names.specs.Forests.{Names};
ghost use Rattle.mesh_names.specs.Names.{Name, depth};
ghost use Rattle.dof_transfer.specs.ByName.{AreElementValues};
ghost use Rattle.dof_transfer.specs.Changes.{AreOfForest, AreParents, IsChange};
ghost use Rattle.dof_transfer.specs.Exchanges.{IsPair, all_members, element_change};
ghost use Rattle.dof_transfer.specs.Held.{IsSized, IsTidied, SetsValue, index_of, value_of, worth_of};
ghost use Rattle.dof_transfer.specs.Ledgers.{held_of};
ghost use Rattle.dof_transfer.specs.Macros.{AreMacroElements, HoldsFirst};

use crate::ledger::Ledger;
use crate::preparing::member_list;
use crate::refusal::TransferRefusal;
use compat_check::mesh::MacroMesh;
use mesh_names::name::ElemName;
use mesh_names::patch::RoundDelta;
use std::alloc::Global;
use std::marker::Model;

/// The index and the value of each leaf, by name.
#[derive(Drop)]
pub struct ElementValues {
    alloc: Global,
    ledger: Ledger,
}

impl Model for ElementValues {
    ghost use Rattle.dof_transfer.specs.Held.{AreSized, Held, IsSound, held_code};

    ghost Value = { Held };

    ghost coded = { held_code };

    ghost use Rattle.dof_transfer.specs.Ledgers.{held_of};

    ghost view = { λ a. held_of a.ledger };

    ghost invariant = { λ a. IsSound (held_of a.ledger) × AreSized (held_of a.ledger) };
}

impl ElementValues {
    /// The values of the macro elements; each takes its own number as its index.
    pub fn new(alloc: Global, mesh: &MacroMesh) -> Result<ElementValues, TransferRefusal>
        ensures { IfOk result (AreMacroElements mesh.now) }
    {
        let ledger = macro_ledger(alloc, mesh)?;
        Ok(ElementValues { alloc, ledger })
    }

    /// The value of a leaf; `None` exactly where the name is no leaf. Of a name with w letters it is at
    /// most 2^31 · 2^(24-w) in size. Takes no memory.
    pub fn value(&self, name: ElemName) -> Option<i64>
        ensures value { result ≡ value_of self.now name }
        ensures small { IfSome result (IsSized (depth name)) }
    {
        match self.ledger.get(name) {
            Some(entry) => Some(entry.value),
            None => None,
        }
    }

    /// The values of elements; one that is no leaf counts as 0. Leaves in order, as those of a mesh are,
    /// take one pass over what is held in place of a look-up each.
    pub fn values(&self, alloc: Global, names: &[ElemName]) -> Result<Vec<i64>, TransferRefusal>
        ensures { IfOk result (λ values. values.items ≡ map (worth_of self.now) names.now) }
    {
        let values = self.ledger.values(alloc, names)?;
        Ok(values)
    }

    /// The index of a leaf; `None` exactly where the name is no leaf. Indices of two leaves differ.
    /// Takes no memory.
    pub fn index(&self, name: ElemName) -> Option<u32>
        ensures index { result ≡ index_of self.now name }
        ensures apart { IfSome result (λ i. (m : Name) → index_of self.now m ≡ Some i → m ≡ name) }
    {
        match self.ledger.get(name) {
            Some(entry) => Some(entry.index),
            None => None,
        }
    }

    /// How many indices below the greatest are not used. Takes no memory.
    pub fn holes(&self) -> u32
        ensures { result + used_count self.now.flags ≡ length self.now.flags }
    {
        self.ledger.admin.holes()
    }

    /// The values after a round (Mitchell's bisection). The children of a bisected element take the
    /// parts of its value: child 0 half of it, rounded down, and child 1 the rest. A coarsened element
    /// takes the sum of its children's values. After a refusal nothing has changed.
    ///
    /// Born patches are taken in order: the members of each give their indices back, and then their
    /// children take others. Died patches are taken level by level: the children of all members of a
    /// level give theirs back, and then the members take others. Each takes the least unused index.
    pub fn apply(&mut self, mesh: &MacroMesh, delta: &RoundDelta) -> Result<(), TransferRefusal>
        requires born { All IsPair delta.now.born.items }
        requires died { AreParents (shape_of mesh.now) (all_members delta.now.died.items) }
        ensures ok { OnOk result (self.new ≡ element_change (shape_of mesh.now) self.old delta.now.born.items delta.now.died.items) }
        ensures values { OnOk result ((before after : Names) → AreOfForest (shape_of mesh.now) before self.old → IsChange (shape_of mesh.now) before delta.now.born.items delta.now.died.items after → AreElementValues (shape_of mesh.now) after self.old self.new) }
        ensures err { OnErr result (self.new ≡ self.old) }
    {
        let born = member_list(self.alloc, &delta.born)?;
        let died = member_list(self.alloc, &delta.died)?;
        let mut sums = Vec::with_capacity(self.alloc, died.len())?;
        self.ledger.prepare(delta.born.len(), &born, &died)?;
        self.ledger.bisect_all(&delta.born);
        self.ledger.coarsen_all(mesh, &died, &mut sums);
        self.ledger.forget_below(&died);
        Ok(())
    }

    /// Renumbers the indices without holes, in their order, exactly where holes outnumber the used
    /// ones. All values stay. After a refusal nothing has changed.
    pub fn tidy(&mut self) -> Result<(), TransferRefusal>
        ensures ok { OnOk result (IsTidied self.old self.new) }
        ensures err { OnErr result (self.new ≡ self.old) }
    {
        self.ledger.tidy()
    }

    /// Sets the value of a leaf, and nothing else. Takes no memory.
    pub fn set_element(&mut self, name: ElemName, value: i64)
        requires leaf { IsSome (value_of self.old name) }
        requires small { nat_abs value ≤ 2 ^ 31 }
        ensures { SetsValue self.old self.new name value }
    {
        self.ledger.set(name, value);
    }
}

// The ledger of the macro elements.
fn macro_ledger(alloc: Global, mesh: &MacroMesh) -> Result<Ledger, TransferRefusal>
    ensures { IfOk result (λ ledger. HoldsFirst mesh.now (size (shape_of mesh.now)) (held_of ledger)) }
{
    let mut ledger = Ledger::new(alloc);
    let count = mesh.element_count();
    ledger.admin.reserve(count)?;
    for element in 0..count {
        let name = ElemName::top(element);
        ledger.ready(name)?;
        ledger.take(name, mesh.element_value(element));
    }
    Ok(ledger)
}
