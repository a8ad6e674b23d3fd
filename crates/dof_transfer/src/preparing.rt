//! Room in a ledger for what a round's patches take, and its end.
ghost use Rattle.std.specs.Prelude.{◌≡◌, ◌+◌, ◌*◌, ◌^◌, ◌<◌, ◌≤◌, [], true, ◌++◌, All, IfOk, OnOk, length, replicate, take};
ghost use Rattle.std.specs.FinMap.{empty};
ghost use Rattle.mesh_names.specs.Names.{depth};
ghost use Rattle.dof_transfer.specs.Exchanges.{all_members, members_of};
ghost use Rattle.dof_transfer.specs.Ledgers.{HasRoom, HasRoomBelow, held_of};

use crate::ledger::Ledger;
use crate::refusal::TransferRefusal;
use mesh_names::name::ElemName;
use mesh_names::patch::PatchName;
use std::alloc::{AllocError, Global};

/// The members of the patches in order.
pub(crate) fn member_list(alloc: Global, patches: &[PatchName]) -> Result<Vec<ElemName>, AllocError>
    ensures { IfOk result (λ names. names.items ≡ all_members patches.now) }
{
    let mut names = Vec::new(alloc);
    for patch in patches {
        push_members(&mut names, patch)?;
    }
    Ok(names)
}

// Appends the members of a patch.
fn push_members(names: &mut Vec<ElemName>, patch: &PatchName) -> Result<(), AllocError>
    ensures { OnOk result (names.new.items ≡ names.old.items ++ members_of patch.now) }
{
    names.push(patch.first)?;
    if let Some(second) = patch.second {
        names.push(second)?;
    }
    Ok(())
}

impl Ledger {
    /// Takes the memory for `more` further indices, as far as they stay below 2^31.
    pub(crate) fn reserve(&mut self, more: usize) -> Result<(), TransferRefusal>
        ensures held { held_of self.new ≡ held_of self.old }
        ensures entries { self.new.entries ≡ self.old.entries }
        ensures spare { OnOk result (more ≤ self.new.admin.spare) }
        ensures small { OnOk result (more < 2 ^ 31) }
    {
        let end = 2_147_483_648;
        if more >= end || self.admin.size_used() as usize + more >= end {
            return Err(TransferRefusal::Memory);
        }
        self.admin.reserve(more as u32)?;
        Ok(())
    }

    /// Uses the first indices of an empty ledger.
    pub(crate) fn use_first(&mut self, count: u32) -> Result<(), TransferRefusal>
        requires { self.old ≡ record { entries = empty; admin = record { flags = []; spare = 0 } } }
        ensures { OnOk result (held_of self.new ≡ record { live = empty; flags = replicate count true }) }
    {
        self.reserve(count as usize)?;
        for index in 0..count {
            let got = self.admin.get();
            prove!(got == index);
        }
        Ok(())
    }

    /// Makes room for the children of all members of the born patches, whose number is told, and
    /// for the members of the died ones.
    pub(crate) fn prepare(
        &mut self,
        patches: usize,
        born: &[ElemName],
        died: &[ElemName],
    ) -> Result<(), TransferRefusal>
        requires { All (λ n. depth n < 24) born.now }
        ensures held { held_of self.new ≡ held_of self.old }
        ensures below { OnOk result (All (HasRoomBelow self.new) born.now) }
        ensures room { OnOk result (All (HasRoom self.new) died.now) }
        ensures spare { OnOk result (4 * patches + length died.now ≤ self.new.admin.spare) }
    {
        self.ready_below(born)?;
        self.ready_all(died)?;
        self.reserve(patches.saturating_mul(4).saturating_add(died.len()))?;
        Ok(())
    }

    /// Gives the places of the names' children back, where nothing stands in them. Takes no memory.
    pub(crate) fn forget_below(&mut self, names: &[ElemName])
        requires { All (λ n. depth n < 24) names.now }
        ensures held { held_of self.new ≡ held_of self.old }
        ensures admin { self.new.admin ≡ self.old.admin }
    {
        for name in names {
            self.forget(name.child_at(false));
            self.forget(name.child_at(true));
        }
    }
}
