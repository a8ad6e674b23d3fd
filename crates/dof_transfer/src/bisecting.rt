//! Bisected patches in a ledger: members give their indices back, and their children take others.
ghost use Rattle.std.specs.Prelude.{◌≡◌, ◌+◌, ◌*◌, ◌<◌, ◌≤◌, false, true, [], ◌∷◌, All, OnOk, length};
ghost use Rattle.mesh_names.specs.Names.{depth};
ghost use Rattle.dof_transfer.specs.Held.{IsSound, all_taken};
ghost use Rattle.dof_transfer.specs.Exchanges.{IsPair, all_bisected, all_members, bisected, child, floor_half, halves, members_of, part};
ghost use Rattle.dof_transfer.specs.Ledgers.{HasRoomBelow, KeepsReady, held_of};

use crate::ledger::Ledger;
use mesh_names::name::ElemName;
use mesh_names::patch::PatchName;
use std::alloc::AllocError;

// Half, rounded down.
pub(crate) fn floor_half(value: i64) -> i64
    ensures { result ≡ floor_half value }
{
    value.div_euclid(2)
}

impl Ledger {
    /// Makes room for the children of the names.
    pub(crate) fn ready_below(&mut self, names: &[ElemName]) -> Result<(), AllocError>
        requires { All (λ n. depth n < 24) names.now }
        ensures held { held_of self.new ≡ held_of self.old }
        ensures admin { self.new.admin ≡ self.old.admin }
        ensures kept { KeepsReady self.old self.new }
        ensures room { OnOk result (All (HasRoomBelow self.new) names.now) }
    {
        for name in names {
            self.ready(name.child_at(false))?;
            self.ready(name.child_at(true))?;
        }
        Ok(())
    }

    // The children of a name take an index each, and its value's parts.
    fn take_halves(&mut self, name: ElemName, value: i64)
        requires deep { depth name < 24 }
        requires room { HasRoomBelow self.old name }
        requires spare { 2 ≤ self.old.admin.spare }
        requires sound { IsSound (held_of self.old) }
        ensures held { held_of self.new ≡ all_taken (held_of self.old) ((child false name, part false value) ∷ (child true name, part true value) ∷ []) }
        ensures sound { IsSound (held_of self.new) }
        ensures kept { KeepsReady self.old self.new }
        ensures spare { self.old.admin.spare ≤ self.new.admin.spare + 2 }
    {
        let half = floor_half(value);
        self.take(name.child_at(false), half);
        self.take(name.child_at(true), value - half);
    }

    // The members give theirs back, and then their children take one each.
    fn bisect(&mut self, patch: &PatchName)
        requires pair { IsPair patch.now }
        requires room { All (HasRoomBelow self.old) (members_of patch.now) }
        requires spare { 4 ≤ self.old.admin.spare }
        requires sound { IsSound (held_of self.old) }
        ensures held { held_of self.new ≡ bisected (held_of self.old) patch.now }
        ensures sound { IsSound (held_of self.new) }
        ensures kept { KeepsReady self.old self.new }
        ensures spare { self.old.admin.spare ≤ self.new.admin.spare + 4 }
    {
        let value = self.give_back(patch.first);
        match patch.second {
            None => self.take_halves(patch.first, value),
            Some(second) => {
                let other = self.give_back(second);
                self.take_halves(patch.first, value);
                self.take_halves(second, other);
            }
        }
    }

    /// Born patches in order. Takes no memory.
    pub(crate) fn bisect_all(&mut self, born: &[PatchName])
        requires pairs { All IsPair born.now }
        requires room { All (λ p. All (HasRoomBelow self.old) (members_of p)) born.now }
        requires spare { 4 * length born.now ≤ self.old.admin.spare }
        requires sound { IsSound (held_of self.old) }
        ensures held { held_of self.new ≡ all_bisected (held_of self.old) born.now }
        ensures sound { IsSound (held_of self.new) }
        ensures kept { KeepsReady self.old self.new }
        ensures spare { self.old.admin.spare ≤ self.new.admin.spare + 4 * length born.now }
    {
        for patch in born {
            self.bisect(patch);
        }
    }
}
