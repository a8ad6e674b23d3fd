//! Coarsened patches in a ledger: children give their indices back, and then the members take
//! others, level by level.
ghost use Rattle.std.specs.Prelude.{◌≡◌, ◌≢◌, ◌+◌, ◌<◌, ◌≤◌, false, true, [], All, AllPairs, OnOk, drop, length, map, take, vec_capacity};
ghost use Rattle.std.specs.FinMap.{contains_key};
ghost use Rattle.mesh_names.specs.Names.{depth};
ghost use Rattle.mesh_names.specs.Triangles.{size};
ghost use Rattle.compat_check.specs.Meshes.{shape_of};
ghost use Rattle.dof_transfer.specs.Held.{AreSized, IsSound, all_given_back, all_taken, given_back};
ghost use Rattle.dof_transfer.specs.Exchanges.{IsRun, all_coarsened, by_level, child, children, coarsened, sum_in, with_values};
ghost use Rattle.dof_transfer.specs.Ledgers.{HasRoom, KeepsReady, held_of};

use crate::ledger::Ledger;
use compat_check::mesh::MacroMesh;
use mesh_names::name::ElemName;
use std::alloc::AllocError;

// The end of the run of names of one level that begins at `at`.
fn run_end(mesh: &MacroMesh, names: &[ElemName], at: usize) -> usize
    requires within { at < length names.now }
    requires rooted { All (λ n. n.0 < size (shape_of mesh.now)) names.now }
    ensures { IsRun (shape_of mesh.now) names.now at result }
{
    let level = mesh.level(names[at]);
    let mut end = at + 1;
    while end < names.len() && mesh.level(names[end]) == level {
        end += 1;
    }
    end
}

impl Ledger {
    /// Makes room for the names.
    pub(crate) fn ready_all(&mut self, names: &[ElemName]) -> Result<(), AllocError>
        ensures held { held_of self.new ≡ held_of self.old }
        ensures admin { self.new.admin ≡ self.old.admin }
        ensures kept { KeepsReady self.old self.new }
        ensures room { OnOk result (All (HasRoom self.new) names.now) }
    {
        for name in names {
            self.ready(*name)?;
        }
        Ok(())
    }

    // The children of a name give theirs back; the sum of their values is told.
    fn give_back_below(&mut self, name: ElemName) -> i64
        requires deep { depth name < 24 }
        requires sound { IsSound (held_of self.old) }
        requires sized { AreSized (held_of self.old) }
        ensures sum { result ≡ sum_in (held_of self.old) name }
        ensures held { held_of self.new ≡ given_back (given_back (held_of self.old) (child false name)) (child true name) }
        ensures sound { IsSound (held_of self.new) }
        ensures kept { KeepsReady self.old self.new }
        ensures spare { self.old.admin.spare ≤ self.new.admin.spare }
    {
        let zero = self.give_back(name.child_at(false));
        let one = self.give_back(name.child_at(true));
        zero + one
    }

    // The children of the names give theirs back; the sums of their values are told.
    fn gather(&mut self, names: &[ElemName], sums: &mut Vec<i64>)
        requires deep { All (λ n. depth n < 24) names.now }
        requires apart { AllPairs (λ m n. m ≢ n) names.now }
        requires none { sums.old.items ≡ [] }
        requires capacity { length names.now ≤ vec_capacity sums.old }
        requires sound { IsSound (held_of self.old) }
        requires sized { AreSized (held_of self.old) }
        ensures held { held_of self.new ≡ all_given_back (held_of self.old) (children names.now) }
        ensures sums { sums.new.items ≡ map (sum_in (held_of self.old)) names.now }
        ensures sound { IsSound (held_of self.new) }
        ensures kept { KeepsReady self.old self.new }
        ensures spare { self.old.admin.spare ≤ self.new.admin.spare }
        ensures capacity { vec_capacity sums.new ≡ vec_capacity sums.old }
    {
        for name in names {
            let sum = self.give_back_below(*name);
            sums.push_reserved(sum);
        }
    }

    // The names take one each, with these values.
    fn settle(&mut self, names: &[ElemName], values: &[i64])
        requires each { length values.now ≡ length names.now }
        requires room { All (HasRoom self.old) names.now }
        requires spare { length names.now ≤ self.old.admin.spare }
        requires sound { IsSound (held_of self.old) }
        ensures held { held_of self.new ≡ all_taken (held_of self.old) (with_values names.now values.now) }
        ensures sound { IsSound (held_of self.new) }
        ensures kept { KeepsReady self.old self.new }
        ensures spare { self.old.admin.spare ≤ self.new.admin.spare + length names.now }
    {
        for (at, name) in names.iter().enumerate() {
            self.take(*name, values[at]);
        }
    }

    // The children of all names give theirs back, and then the names take one each.
    fn coarsen(&mut self, names: &[ElemName], sums: &mut Vec<i64>)
        requires deep { All (λ n. depth n < 24) names.now }
        requires apart { AllPairs (λ m n. m ≢ n) names.now }
        requires room { All (HasRoom self.old) names.now }
        requires capacity { length names.now ≤ vec_capacity sums.old }
        requires spare { length names.now ≤ self.old.admin.spare }
        requires sound { IsSound (held_of self.old) }
        requires sized { AreSized (held_of self.old) }
        ensures held { held_of self.new ≡ coarsened (held_of self.old) names.now }
        ensures sound { IsSound (held_of self.new) }
        ensures kept { KeepsReady self.old self.new }
        ensures spare { self.old.admin.spare ≤ self.new.admin.spare + length names.now }
        ensures capacity { vec_capacity sums.new ≡ vec_capacity sums.old }
    {
        sums.clear();
        self.gather(names, sums);
        self.settle(names, sums);
    }

    /// The members of died patches, level by level. Takes no memory.
    pub(crate) fn coarsen_all(&mut self, mesh: &MacroMesh, died: &[ElemName], sums: &mut Vec<i64>)
        requires rooted { All (λ n. n.0 < size (shape_of mesh.now)) died.now }
        requires deep { All (λ n. depth n < 24) died.now }
        requires apart { AllPairs (λ m n. m ≢ n) died.now }
        requires room { All (HasRoom self.old) died.now }
        requires capacity { length died.now ≤ vec_capacity sums.old }
        requires spare { length died.now ≤ self.old.admin.spare }
        requires sound { IsSound (held_of self.old) }
        requires sized { AreSized (held_of self.old) }
        ensures held { held_of self.new ≡ all_coarsened (held_of self.old) (by_level (shape_of mesh.now) died.now) }
        ensures sound { IsSound (held_of self.new) }
        ensures sized { AreSized (held_of self.new) }
    {
        let mut at = 0;
        while at < died.len() {
            let end = run_end(mesh, died, at);
            self.coarsen(&died[at..end], sums);
            at = end;
        }
    }
}
