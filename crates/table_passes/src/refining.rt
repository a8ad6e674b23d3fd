//! A pass refines names of the round's target.
ghost use Rattle.std.specs.Prelude.{◌≡◌, ◌≤◌, false, vec_capacity};
ghost use Rattle.compat_check.specs.Meshes.{across_in, shape_of};
ghost use Rattle.mesh_table.specs.Sights.{setup_at};
ghost use Rattle.mesh_table.specs.Told.{IsOf, Stays, sight};
ghost use Rattle.table_passes.specs.Answers.{CanRefine, HasAnswered, IsAimed, is_full};
ghost use Rattle.table_passes.specs.Kept.{HasKept, failed_in};

use crate::lists::failed_in;
use crate::pass::Pass;
use mesh_io::Gate;
use mesh_names::name::ElemName;
use mesh_table::table::MeshTable;
use patch_claims::needs::ClaimRefusal;
use patch_claims::refine::{Done, refine_name};

impl Pass {
    /// Refines a name of the round's target. What it publishes comes to the pass's list, which has room for as many patches as the pool has. It never waits.
    pub fn refine<G: Gate>(
        &mut self,
        table: &MeshTable,
        name: ElemName,
        gate: &G,
    ) -> Result<Done, ClaimRefusal>
        requires fit { IsOf table.now.table.shared.table_id self.old.seat }
        requires can { CanRefine (setup_at table.now.site) (sight self.old.seat) }
        requires aimed { IsAimed (shape_of table.now.site.mesh.now) (sight self.old.seat).work.plan.target name }
        requires kept { HasKept table.now.site self.old }
        requires room { table.now.site.layout.pool ≤ vec_capacity self.old.lists.published }
        ensures stays { Stays self.old.seat self.new.seat }
        ensures round { self.new.round ≡ self.old.round }
        ensures number { self.new.number ≡ self.old.number }
        ensures plan { (sight self.new.seat).work.plan ≡ (sight self.old.seat).work.plan }
        ensures can { is_full result ≡ false → CanRefine (setup_at table.now.site) (sight self.new.seat) }
        ensures answered { HasAnswered (shape_of table.now.site.mesh.now) (across_in table.now.site.mesh.now) (sight self.old.seat) (sight self.new.seat) name result }
        ensures kept { HasKept table.now.site self.new }
        ensures failed { self.new.lists.failed ≡ failed_in result }
        ensures room { vec_capacity self.new.lists.published ≡ vec_capacity self.old.lists.published }
    {
        let answer = refine_name(
            table,
            &mut self.seat,
            &mut self.lists.published,
            name,
            self.round,
            gate,
            self.number,
        );
        self.lists.failed = failed_in(&answer);
        answer
    }
}

/// Whether there were no free blocks left.
pub fn is_full(answer: &Result<Done, ClaimRefusal>) -> bool
    ensures { result ≡ is_full answer.now }
{
    matches!(answer, Err(ClaimRefusal::Full { .. }))
}
