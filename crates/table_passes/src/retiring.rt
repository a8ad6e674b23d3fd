//! A pass retires patches of the retire list.
ghost use Rattle.std.specs.Prelude.{◌≡◌, ◌+◌, ◌<◌, ◌≤◌, IfErr, IfOk, length, vec_capacity};
ghost use Rattle.compat_check.specs.Meshes.{across_in, shape_of};
ghost use Rattle.table_words.specs.NameWords.{name_code};
ghost use Rattle.mesh_table.specs.Sights.{setup_at};
ghost use Rattle.mesh_table.specs.Told.{IsOf, Stays, sight};
ghost use Rattle.patch_walk.specs.Finished.{NothingRetired, StillKnows};
ghost use Rattle.patch_claims.specs.Retired.{AreRetired, IsDeeper, IsRetired};
ghost use Rattle.table_passes.specs.Late.{CanRetire, IsRetirable};

use crate::pass::Pass;
use mesh_io::Gate;
use mesh_names::patch::PatchName;
use mesh_table::table::MeshTable;
use patch_claims::retire::{RetireRefusal, retire};

impl Pass {
    /// Retires a patch of the retire list: true where this call did it. Where a child of a member is still bisected, it retires nothing and names the child's block. A block that it retires comes to the end of the list, which has room for it. It never waits.
    pub fn retire<G: Gate>(
        &mut self,
        table: &MeshTable,
        retired: &mut Vec<u32>,
        patch: PatchName,
        gate: &G,
    ) -> Result<bool, RetireRefusal>
        requires fit { IsOf table.now.table.shared.table_id self.old.seat }
        requires can { CanRetire (setup_at table.now.site) (sight self.old.seat) }
        requires aimed { IsRetirable (shape_of table.now.site.mesh.now) (across_in table.now.site.mesh.now) (sight self.old.seat).work.plan.retire patch }
        requires room { length retired.old.items < vec_capacity retired.old }
        requires listed { AreRetired (sight self.old.seat) retired.old.items }
        ensures stays { Stays self.old.seat self.new.seat }
        ensures round { self.new.round ≡ self.old.round }
        ensures number { self.new.number ≡ self.old.number }
        ensures lists { self.new.lists ≡ self.old.lists }
        ensures keeps { StillKnows (sight self.old.seat) (sight self.new.seat) }
        ensures retired { IfOk result (IsRetired (setup_at table.now.site) (sight self.old.seat) (sight self.new.seat) (name_code patch.first)) }
        ensures deeper { IfErr result (λ e. IsDeeper (setup_at table.now.site) (sight self.old.seat) (sight self.new.seat) (name_code patch.first) e × NothingRetired (sight self.old.seat) (sight self.new.seat)) }
        ensures listed { AreRetired (sight self.new.seat) retired.new.items }
        ensures count { length retired.new.items ≤ length retired.old.items + 1 }
        ensures capacity { vec_capacity retired.new ≡ vec_capacity retired.old }
    {
        retire(
            table,
            &mut self.seat,
            retired,
            patch,
            self.round,
            gate,
            self.number,
        )
    }
}
