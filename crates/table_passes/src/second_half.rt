//! The second half of a round: it is planned, and its passes are made and joined.
ghost use Rattle.std.specs.Prelude.{◌≡◌, ◌≤◌, ◌++◌, [], All, length, map, reverse, vec_capacity};
ghost use Rattle.compat_check.specs.Meshes.{across_in, shape_of};
ghost use Rattle.table_words.specs.NameWords.{name_code};
ghost use Rattle.mesh_table.specs.Crews.{left_lone};
ghost use Rattle.mesh_table.specs.Passes.{made_worker};
ghost use Rattle.mesh_table.specs.Rounds.{MayPlan, planned};
ghost use Rattle.mesh_table.specs.Sights.{setup_at};
ghost use Rattle.mesh_table.specs.Told.{IsOf, Stays, sight};
ghost use Rattle.table_passes.specs.Crew.{joined_all};
ghost use Rattle.table_passes.specs.Kept.{AreEmpty, HasKept};
ghost use Rattle.table_passes.specs.Late.{AreGoneBut, AreJoined, CanRetire, CanSplitLate, IsLateWorker, IsPlanOld, IsPlanWhole, IsRetirable, all_retired};
ghost use Rattle.table_passes.specs.Joining.{HasTaken};

use crate::late::retire_patches;
use crate::late_work::{LateJoined, LateTask};
use crate::lists::Lists;
use crate::owner::OwnerSeat;
use crate::pass::Pass;
use mesh_io::Gate;
use mesh_names::name::ElemName;
use mesh_names::patch::PatchName;
use mesh_table::table::MeshTable;

impl OwnerSeat {
    /// The second half is planned, with the first members of the patches that are to be retired: each patch is of the last finished forest, and with it are those of its members' children that are of the target. No worker's pass is out, and the first half has refined all names that the round needs.
    pub fn plan(&mut self, table: &MeshTable, retire: &[ElemName])
        requires fit { IsOf table.now.table.shared.table_id self.old.seat }
        requires may { MayPlan (sight self.old.seat) }
        requires old { IsPlanOld (setup_at table.now.site) (sight self.old.seat) (map name_code retire.now) }
        requires whole { IsPlanWhole (setup_at table.now.site) (sight self.old.seat).ruling.plan.target (map name_code retire.now) }
        ensures stays { Stays self.old.seat self.new.seat }
        ensures planned { sight self.new.seat ≡ planned (sight self.old.seat) (map name_code retire.now) }
        ensures can { CanSplitLate (setup_at table.now.site) (sight self.new.seat) }
    {
        table.plan(&mut self.seat, retire);
    }

    /// A worker's pass of the second half.
    pub fn split_late(&mut self, table: &MeshTable, number: u32, lists: Lists) -> Pass
        requires fit { IsOf table.now.table.shared.table_id self.old.seat }
        requires can { CanSplitLate (setup_at table.now.site) (sight self.old.seat) }
        requires empty { AreEmpty lists }
        ensures stays { Stays self.old.seat self.new.seat }
        ensures left { sight self.new.seat ≡ left_lone (sight self.old.seat) (sight self.old.seat).ruling.lone }
        ensures pass { IsOf table.now.table.shared.table_id result.seat }
        ensures made { sight result.seat ≡ made_worker (sight self.old.seat) number }
        ensures number { result.number ≡ number }
        ensures can { CanRetire (setup_at table.now.site) (sight result.seat) }
        ensures still { CanSplitLate (setup_at table.now.site) (sight self.new.seat) }
        ensures kept { HasKept table.now.site result }
        ensures lists { result.lists ≡ lists }
    {
        Pass {
            seat: table.split_late(&mut self.seat, number),
            round: self.finished + 1,
            number,
            lists,
        }
    }

    /// Worker 0 retires the patches that are left, in their order, while no other worker's pass is out: those of greater level should come before others. No clause says that none is left then.
    pub fn finish_late<G: Gate>(
        &mut self,
        table: &MeshTable,
        patches: &[PatchName],
        retired: &mut Vec<u32>,
        left: &mut Vec<PatchName>,
        lists: Lists,
        gate: &G,
    )
        requires fit { IsOf table.now.table.shared.table_id self.old.seat }
        requires can { CanSplitLate (setup_at table.now.site) (sight self.old.seat) }
        requires patches { All (IsRetirable (shape_of table.now.site.mesh.now) (across_in table.now.site.mesh.now) (sight self.old.seat).ruling.plan.retire) patches.now }
        requires empty { (retired.old.items ≡ []) × (left.old.items ≡ []) }
        requires room { (length patches.now ≤ vec_capacity retired.old) × (length patches.now ≤ vec_capacity left.old) }
        requires blank { AreEmpty lists }
        ensures stays { Stays self.old.seat self.new.seat }
        ensures still { CanSplitLate (setup_at table.now.site) (sight self.new.seat) }
        ensures gone { AreGoneBut (setup_at table.now.site) (sight self.new.seat) patches.now left.new.items }
        ensures few { length retired.new.items ≤ length patches.now }
        ensures taken { HasTaken (sight self.old.seat) (sight self.new.seat) retired.new.items }
        ensures left { All (IsRetirable (shape_of table.now.site.mesh.now) (across_in table.now.site.mesh.now) (sight self.old.seat).ruling.plan.retire) left.new.items }
    {
        let mut pass = self.split_late(table, 0, lists);
        retire_patches(table, &mut pass, patches, retired, left, gate);
        self.join(table, pass);
    }

    /// The owner takes over what passes of the second half did and learned, the last first, and in this order come what they did. For that there is room.
    pub fn join_late(
        &mut self,
        table: &MeshTable,
        tasks: Vec<LateTask>,
        room: Vec<LateJoined>,
    ) -> Vec<LateJoined>
        requires fit { IsOf table.now.table.shared.table_id self.old.seat }
        requires can { CanSplitLate (setup_at table.now.site) (sight self.old.seat) }
        requires passes { All (IsLateWorker table.now.table.shared.table_id table.now.site) tasks.items }
        requires room { (room.items ≡ []) × (length tasks.items ≤ vec_capacity room) }
        ensures stays { Stays self.old.seat self.new.seat }
        ensures still { CanSplitLate (setup_at table.now.site) (sight self.new.seat) }
        ensures joined { sight self.new.seat ≡ joined_all (sight self.old.seat) (map (λ t. sight t.pass.seat) tasks.items) }
        ensures claims { (sight self.new.seat).claims ≡ (sight self.old.seat).claims }
        ensures blocks { (sight self.new.seat).work.retired ≡ (sight self.old.seat).work.retired ++ all_retired (map (λ d. d.retired.items) result.items) }
        ensures gone { All (AreJoined (setup_at table.now.site) (sight self.new.seat)) result.items }
        ensures patches { map (λ d. d.patches.items) result.items ≡ reverse (map (λ t. t.patches.items) tasks.items) }
        ensures retired { map (λ d. d.retired.items) result.items ≡ reverse (map (λ t. t.retired.items) tasks.items) }
        ensures left { map (λ d. d.left.items) result.items ≡ reverse (map (λ t. t.left.items) tasks.items) }
    {
        let mut rest = tasks;
        let mut joined = room;
        while let Some(task) = rest.pop() {
            let number = task.pass.number;
            self.join(table, task.pass);
            joined.push_reserved(LateJoined {
                number,
                patches: task.patches,
                retired: task.retired,
                left: task.left,
            });
        }
        joined
    }
}
