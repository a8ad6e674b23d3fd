//! Passes of the second half at work, each with its own patches, in threads.
ghost use Rattle.std.specs.Prelude.{◌≡◌, ◌+◌, ◌<◌, ◌≤◌, [], All, length, vec_capacity};
ghost use Rattle.std.specs.List.{AllZip};
ghost use Rattle.std.specs.Thread.{IsSync};
ghost use Rattle.compat_check.specs.Meshes.{across_in, shape_of};
ghost use Rattle.table_words.specs.NameWords.{name_code};
ghost use Rattle.mesh_table.specs.Sights.{setup_at};
ghost use Rattle.mesh_table.specs.Told.{IsOf, Stays, sight};
ghost use Rattle.patch_walk.specs.Finished.{StillKnows};
ghost use Rattle.patch_claims.specs.Retired.{AreRetired};
ghost use Rattle.table_passes.specs.Late.{CanRetire, IsGoneOrLeft, IsLateDone, IsLateReady, IsLateWorked, IsLateWorker, IsRetirable};

use crate::late_work::LateTask;
use crate::pass::Pass;
use mesh_io::Gate;
use mesh_names::patch::PatchName;
use mesh_table::table::MeshTable;
use std::thread::{Threads, join_mut};

// Retires a patch, or leaves it.
fn retire_or_leave<G: Gate>(
    table: &MeshTable,
    pass: &mut Pass,
    patch: &PatchName,
    retired: &mut Vec<u32>,
    left: &mut Vec<PatchName>,
    gate: &G,
)
    requires fit { IsOf table.now.table.shared.table_id pass.old.seat }
    requires can { CanRetire (setup_at table.now.site) (sight pass.old.seat) }
    requires aimed { IsRetirable (shape_of table.now.site.mesh.now) (across_in table.now.site.mesh.now) (sight pass.old.seat).work.plan.retire patch.now }
    requires listed { AreRetired (sight pass.old.seat) retired.old.items }
    requires room { (length retired.old.items < vec_capacity retired.old) × (length left.old.items < vec_capacity left.old) }
    ensures stays { Stays pass.old.seat pass.new.seat }
    ensures round { pass.new.round ≡ pass.old.round }
    ensures number { pass.new.number ≡ pass.old.number }
    ensures lists { pass.new.lists ≡ pass.old.lists }
    ensures keeps { StillKnows (sight pass.old.seat) (sight pass.new.seat) }
    ensures gone { IsGoneOrLeft (setup_at table.now.site) (sight pass.new.seat) left.old.items left.new.items patch.now }
    ensures listed { AreRetired (sight pass.new.seat) retired.new.items }
    ensures count { length retired.new.items ≤ length retired.old.items + 1 }
    ensures capacity { (vec_capacity retired.new ≡ vec_capacity retired.old) × (vec_capacity left.new ≡ vec_capacity left.old) }
{
    match pass.retire(table, retired, *patch, gate) {
        Ok(_) => return,
        Err(_) => {}
    }
    left.push_reserved(*patch);
}

/// Retires patches one after the other. One that the call does not retire, since it found a child still bisected, comes to the end of the list of those that are left.
pub fn retire_patches<G: Gate>(
    table: &MeshTable,
    pass: &mut Pass,
    patches: &[PatchName],
    retired: &mut Vec<u32>,
    left: &mut Vec<PatchName>,
    gate: &G,
)
    requires fit { IsOf table.now.table.shared.table_id pass.old.seat }
    requires can { CanRetire (setup_at table.now.site) (sight pass.old.seat) }
    requires none { (sight pass.old.seat).work.retired ≡ [] }
    requires patches { All (IsRetirable (shape_of table.now.site.mesh.now) (across_in table.now.site.mesh.now) (sight pass.old.seat).work.plan.retire) patches.now }
    requires empty { (retired.old.items ≡ []) × (left.old.items ≡ []) }
    requires room { (length patches.now ≤ vec_capacity retired.old) × (length patches.now ≤ vec_capacity left.old) }
    ensures stays { Stays pass.old.seat pass.new.seat }
    ensures round { pass.new.round ≡ pass.old.round }
    ensures number { pass.new.number ≡ pass.old.number }
    ensures lists { pass.new.lists ≡ pass.old.lists }
    ensures worked { IsLateWorked table.now.site (sight pass.old.seat) (sight pass.new.seat) patches.now left.new.items retired.new.items }
    ensures capacity { (vec_capacity retired.new ≡ vec_capacity retired.old) × (vec_capacity left.new ≡ vec_capacity left.old) }
{
    for patch in patches {
        retire_or_leave(table, pass, patch, retired, left, gate);
    }
}

// One pass works through its patches.
fn late_one<G: Gate>(table: &MeshTable, task: &mut LateTask, gate: &G)
    requires ready { IsLateReady table.now.table.shared.table_id table.now.site task.old }
    ensures done { IsLateDone table.now.site task.old task.new }
{
    retire_patches(
        table,
        &mut task.pass,
        task.patches.as_slice(),
        &mut task.retired,
        &mut task.left,
        gate,
    );
}

// At most one pass.
fn late_last<G: Gate>(table: &MeshTable, tasks: &mut [LateTask], gate: &G)
    requires ready { All (IsLateReady table.now.table.shared.table_id table.now.site) tasks.old }
    requires few { length tasks.old < 2 }
    ensures done { AllZip (IsLateDone table.now.site) tasks.old tasks.new }
{
    if let [task] = tasks {
        late_one(table, task, gate);
    }
}

/// Each pass of the second half works through its patches in a thread of its own, nested over the halves of the list. Where no thread can be started the caller does its work.
pub fn retire_all<R: Threads + Sync, G: Gate + Sync>(
    rt: &R,
    table: &MeshTable,
    tasks: &mut [LateTask],
    gate: &G,
)
    requires ready { All (IsLateReady table.now.table.shared.table_id table.now.site) tasks.old }
    ensures done { AllZip (IsLateDone table.now.site) tasks.old tasks.new }
    ensures workers { All (IsLateWorker table.now.table.shared.table_id table.now.site) tasks.new }
{
    late_nested(rt, table, tasks, gate);
}

// The passes at work in threads, nested over the halves of the list.
#[cycle(late)]
fn late_nested<R: Threads + Sync, G: Gate + Sync>(
    rt: &R,
    table: &MeshTable,
    tasks: &mut [LateTask],
    gate: &G,
)
    requires ready { All (IsLateReady table.now.table.shared.table_id table.now.site) tasks.old }
    ensures done { AllZip (IsLateDone table.now.site) tasks.old tasks.new }
{
    if tasks.len() < 2 {
        late_last(table, tasks, gate);
        return;
    }
    let (left, right) = tasks.split_at_mut(tasks.len() / 2);
    late_halves(rt, table, left, right, gate);
}

// Two lists of passes at once.
#[cycle(late)]
fn late_halves<R: Threads + Sync, G: Gate + Sync>(
    rt: &R,
    table: &MeshTable,
    left: &mut [LateTask],
    right: &mut [LateTask],
    gate: &G,
)
    requires some { (0 < length left.old) × (0 < length right.old) }
    requires left { All (IsLateReady table.now.table.shared.table_id table.now.site) left.old }
    requires right { All (IsLateReady table.now.table.shared.table_id table.now.site) right.old }
    ensures left { AllZip (IsLateDone table.now.site) left.old left.new }
    ensures right { AllZip (IsLateDone table.now.site) right.old right.new }
{
    join_mut(
        rt,
        &mut ||
            requires { IsSync R.row × IsSync G.row × All (IsLateReady table.now.table.shared.table_id table.now.site) left.now }
            ensures { AllZip (IsLateDone table.entry.now.site) left.entry.now left.exit.now }
        { late_nested(rt, table, left, gate) },
        &mut ||
            requires { IsSync R.row × IsSync G.row × All (IsLateReady table.now.table.shared.table_id table.now.site) right.now }
            ensures { AllZip (IsLateDone table.entry.now.site) right.entry.now right.exit.now }
        { late_nested(rt, table, right, gate) },
    );
}
