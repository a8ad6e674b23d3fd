//! Passes at work, each with its own names, in threads.
ghost use Rattle.std.specs.Prelude.{◌≡◌, ◌<◌, ◌≤◌, [], All, None, length, vec_capacity};
ghost use Rattle.std.specs.List.{AllZip};
ghost use Rattle.std.specs.Thread.{IsSync};
ghost use Rattle.compat_check.specs.Meshes.{across_in, shape_of};
ghost use Rattle.mesh_table.specs.Sights.{setup_at};
ghost use Rattle.mesh_table.specs.Told.{IsOf, Stays, sight};
ghost use Rattle.table_passes.specs.Answers.{CanRefine, IsAimed, IsWorked, NoneFull};
ghost use Rattle.table_passes.specs.Kept.{HasKept};
ghost use Rattle.table_passes.specs.Tasks.{IsDone, IsReady, IsWorkers};

use crate::pass::Pass;
use crate::refining::is_full;
use crate::work::Task;
use mesh_io::Gate;
use mesh_names::name::ElemName;
use mesh_table::table::MeshTable;
use patch_claims::needs::ClaimRefusal;
use patch_claims::refine::Done;
use std::thread::{Threads, join_mut};

/// Refines names one after the other, and stops where no free blocks are left.
pub fn refine_names<G: Gate>(
    table: &MeshTable,
    pass: &mut Pass,
    names: &[ElemName],
    answers: &mut Vec<Result<Done, ClaimRefusal>>,
    gate: &G,
)
    requires fit { IsOf table.now.table.shared.table_id pass.old.seat }
    requires can { CanRefine (setup_at table.now.site) (sight pass.old.seat) }
    requires names { All (IsAimed (shape_of table.now.site.mesh.now) (sight pass.old.seat).work.plan.target) names.now }
    requires empty { answers.old.items ≡ [] }
    requires room { length names.now ≤ vec_capacity answers.old }
    requires kept { HasKept table.now.site pass.old }
    requires list { 0 < length names.now → table.now.site.layout.pool ≤ vec_capacity pass.old.lists.published }
    ensures stays { Stays pass.old.seat pass.new.seat }
    ensures round { pass.new.round ≡ pass.old.round }
    ensures number { pass.new.number ≡ pass.old.number }
    ensures worked { IsWorked (shape_of table.now.site.mesh.now) (across_in table.now.site.mesh.now) (sight pass.old.seat) (sight pass.new.seat) names.now answers.new.items }
    ensures capacity { vec_capacity answers.new ≡ vec_capacity answers.old }
    ensures kept { HasKept table.now.site pass.new }
    ensures failed { pass.new.lists.failed ≡ None → NoneFull answers.new.items }
{
    for name in names {
        let answer = pass.refine(table, *name, gate);
        let full = is_full(&answer);
        answers.push_reserved(answer);
        if full {
            return;
        }
    }
}

// One pass works through its names.
fn work_one<G: Gate>(table: &MeshTable, task: &mut Task, gate: &G)
    requires ready { IsReady table.now.table.shared.table_id table.now.site task.old }
    ensures done { IsDone table.now.site task.old task.new }
{
    refine_names(
        table,
        &mut task.pass,
        task.names.as_slice(),
        &mut task.answers,
        gate,
    );
}

// At most one pass.
fn work_last<G: Gate>(table: &MeshTable, tasks: &mut [Task], gate: &G)
    requires ready { All (IsReady table.now.table.shared.table_id table.now.site) tasks.old }
    requires few { length tasks.old < 2 }
    ensures done { AllZip (IsDone table.now.site) tasks.old tasks.new }
{
    if let [task] = tasks {
        work_one(table, task, gate);
    }
}

/// Each pass works through its names in a thread of its own, nested over the halves of the list. Where no thread can be started the caller does its work.
pub fn work_all<R: Threads + Sync, G: Gate + Sync>(
    rt: &R,
    table: &MeshTable,
    tasks: &mut [Task],
    gate: &G,
)
    requires ready { All (IsReady table.now.table.shared.table_id table.now.site) tasks.old }
    ensures done { AllZip (IsDone table.now.site) tasks.old tasks.new }
    ensures workers { All (IsWorkers table.now.table.shared.table_id table.now.site) tasks.new }
{
    work_nested(rt, table, tasks, gate);
}

// The passes at work in threads, nested over the halves of the list.
#[cycle(works)]
fn work_nested<R: Threads + Sync, G: Gate + Sync>(
    rt: &R,
    table: &MeshTable,
    tasks: &mut [Task],
    gate: &G,
)
    requires ready { All (IsReady table.now.table.shared.table_id table.now.site) tasks.old }
    ensures done { AllZip (IsDone table.now.site) tasks.old tasks.new }
{
    if tasks.len() < 2 {
        work_last(table, tasks, gate);
        return;
    }
    let (left, right) = tasks.split_at_mut(tasks.len() / 2);
    work_halves(rt, table, left, right, gate);
}

// Two lists of passes at once.
#[cycle(works)]
fn work_halves<R: Threads + Sync, G: Gate + Sync>(
    rt: &R,
    table: &MeshTable,
    left: &mut [Task],
    right: &mut [Task],
    gate: &G,
)
    requires some { (0 < length left.old) × (0 < length right.old) }
    requires left { All (IsReady table.now.table.shared.table_id table.now.site) left.old }
    requires right { All (IsReady table.now.table.shared.table_id table.now.site) right.old }
    ensures left { AllZip (IsDone table.now.site) left.old left.new }
    ensures right { AllZip (IsDone table.now.site) right.old right.new }
{
    join_mut(
        rt,
        &mut ||
            requires { IsSync R.row × IsSync G.row × All (IsReady table.now.table.shared.table_id table.now.site) left.now }
            ensures { AllZip (IsDone table.entry.now.site) left.entry.now left.exit.now }
        { work_nested(rt, table, left, gate) },
        &mut ||
            requires { IsSync R.row × IsSync G.row × All (IsReady table.now.table.shared.table_id table.now.site) right.now }
            ensures { AllZip (IsDone table.entry.now.site) right.entry.now right.exit.now }
        { work_nested(rt, table, right, gate) },
    );
}
