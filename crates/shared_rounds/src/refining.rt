//! The first half of a round: passes refine the names that the round needs, each its own, and are joined.
ghost use Rattle.std.specs.Prelude.{◌≡◌, ◌≤◌, ◌∷◌, [], All, None, length, map, reverse, true, vec_capacity};
ghost use Rattle.compat_check.specs.Meshes.{shape_of};
ghost use Rattle.table_words.specs.Entries.{HasEntry};
ghost use Rattle.table_state.specs.Lists.{IsClosed};
ghost use Rattle.mesh_table.specs.Crews.{MayMakeLast, left_lone};
ghost use Rattle.mesh_table.specs.Sights.{setup_at};
ghost use Rattle.mesh_table.specs.Told.{IsOf, Stays, sight};
ghost use Rattle.table_passes.specs.Answers.{IsAimed};
ghost use Rattle.table_passes.specs.Tasks.{IsReady};
ghost use Rattle.shared_rounds.specs.Reached.{HasJoined, put_off};
ghost use Rattle.shared_rounds.specs.Room.{HasRoomFor};

use crate::room::LastRoom;
use mesh_io::Gate;
use mesh_names::name::ElemName;
use mesh_table::table::MeshTable;
use std::thread::Threads;
use table_passes::owner::OwnerSeat;
use table_passes::tasks::work_all;
use table_passes::work::{Joined, Task};

/// The passes work in threads, each through its names, and are joined. For what they did there is room. Worker 0 puts no name off.
pub fn work_tasks<R: Threads + Sync, G: Gate + Sync>(
    rt: &R,
    table: &MeshTable,
    owner: &mut OwnerSeat,
    tasks: Vec<Task>,
    room: Vec<Joined>,
    gate: &G,
) -> Vec<Joined>
    requires fit { IsOf table.now.table.shared.table_id owner.old.seat }
    requires ready { All (IsReady table.now.table.shared.table_id table.now.site) tasks.items }
    requires room { (room.items ≡ []) × (length tasks.items ≤ vec_capacity room) }
    ensures stays { Stays owner.old.seat owner.new.seat }
    ensures joined { HasJoined table.now.site.layout (sight owner.old.seat) (sight owner.new.seat) result.items }
    ensures names { map (λ d. d.names.items) result.items ≡ reverse (map (λ t. t.names.items) tasks.items) }
    ensures last { All (λ t. t.pass.number ≡ 0) tasks.items → All (λ d. d.lists.failed ≡ None → put_off d.names.items d.answers.items ≡ []) result.items }
{
    let mut tasks = tasks;
    work_all(rt, table, tasks.as_mut_slice(), gate);
    owner.join_tasks(table, tasks, room)
}

/// Worker 0 refines names that were put off, and is joined. For what it does there is room.
pub fn finish_names<R: Threads + Sync, G: Gate + Sync>(
    rt: &R,
    table: &MeshTable,
    owner: &mut OwnerSeat,
    names: Vec<ElemName>,
    room: LastRoom,
    gate: &G,
) -> Vec<Joined>
    requires fit { IsOf table.now.table.shared.table_id owner.old.seat }
    requires may { MayMakeLast (sight owner.old.seat) }
    requires closed { IsClosed (setup_at table.now.site) (HasEntry (sight owner.old.seat).ruling.plan.target) }
    requires aimed { All (IsAimed (shape_of table.now.site.mesh.now) (sight owner.old.seat).ruling.plan.target) names.items }
    requires room { HasRoomFor table.now.site.layout.pool names.items room }
    ensures stays { Stays owner.old.seat owner.new.seat }
    ensures joined { HasJoined table.now.site.layout (left_lone (sight owner.old.seat) true) (sight owner.new.seat) result.items }
    ensures names { map (λ d. d.names.items) result.items ≡ names.items ∷ [] }
    ensures last { All (λ d. d.lists.failed ≡ None → put_off d.names.items d.answers.items ≡ []) result.items }
{
    let pass = owner.split_last(table, room.lists);
    let mut tasks = room.tasks;
    tasks.push_reserved(Task {
        pass,
        names,
        answers: room.answers,
    });
    work_tasks(rt, table, owner, tasks, room.joined, gate)
}
