//! The first half of a round, whole: the passes work and are joined, worker 0 finishes what they put off, and the owner gathers the claims.
ghost use Rattle.std.specs.Prelude.{◌≡◌, ℕ, ◌+◌, ◌++◌, ◌≤◌, ◌∷◌, [], false, All, IfErr, IfOk, None, length, map, reverse, true, vec_capacity};
ghost use Rattle.compat_check.specs.Meshes.{shape_of};
ghost use Rattle.table_words.specs.Entries.{HasEntry};
ghost use Rattle.table_words.specs.Views.{FirstHalf};
ghost use Rattle.table_state.specs.Lists.{IsClosed};
ghost use Rattle.mesh_table.specs.Crews.{ClaimsLive, left_lone};
ghost use Rattle.mesh_table.specs.Sights.{setup_at};
ghost use Rattle.mesh_table.specs.Told.{IsOf, Stays, sight};
ghost use Rattle.table_passes.specs.Answers.{IsAimed};
ghost use Rattle.table_passes.specs.Tasks.{IsReady};
ghost use Rattle.shared_rounds.specs.Claims.{ClaimsTold};
ghost use Rattle.shared_rounds.specs.FirstHalf.{IsOverfull, IsRefined};
ghost use Rattle.shared_rounds.specs.Gathered.{all_blocks, all_held};
ghost use Rattle.shared_rounds.specs.Reached.{HasJoined, all_put_off, put_off};
ghost use Rattle.shared_rounds.specs.Room.{HasHalfRoom, HasRoomOf, count_all};

use crate::answers::{add_all_put_off, any_failed};
use crate::gathering::{add_all_blocks, add_all_held};
use crate::looks::look_claims;
use crate::refining::{finish_names, work_tasks};
use crate::room::{HalfRoom, LastRoom};
use mesh_io::Gate;
use mesh_names::name::ElemName;
use mesh_table::table::MeshTable;
use std::thread::Threads;
use table_passes::owner::OwnerSeat;
use table_passes::work::{Joined, Task};
use table_rounds::patch::{Held, Patch};

// The passes work and are joined, and the owner is told of the claims.
fn work_first<R: Threads + Sync, G: Gate + Sync>(
    rt: &R,
    table: &MeshTable,
    owner: &mut OwnerSeat,
    tasks: Vec<Task>,
    room: Vec<Joined>,
    gate: &G,
) -> Vec<Joined>
    requires fit { IsOf table.now.table.shared.table_id owner.old.seat }
    requires half { (sight owner.old.seat).ruling.phase ≡ FirstHalf }
    requires none { (sight owner.old.seat).ruling.high ≤ (sight owner.old.seat).ruling.low }
    requires ready { All (IsReady table.now.table.shared.table_id table.now.site) tasks.items }
    requires room { (room.items ≡ []) × (length tasks.items ≤ vec_capacity room) }
    ensures stays { Stays owner.old.seat owner.new.seat }
    ensures joined { HasJoined table.now.site.layout (sight owner.old.seat) (sight owner.new.seat) result.items }
    ensures names { map (λ d. d.names.items) result.items ≡ reverse (map (λ t. t.names.items) tasks.items) }
    ensures told { ClaimsTold (setup_at table.now.site) (sight owner.new.seat) }
{
    let joined = work_tasks(rt, table, owner, tasks, room, gate);
    look_claims(table, &mut owner.seat);
    joined
}

// Worker 0 refines the names that the passes put off and is joined, and the owner is told of the claims.
fn finish_rest<R: Threads + Sync, G: Gate + Sync>(
    rt: &R,
    table: &MeshTable,
    owner: &mut OwnerSeat,
    joined: &[Joined],
    names: Vec<ElemName>,
    room: LastRoom,
    gate: &G,
) -> Vec<Joined>
    requires fit { IsOf table.now.table.shared.table_id owner.old.seat }
    requires half { (sight owner.old.seat).ruling.phase ≡ FirstHalf }
    requires none { (sight owner.old.seat).ruling.high ≤ (sight owner.old.seat).ruling.low }
    requires home { (sight owner.old.seat).ruling.workers ≡ 0 }
    requires living { ClaimsLive (sight owner.old.seat) }
    requires closed { IsClosed (setup_at table.now.site) (HasEntry (sight owner.old.seat).ruling.plan.target) }
    requires aimed { All (All (IsAimed (shape_of table.now.site.mesh.now) (sight owner.old.seat).ruling.plan.target)) (map (λ d. d.names.items) joined.now) }
    requires few { All (λ d. length d.answers.items ≤ length d.names.items) joined.now }
    requires names { (names.items ≡ []) × (length (all_put_off joined.now) ≤ vec_capacity names) }
    requires room { HasRoomOf table.now.site.layout.pool (length (all_put_off joined.now)) room }
    ensures stays { Stays owner.old.seat owner.new.seat }
    ensures joined { HasJoined table.now.site.layout (left_lone (sight owner.old.seat) true) (sight owner.new.seat) result.items }
    ensures names { map (λ d. d.names.items) result.items ≡ all_put_off joined.now ∷ [] }
    ensures last { All (λ d. d.lists.failed ≡ None → put_off d.names.items d.answers.items ≡ []) result.items }
    ensures told { ClaimsTold (setup_at table.now.site) (sight owner.new.seat) }
{
    let mut rest = names;
    add_all_put_off(&mut rest, joined);
    let last = finish_names(rt, table, owner, rest, room, gate);
    look_claims(table, &mut owner.seat);
    last
}

// All claims, in one list.
fn hold_all(room: Vec<Held>, joined: Vec<Joined>) -> Vec<Held>
    requires empty { room.items ≡ [] }
    requires room { length (all_held (map (λ d. d.lists) joined.items)) ≤ vec_capacity room }
    ensures items { result.items ≡ all_held (map (λ d. d.lists) joined.items) }
    ensures capacity { vec_capacity result ≡ vec_capacity room }
{
    let mut held = room;
    add_all_held(&mut held, joined);
    held
}

// All claims, with those of worker 0, in one list.
fn hold_both(room: Vec<Held>, joined: Vec<Joined>, last: Vec<Joined>) -> Vec<Held>
    requires empty { room.items ≡ [] }
    requires room { length (all_held (map (λ d. d.lists) joined.items)) + length (all_held (map (λ d. d.lists) last.items)) ≤ vec_capacity room }
    ensures items { result.items ≡ all_held (map (λ d. d.lists) joined.items) ++ all_held (map (λ d. d.lists) last.items) }
{
    let mut held = hold_all(room, joined);
    add_all_held(&mut held, last);
    held
}

// All blocks, with those of worker 0, in one list.
fn gather_both(room: Vec<Patch>, joined: Vec<Joined>, last: Vec<Joined>) -> Vec<Patch>
    requires empty { room.items ≡ [] }
    requires room { length (all_blocks (map (λ d. d.lists) joined.items)) + length (all_blocks (map (λ d. d.lists) last.items)) ≤ vec_capacity room }
    ensures items { result.items ≡ all_blocks (map (λ d. d.lists) joined.items) ++ all_blocks (map (λ d. d.lists) last.items) }
{
    let mut blocks = room;
    add_all_blocks(&mut blocks, joined);
    add_all_blocks(&mut blocks, last);
    blocks
}

/// The passes refine their names in threads and are joined, and worker 0 finishes what they put off: the claims, each with its block. Where free blocks ran out, since the round is too large for the pool, the answer is the claims that were made, which are to be rolled back.
pub fn refine_all<R: Threads + Sync, G: Gate + Sync>(
    rt: &R,
    table: &MeshTable,
    owner: &mut OwnerSeat,
    tasks: Vec<Task>,
    room: HalfRoom,
    gate: &G,
) -> Result<Vec<Patch>, Vec<Held>>
    requires fit { IsOf table.now.table.shared.table_id owner.old.seat }
    requires half { (sight owner.old.seat).ruling.phase ≡ FirstHalf }
    requires none { (sight owner.old.seat).ruling.high ≤ (sight owner.old.seat).ruling.low }
    requires new { (sight owner.old.seat).claims ≡ [] }
    requires alone { (sight owner.old.seat).ruling.lone ≡ false }
    requires out { (sight owner.old.seat).ruling.workers ≡ length tasks.items }
    requires closed { IsClosed (setup_at table.now.site) (HasEntry (sight owner.old.seat).ruling.plan.target) }
    requires ready { All (IsReady table.now.table.shared.table_id table.now.site) tasks.items }
    requires aimed { All (All (IsAimed (shape_of table.now.site.mesh.now) (sight owner.old.seat).ruling.plan.target)) (map (λ t. t.names.items) tasks.items) }
    requires room { HasHalfRoom table.now.site.layout.pool (count_all (map (λ t. t.names.items) tasks.items)) (length tasks.items) room }
    ensures stays { Stays owner.old.seat owner.new.seat }
    ensures refined { IfOk result (λ blocks. IsRefined table.now.site.layout (sight owner.old.seat) (sight owner.new.seat) (map (λ t. t.names.items) tasks.items) blocks.items) }
    ensures overfull { IfErr result (λ held. IsOverfull (setup_at table.now.site) table.now.site.layout (sight owner.old.seat) (sight owner.new.seat) held.items) }
{
    let joined = work_first(rt, table, owner, tasks, room.joined, gate);
    if any_failed(&joined) {
        return Err(hold_all(room.held, joined));
    }
    let last = finish_rest(rt, table, owner, &joined, room.names, room.last, gate);
    if any_failed(&last) {
        return Err(hold_both(room.held, joined, last));
    }
    Ok(gather_both(room.blocks, joined, last))
}
