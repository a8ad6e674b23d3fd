//! The first half of a round for the names that it needs.
ghost use Rattle.std.specs.Prelude.{◌≡◌, ◌<◌, ◌≤◌, ◌∷◌, [], false, All, IfErr, IfOk, map};
ghost use Rattle.compat_check.specs.Meshes.{shape_of};
ghost use Rattle.table_words.specs.Entries.{HasEntry};
ghost use Rattle.table_words.specs.NameWords.{name_code};
ghost use Rattle.table_words.specs.Views.{FirstHalf};
ghost use Rattle.table_state.specs.Lists.{IsClosed};
ghost use Rattle.mesh_table.specs.Rounds.{MayPlan};
ghost use Rattle.mesh_table.specs.Sights.{setup_at};
ghost use Rattle.mesh_table.specs.Told.{IsOf, Stays, sight};
ghost use Rattle.table_passes.specs.Answers.{IsAimed};
ghost use Rattle.shared_rounds.specs.FirstHalf.{IsOverfull, IsRefined};

use crate::half::refine_all;
use crate::room::HalfRoom;
use mesh_io::Gate;
use mesh_names::name::ElemName;
use mesh_table::table::MeshTable;
use std::alloc::{AllocError, Global};
use std::thread::Threads;
use table_passes::owner::OwnerSeat;
use table_rounds::patch::{Held, Patch};

/// The first half of a round that has begun for these names: they are dealt out among so many passes, which refine them in threads, and worker 0 finishes what they put off. Then each name is bisected, and the second half may be planned; the answer is the claims, each with its block. Where the round is too large for the pool, the answer is the claims that were made, which are to be rolled back. All memory is taken before the first claim; where it is out, nothing was done.
pub fn refine_needs<R: Threads + Sync, G: Gate + Sync>(
    rt: &R,
    table: &MeshTable,
    owner: &mut OwnerSeat,
    alloc: Global,
    needs: &[ElemName],
    workers: u32,
    pool: u32,
    gate: &G,
) -> Result<Result<Vec<Patch>, Vec<Held>>, AllocError>
    requires fit { IsOf table.now.table.shared.table_id owner.old.seat }
    requires half { (sight owner.old.seat).ruling.phase ≡ FirstHalf }
    requires none { (sight owner.old.seat).ruling.high ≤ (sight owner.old.seat).ruling.low }
    requires new { (sight owner.old.seat).claims ≡ [] }
    requires home { (sight owner.old.seat).ruling.workers ≡ 0 }
    requires alone { (sight owner.old.seat).ruling.lone ≡ false }
    requires closed { IsClosed (setup_at table.now.site) (HasEntry (sight owner.old.seat).ruling.plan.target) }
    requires needs { (sight owner.old.seat).ruling.plan.needs ≡ map name_code needs.now }
    requires aimed { All (IsAimed (shape_of table.now.site.mesh.now) (sight owner.old.seat).ruling.plan.target) needs.now }
    requires workers { (0 < workers) × (workers ≤ 64) }
    requires pool { pool ≡ table.now.site.layout.pool }
    ensures stays { Stays owner.old.seat owner.new.seat }
    ensures refined { IfOk result (λ r. IfOk r (λ blocks. IsRefined table.now.site.layout (sight owner.old.seat) (sight owner.new.seat) (needs.now ∷ []) blocks.items)) }
    ensures may { IfOk result (λ r. IfOk r (λ blocks. MayPlan (sight owner.new.seat))) }
    ensures overfull { IfOk result (λ r. IfErr r (λ held. IsOverfull (setup_at table.now.site) table.now.site.layout (sight owner.old.seat) (sight owner.new.seat) held.items)) }
    ensures none { IfErr result (λ e. sight owner.new.seat ≡ sight owner.old.seat) }
{
    let room = HalfRoom::new(alloc, needs.len(), workers, pool)?;
    let tasks = owner.split_shares(table, alloc, needs, workers as usize, pool)?;
    Ok(refine_all(rt, table, owner, tasks, room, gate))
}
