//! The names that a round needs, dealt out among passes.
ghost use Rattle.std.specs.Prelude.{◌≡◌, ◌<◌, ◌≤◌, false, All, IfErr, IfOk, map};
ghost use Rattle.std.specs.List.{range_with_len};
ghost use Rattle.compat_check.specs.Meshes.{shape_of};
ghost use Rattle.table_words.specs.Entries.{HasEntry};
ghost use Rattle.table_words.specs.Views.{FirstHalf};
ghost use Rattle.table_state.specs.Lists.{IsClosed};
ghost use Rattle.mesh_table.specs.Sights.{setup_at};
ghost use Rattle.mesh_table.specs.Told.{IsOf, Stays, sight};
ghost use Rattle.table_passes.specs.Answers.{IsAimed};
ghost use Rattle.table_passes.specs.Crew.{left_by};
ghost use Rattle.table_passes.specs.Shares.{every};
ghost use Rattle.table_passes.specs.Tasks.{IsMade, IsReady};

use crate::owner::OwnerSeat;
use crate::shares::shares;
use crate::work::Task;
use mesh_names::name::ElemName;
use mesh_table::table::MeshTable;
use std::alloc::{AllocError, Global};

impl OwnerSeat {
    /// So many workers' passes of the first half, numbered from 1 on, with the names dealt out among them: the name at the place i, from 0 on, goes to worker 1 + i mod `workers`. Where memory is out, none was made.
    pub fn split_shares(
        &mut self,
        table: &MeshTable,
        alloc: Global,
        names: &[ElemName],
        workers: usize,
        pool: u32,
    ) -> Result<Vec<Task>, AllocError>
        requires fit { IsOf table.now.table.shared.table_id self.old.seat }
        requires half { (sight self.old.seat).ruling.phase ≡ FirstHalf }
        requires alone { (sight self.old.seat).ruling.lone ≡ false }
        requires workers { (0 < workers) × (workers ≤ 64) }
        requires pool { pool ≡ table.now.site.layout.pool }
        requires closed { IsClosed (setup_at table.now.site) (HasEntry (sight self.old.seat).ruling.plan.target) }
        requires aimed { All (IsAimed (shape_of table.now.site.mesh.now) (sight self.old.seat).ruling.plan.target) names.now }
        ensures stays { Stays self.old.seat self.new.seat }
        ensures left { IfOk result (λ tasks. sight self.new.seat ≡ left_by workers (sight self.old.seat)) }
        ensures made { IfOk result (λ tasks. All (IsMade (sight self.old.seat)) tasks.items) }
        ensures ready { IfOk result (λ tasks. All (IsReady table.now.table.shared.table_id table.now.site) tasks.items) }
        ensures names { IfOk result (λ tasks. map (λ t. t.names.items) tasks.items ≡ map (λ first. every workers first names.now) (range_with_len 0 workers)) }
        ensures none { IfErr result (λ e. sight self.new.seat ≡ sight self.old.seat) }
    {
        let work = shares(alloc, names, workers)?;
        self.split_tasks(table, alloc, work, pool)
    }
}
