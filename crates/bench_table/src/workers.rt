//! Workers of the shared table bisect the patches.
ghost use Rattle.std.specs.Prelude.{◌<◌, ◌≤◌};

use anyhow::{Result, anyhow};
use compat_check::mesh::MacroMesh;
use mesh_io::NoGate;
use mesh_names::name::ElemName;
use patch_claims::refine::Done;
use std::alloc::Global;
use std::thread::Threads;
use std::time::{Clock, Instant};
use table_passes::owner::{can_bisect, new_table};
use table_passes::tasks::work_all;
use table_passes::work::Task;

/// What workers did, and in how many microseconds.
#[derive(Clone, Copy)]
pub struct Outcome {
    pub published: u32,
    pub deferred: u32,
    pub time: u128,
}

// How many patches were published, and how many calls were refused.
fn outcome_of(tasks: &[Task], time: u128) -> Outcome {
    let mut outcome = Outcome {
        published: 0,
        deferred: 0,
        time,
    };
    for task in tasks {
        for answer in &task.answers {
            match answer {
                Ok(Done::Published(patches)) => {
                    outcome.published = outcome.published.wrapping_add(*patches);
                }
                Ok(Done::Already) => {}
                Err(_) => outcome.deferred = outcome.deferred.wrapping_add(1),
            }
        }
    }
    outcome
}

/// So many workers bisect the patches of a fresh table.
pub fn run_workers<R: Threads + Clock + Sync>(
    rt: &R,
    alloc: Global,
    mesh: &MacroMesh,
    patches: &[ElemName],
    workers: usize,
) -> Result<Outcome>
    requires workers { (0 < workers) × (workers ≤ 64) }
{
    if patches.len() > 1_048_576 || !can_bisect(mesh, patches) {
        return Err(anyhow!("too many patches"));
    }
    let pool = patches.len() as u32;
    let (table, mut owner) = new_table(alloc, mesh, pool, 4, 1)?;
    owner.begin(&table, patches);
    let mut tasks = owner.split_shares(&table, alloc, patches, workers, pool)?;
    let start = Instant::now(rt)?;
    work_all(rt, &table, tasks.as_mut_slice(), &NoGate);
    let time = start.elapsed(rt)?.as_micros();
    Ok(outcome_of(tasks.as_slice(), time))
}
