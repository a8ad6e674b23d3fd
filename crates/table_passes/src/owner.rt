//! The owner's seat, and lists of passes.
ghost use Rattle.std.specs.Prelude.{◌≡◌, ◌<◌, ◌≤◌, ◌+◌, ◌++◌, [], false, true, All, IfErr, IfOk, length, map, reverse, vec_capacity};
ghost use Rattle.std.specs.List.{range_with_len};
ghost use Rattle.compat_check.specs.Meshes.{across_in, shape_of};
ghost use Rattle.table_words.specs.Entries.{HasEntry};
ghost use Rattle.table_words.specs.Views.{FirstHalf, Owner, Worker};
ghost use Rattle.table_state.specs.Lists.{IsClosed};
ghost use Rattle.mesh_table.specs.Crews.{CanBisect, MayBeginFor, MayMakeLast, left_lone, plan_for};
ghost use Rattle.mesh_table.specs.Passes.{begun, joined, left_by_split, made_worker};
ghost use Rattle.mesh_table.specs.Sights.{owner_sight, setup_at};
ghost use Rattle.mesh_table.specs.Told.{IsOf, Stays, sight};
ghost use Rattle.table_passes.specs.Answers.{CanRefine, IsAimed};
ghost use Rattle.table_passes.specs.Crew.{joined_all, left_by};
ghost use Rattle.table_passes.specs.Kept.{AreEmpty, HasKept, all_claims};
ghost use Rattle.table_passes.specs.Tasks.{HasRoom, IsMade, IsNew, IsReady, IsWorkers};

use crate::lists::Lists;
use crate::pass::Pass;
use crate::work::{Joined, Task};
use compat_check::MacroMesh;
use mesh_names::name::ElemName;
use mesh_table::rule::MeshSeat;
use mesh_table::table::MeshTable;
use patch_claims::needs::ClaimRefusal;
use patch_claims::refine::Done;
use std::alloc::{AllocError, Global};

/// The owner's seat, with the last finished round.
#[derive(Drop)]
pub struct OwnerSeat {
    pub seat: MeshSeat,
    pub finished: u32,
    ghost rules: { (sight seat).kind ≡ Owner },
    ghost known: { (sight seat).ruling.finished ≡ finished },
    ghost low: { finished ≤ 65535 },
}

/// Whether each name is of the mesh, and its element can be bisected: its level is below 24.
pub fn can_bisect(mesh: &MacroMesh, names: &[ElemName]) -> bool
    ensures all { result ≡ true → All (CanBisect (shape_of mesh.now)) names.now }
    ensures some { result ≡ false → All (CanBisect (shape_of mesh.now)) names.now → ⊥ }
{
    for name in names {
        if !can_bisect_one(mesh, *name) {
            return false;
        }
    }
    true
}

fn can_bisect_one(mesh: &MacroMesh, name: ElemName) -> bool
    ensures all { result ≡ true → CanBisect (shape_of mesh.now) name }
    ensures some { result ≡ false → CanBisect (shape_of mesh.now) name → ⊥ }
{
    name.root() < mesh.element_count() && mesh.level(name) < 24
}

/// A fresh table, and its owner's seat.
pub fn new_table(
    alloc: Global,
    mesh: &MacroMesh,
    pool: u32,
    rounds: u32,
    passes: u32,
) -> Result<(MeshTable, OwnerSeat), AllocError>
    requires pool { pool ≤ 1048576 }
    requires rounds { rounds ≤ 65535 }
    requires passes { passes ≤ 1024 }
    ensures owner { IfOk result (λ r. IsOf r.0.table.shared.table_id r.1.seat × (sight r.1.seat ≡ owner_sight r.0.site)) }
    ensures site { IfOk result (λ r. (r.0.site.mesh.now ≡ mesh.now) × (r.0.site.layout.rounds ≡ rounds) × (r.0.site.layout.pool ≡ pool) × (r.0.site.passes ≡ passes)) }
{
    let (table, seat) = MeshTable::new(alloc, mesh, pool, rounds, passes)?;
    Ok((table, OwnerSeat { seat, finished: 0 }))
}

impl OwnerSeat {
    /// The first half of a round begins, which needs these names.
    pub fn begin(&mut self, table: &MeshTable, needs: &[ElemName])
        requires fit { IsOf table.now.table.shared.table_id self.old.seat }
        requires may { MayBeginFor (setup_at table.now.site) (shape_of table.now.site.mesh.now) (sight self.old.seat) needs.now }
        ensures stays { Stays self.old.seat self.new.seat }
        ensures begun { sight self.new.seat ≡ begun (sight self.old.seat) (plan_for (shape_of table.now.site.mesh.now) (across_in table.now.site.mesh.now) (sight self.old.seat) needs.now) }
        ensures closed { IsClosed (setup_at table.now.site) (HasEntry (sight self.new.seat).ruling.plan.target) }
        ensures aimed { All (IsAimed (shape_of table.now.site.mesh.now) (sight self.new.seat).ruling.plan.target) needs.now }
    {
        table.begin_for(&mut self.seat, needs);
    }

    /// A worker's pass of the first half, with a number above 0.
    pub fn split(&mut self, table: &MeshTable, number: u32, lists: Lists) -> Pass
        requires fit { IsOf table.now.table.shared.table_id self.old.seat }
        requires half { (sight self.old.seat).ruling.phase ≡ FirstHalf }
        requires alone { (sight self.old.seat).ruling.lone ≡ false }
        requires number { 0 < number }
        requires empty { AreEmpty lists }
        ensures stays { Stays self.old.seat self.new.seat }
        ensures left { sight self.new.seat ≡ left_by_split (sight self.old.seat) }
        ensures pass { IsOf table.now.table.shared.table_id result.seat }
        ensures made { sight result.seat ≡ made_worker (sight self.old.seat) number }
        ensures number { result.number ≡ number }
        ensures can { IsClosed (setup_at table.now.site) (HasEntry (sight self.old.seat).ruling.plan.target) → CanRefine (setup_at table.now.site) (sight result.seat) }
        ensures plan { (sight result.seat).work.plan ≡ (sight self.old.seat).ruling.plan }
        ensures kept { HasKept table.now.site result }
        ensures lists { result.lists ≡ lists }
    {
        Pass {
            seat: table.split_worker(&mut self.seat, number),
            round: self.finished + 1,
            number,
            lists,
        }
    }

    /// The pass of worker 0 of the first half, which is made while no other worker's is out and each claim has its living block.
    pub fn split_last(&mut self, table: &MeshTable, lists: Lists) -> Pass
        requires fit { IsOf table.now.table.shared.table_id self.old.seat }
        requires may { MayMakeLast (sight self.old.seat) }
        requires empty { AreEmpty lists }
        ensures stays { Stays self.old.seat self.new.seat }
        ensures left { sight self.new.seat ≡ left_lone (sight self.old.seat) true }
        ensures pass { IsOf table.now.table.shared.table_id result.seat }
        ensures made { sight result.seat ≡ made_worker (sight self.old.seat) 0 }
        ensures number { result.number ≡ 0 }
        ensures can { IsClosed (setup_at table.now.site) (HasEntry (sight self.old.seat).ruling.plan.target) → CanRefine (setup_at table.now.site) (sight result.seat) }
        ensures plan { (sight result.seat).work.plan ≡ (sight self.old.seat).ruling.plan }
        ensures kept { HasKept table.now.site result }
        ensures lists { result.lists ≡ lists }
    {
        Pass {
            seat: table.split_last(&mut self.seat),
            round: self.finished + 1,
            number: 0,
            lists,
        }
    }

    /// The owner takes over what a pass did and learned, and gets its lists.
    pub fn join(&mut self, table: &MeshTable, pass: Pass) -> Lists
        requires fit { IsOf table.now.table.shared.table_id self.old.seat }
        requires pass { IsOf table.now.table.shared.table_id pass.seat }
        requires works { (sight pass.seat).kind ≡ Worker }
        ensures stays { Stays self.old.seat self.new.seat }
        ensures joined { sight self.new.seat ≡ joined (sight self.old.seat) (sight pass.seat) }
        ensures lists { result ≡ pass.lists }
    {
        table.join_worker(&mut self.seat, pass.seat);
        pass.lists
    }

    /// A worker's pass of the first half for each list of names, numbered from 1 on. Each has room for what it will do, in a table with this pool. Where memory is out, none was made.
    pub fn split_tasks(
        &mut self,
        table: &MeshTable,
        alloc: Global,
        work: Vec<Vec<ElemName>>,
        pool: u32,
    ) -> Result<Vec<Task>, AllocError>
        requires fit { IsOf table.now.table.shared.table_id self.old.seat }
        requires half { (sight self.old.seat).ruling.phase ≡ FirstHalf }
        requires alone { (sight self.old.seat).ruling.lone ≡ false }
        requires few { length work.items ≤ 64 }
        requires pool { pool ≡ table.now.site.layout.pool }
        requires closed { IsClosed (setup_at table.now.site) (HasEntry (sight self.old.seat).ruling.plan.target) }
        requires aimed { All (λ names. All (IsAimed (shape_of table.now.site.mesh.now) (sight self.old.seat).ruling.plan.target) names.items) work.items }
        ensures stays { Stays self.old.seat self.new.seat }
        ensures left { IfOk result (λ tasks. sight self.new.seat ≡ left_by (length work.items) (sight self.old.seat)) }
        ensures made { IfOk result (λ tasks. All (IsMade (sight self.old.seat)) tasks.items) }
        ensures ready { IfOk result (λ tasks. All (IsReady table.now.table.shared.table_id table.now.site) tasks.items) }
        ensures numbers { IfOk result (λ tasks. map (λ t. t.pass.number) tasks.items ≡ map (λ i. i + 1) (range_with_len 0 (length work.items))) }
        ensures names { IfOk result (λ tasks. map (λ t. t.names.items) tasks.items ≡ map (λ w. w.items) work.items) }
        ensures none { IfErr result (λ e. sight self.new.seat ≡ sight self.old.seat) }
    {
        let drafts = drafts(alloc, work, pool)?;
        let tasks = Vec::with_capacity(alloc, drafts.len())?;
        Ok(self.split_drafts(table, tasks, drafts))
    }

    // A pass for each draft, in a list that has room for all.
    fn split_drafts(&mut self, table: &MeshTable, room: Vec<Task>, drafts: Vec<Draft>) -> Vec<Task>
        requires fit { IsOf table.now.table.shared.table_id self.old.seat }
        requires half { (sight self.old.seat).ruling.phase ≡ FirstHalf }
        requires alone { (sight self.old.seat).ruling.lone ≡ false }
        requires few { length drafts.items ≤ 64 }
        requires room { (room.items ≡ []) × (length drafts.items ≤ vec_capacity room) }
        requires lists { All (λ d. HasRoom table.now.site.layout.pool d.names.items d.lists) drafts.items }
        ensures stays { Stays self.old.seat self.new.seat }
        ensures left { sight self.new.seat ≡ left_by (length drafts.items) (sight self.old.seat) }
        ensures new { All (IsNew table.now.table.shared.table_id table.now.site (sight self.old.seat)) result.items }
        ensures numbers { map (λ t. t.pass.number) result.items ≡ map (λ i. i + 1) (range_with_len 0 (length drafts.items)) }
        ensures names { map (λ t. t.names.items) result.items ≡ map (λ d. d.names.items) drafts.items }
    {
        let mut tasks = room;
        let mut number = 0;
        for draft in drafts {
            number += 1;
            let pass = self.split(table, number, draft.lists);
            tasks.push_reserved(Task {
                pass,
                names: draft.names,
                answers: draft.answers,
            });
        }
        tasks
    }

    /// The owner takes over what all passes did and learned, the last first, and in this order come what they did. For that there is room.
    pub fn join_tasks(
        &mut self,
        table: &MeshTable,
        tasks: Vec<Task>,
        room: Vec<Joined>,
    ) -> Vec<Joined>
        requires fit { IsOf table.now.table.shared.table_id self.old.seat }
        requires passes { All (IsWorkers table.now.table.shared.table_id table.now.site) tasks.items }
        requires room { (room.items ≡ []) × (length tasks.items ≤ vec_capacity room) }
        ensures stays { Stays self.old.seat self.new.seat }
        ensures joined { sight self.new.seat ≡ joined_all (sight self.old.seat) (map (λ t. sight t.pass.seat) tasks.items) }
        ensures names { map (λ d. d.names.items) result.items ≡ reverse (map (λ t. t.names.items) tasks.items) }
        ensures answers { map (λ d. d.answers.items) result.items ≡ reverse (map (λ t. t.answers.items) tasks.items) }
        ensures lists { map (λ d. d.lists) result.items ≡ reverse (map (λ t. t.pass.lists) tasks.items) }
        ensures claims { (sight self.new.seat).claims ≡ (sight self.old.seat).claims ++ all_claims table.now.site.layout (map (λ d. d.lists) result.items) }
    {
        let mut rest = tasks;
        let mut joined = room;
        while let Some(task) = rest.pop() {
            let number = task.pass.number;
            let lists = self.join(table, task.pass);
            joined.push_reserved(Joined {
                number,
                names: task.names,
                answers: task.answers,
                lists,
            });
        }
        joined
    }
}

// Names, and room for what is done with them.
#[derive(Drop)]
struct Draft {
    names: Vec<ElemName>,
    answers: Vec<Result<Done, ClaimRefusal>>,
    lists: Lists,
    ghost empty: { answers.items ≡ [] },
    ghost room: { length names.items ≤ vec_capacity answers },
    ghost blank: { AreEmpty lists },
}

fn draft_of(alloc: Global, names: Vec<ElemName>, pool: u32) -> Result<Draft, AllocError>
    ensures names { IfOk result (λ d. d.names.items ≡ names.items) }
    ensures room { IfOk result (λ d. HasRoom pool d.names.items d.lists) }
{
    let answers = Vec::with_capacity(alloc, names.len())?;
    let room = if names.is_empty() { 0 } else { pool as usize };
    let lists = Lists::with_room(alloc, room)?;
    Ok(Draft {
        names,
        answers,
        lists,
    })
}

fn drafts(alloc: Global, work: Vec<Vec<ElemName>>, pool: u32) -> Result<Vec<Draft>, AllocError>
    ensures names { IfOk result (λ ds. map (λ d. d.names.items) ds.items ≡ map (λ w. w.items) work.items) }
    ensures room { IfOk result (λ ds. All (λ d. HasRoom pool d.names.items d.lists) ds.items) }
{
    let mut drafts = Vec::with_capacity(alloc, work.len())?;
    for names in work {
        drafts.push(draft_of(alloc, names, pool)?)?;
    }
    Ok(drafts)
}
