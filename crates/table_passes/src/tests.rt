//! Worked calls on the square of two elements.
ghost use Rattle.std.specs.Prelude.{◌≡◌, ◌≤◌, All, IfOk, false, vec_capacity};
ghost use Rattle.compat_check.specs.Meshes.{shape_of};
ghost use Rattle.table_words.specs.Entries.{HasEntry};
ghost use Rattle.table_words.specs.Views.{FirstHalf};
ghost use Rattle.table_state.specs.Lists.{IsClosed};
ghost use Rattle.mesh_table.specs.Sights.{setup_at};
ghost use Rattle.mesh_table.specs.Told.{IsOf, sight};
ghost use Rattle.table_passes.specs.Answers.{CanRefine, IsAimed};
ghost use Rattle.table_passes.specs.Kept.{HasKept};

use crate::lists::Lists;
use crate::owner::{OwnerSeat, can_bisect, new_table};
use crate::pass::Pass;
use crate::tasks::work_all;
use compat_check::{MacroMesh, check};
use macro_file::read_macro;
use mesh_io::{Gate, GatePoint, NoGate};
use mesh_names::name::ElemName;
use mesh_table::table::MeshTable;
use patch_claims::needs::ClaimRefusal;
use patch_claims::refine::Done;
use patch_walk::climbs::climb;
use patch_walk::places::locate;
use std::alloc::{AllocError, Global};
use std::sync::atomic::{AtomicU64, Ordering};
use std::test::Fail;
use std::thread::{Threads, join_mut};

// Two elements that share their refinement edge.
const SQUARE: &str = "number of vertices: 4
number of elements: 2
vertex coordinates: 0 0 1 0 1 1 0 1
element vertices: 2 0 1 0 2 3
";

fn square(alloc: Global) -> Result<MacroMesh, AllocError> {
    let text = read_macro(alloc, SQUARE.as_bytes()).map_err(|_| AllocError)?;
    check(alloc, text).map_err(|_| AllocError)
}

// The first round of a table begins, which needs these names.
fn begun<'m>(
    alloc: Global,
    mesh: &'m MacroMesh,
    pool: u32,
    needs: &[ElemName],
) -> Result<(MeshTable<'m>, OwnerSeat), AllocError>
    requires pool { pool ≤ 1048576 }
    ensures fit { IfOk result (λ r. IsOf r.0.table.shared.table_id r.1.seat) }
    ensures half { IfOk result (λ r. (sight r.1.seat).ruling.phase ≡ FirstHalf) }
    ensures alone { IfOk result (λ r. (sight r.1.seat).ruling.lone ≡ false) }
    ensures mesh { IfOk result (λ r. r.0.site.mesh.now ≡ mesh.now) }
    ensures closed { IfOk result (λ r. IsClosed (setup_at r.0.site) (HasEntry (sight r.1.seat).ruling.plan.target)) }
    ensures pool { IfOk result (λ r. r.0.site.layout.pool ≡ pool) }
    ensures aimed { IfOk result (λ r. All (IsAimed (shape_of mesh.now) (sight r.1.seat).ruling.plan.target) needs.now) }
{
    if !can_bisect(mesh, needs) {
        return Err(AllocError);
    }
    let (table, mut owner) = new_table(alloc, mesh, pool, 4, 2)?;
    owner.begin(&table, needs);
    Ok((table, owner))
}

// How many patches a call published; none where it was refused.
fn published(answer: &Result<Done, ClaimRefusal>) -> Option<u32> {
    match answer {
        Ok(Done::Published(patches)) => Some(*patches),
        Ok(Done::Already) => Some(0),
        Err(_) => None,
    }
}

// What three calls for two names answer.
fn three_calls<R: Threads + Sync>(
    rt: &R,
    alloc: Global,
    table: &MeshTable,
    owner: &mut OwnerSeat,
    first: ElemName,
    second: ElemName,
    pool: u32,
) -> Result<[Option<u32>; 3], AllocError>
    requires fit { IsOf table.now.table.shared.table_id owner.old.seat }
    requires half { (sight owner.old.seat).ruling.phase ≡ FirstHalf }
    requires alone { (sight owner.old.seat).ruling.lone ≡ false }
    requires closed { IsClosed (setup_at table.now.site) (HasEntry (sight owner.old.seat).ruling.plan.target) }
    requires pool { pool ≡ table.now.site.layout.pool }
    requires first { IsAimed (shape_of table.now.site.mesh.now) (sight owner.old.seat).ruling.plan.target first }
    requires second { IsAimed (shape_of table.now.site.mesh.now) (sight owner.old.seat).ruling.plan.target second }
{
    let names = vec![in alloc; first, second, first]?;
    let mut tasks = owner.split_tasks(table, alloc, vec![in alloc; names]?, pool)?;
    work_all(rt, table, tasks.as_mut_slice(), &NoGate);
    let mut answers = [None, None, None];
    for task in tasks.as_slice() {
        if let [one, two, three] = task.answers.as_slice() {
            answers = [published(one), published(two), published(three)];
        }
    }
    Ok(answers)
}

#[test]
fn names_are_refined_with_all_above_them(rt: HostRuntime) -> Result<(), Fail> {
    let alloc = rt.alloc();
    let mesh = square(alloc)?;
    let top = ElemName::top(0);
    let needs = [top, top.child_at(false), top.child_at(true)];
    let far = needs[1].child_at(true).child_at(true);
    let low = mesh.element_count() == 2 && mesh.level(far) <= 24;
    assert!(rt; low);
    let (table, mut owner) = begun(alloc, &mesh, 4, &needs)?;
    let mut scout = owner.split(&table, 2, Lists::with_room(alloc, 0)?);
    let round = scout.working();
    assert_eq!(rt; climb(&table, &mut scout.seat, needs[1], round), Some(top));
    let answers = three_calls(&rt, alloc, &table, &mut owner, needs[1], needs[2], 4)?;
    assert_eq!(rt; answers, [Some(2), Some(1), Some(0)]);
    assert_eq!(rt; climb(&table, &mut scout.seat, needs[1], round), None);
    let found = locate(&table, &mut scout.seat, far, round);
    assert_eq!(rt; found.depth, 2);
    assert_eq!(rt; found.block, None);
    Ok(())
}

#[test]
fn a_draw_beyond_the_free_blocks_is_refused(rt: HostRuntime) -> Result<(), Fail> {
    let alloc = rt.alloc();
    let mesh = square(alloc)?;
    let top = ElemName::top(0);
    let needs = [top, top.child_at(false), top.child_at(true)];
    let (table, mut owner) = begun(alloc, &mesh, 1, &needs)?;
    let mut pass = owner.split(&table, 1, Lists::with_room(alloc, 1)?);
    let answer = pass.refine(&table, needs[1], &NoGate);
    let full = matches!(
        answer,
        Err(ClaimRefusal::Full {
            drawn: 1,
            free: 1,
            ..
        })
    );
    assert!(rt; full);
    let blocks = pass.lists.published.as_slice().len();
    assert_eq!(rt; blocks, 1);
    assert!(rt; pass.lists.failed.is_some());
    Ok(())
}

// What two threads tell each other.
#[derive(Drop)]
struct Hold {
    claimed: AtomicU64,
    answered: AtomicU64,
    late: AtomicU64,
}

// Whether a word comes to be above 0 within ten million turns.
fn comes(word: &AtomicU64) -> bool {
    for _ in 0..10_000_000 {
        if word.load(Ordering::SeqCst) > 0 {
            return true;
        }
    }
    false
}

// Worker 1 is held at its claim until the other has its answer.
impl Gate for Hold {
    fn at(&self, point: GatePoint, worker: u32) {
        if point == GatePoint::Claimed && worker == 1 {
            self.claimed.store(1, Ordering::SeqCst);
            if !comes(&self.answered) {
                self.late.store(1, Ordering::SeqCst);
            }
        }
    }
}

// A call that is made once worker 1 is held.
fn call_meanwhile(
    table: &MeshTable,
    pass: &mut Pass,
    name: ElemName,
    hold: &Hold,
) -> Option<Result<Done, ClaimRefusal>>
    requires fit { IsOf table.now.table.shared.table_id pass.old.seat }
    requires can { CanRefine (setup_at table.now.site) (sight pass.old.seat) }
    requires aimed { IsAimed (shape_of table.now.site.mesh.now) (sight pass.old.seat).work.plan.target name }
    requires kept { HasKept table.now.site pass.old }
    requires room { table.now.site.layout.pool ≤ vec_capacity pass.old.lists.published }
{
    if !comes(&hold.claimed) {
        return None;
    }
    let answer = pass.refine(table, name, &NoGate);
    hold.answered.store(1, Ordering::SeqCst);
    Some(answer)
}

// Whether the patch of this owner was claimed, and its LINK word was 1.
fn is_deferred(answer: &Result<Done, ClaimRefusal>, by: ElemName) -> bool {
    match answer {
        Err(ClaimRefusal::Deferred { owner, old_word }) => *owner == by && *old_word == 1,
        _ => false,
    }
}

// Two passes refine a name each, the second while the first is held.
fn call_both<R: Threads + Sync>(
    rt: &R,
    table: &MeshTable,
    one: &mut Pass,
    two: &mut Pass,
    first: ElemName,
    second: ElemName,
    hold: &Hold,
) -> (
    Result<Done, ClaimRefusal>,
    Option<Result<Done, ClaimRefusal>>,
)
    requires one { IsOf table.now.table.shared.table_id one.old.seat × CanRefine (setup_at table.now.site) (sight one.old.seat) }
    requires one_list { HasKept table.now.site one.old × (table.now.site.layout.pool ≤ vec_capacity one.old.lists.published) }
    requires two { IsOf table.now.table.shared.table_id two.old.seat × CanRefine (setup_at table.now.site) (sight two.old.seat) }
    requires two_list { HasKept table.now.site two.old × (table.now.site.layout.pool ≤ vec_capacity two.old.lists.published) }
    requires first { IsAimed (shape_of table.now.site.mesh.now) (sight one.old.seat).work.plan.target first }
    requires second { IsAimed (shape_of table.now.site.mesh.now) (sight two.old.seat).work.plan.target second }
{
    join_mut(
        rt,
        &mut || one.refine(table, first, hold),
        &mut || call_meanwhile(table, two, second, hold),
    )
}

#[test]
fn a_claim_of_another_pass_defers(rt: HostRuntime) -> Result<(), Fail> {
    let alloc = rt.alloc();
    let mesh = square(alloc)?;
    let zero = ElemName::top(0);
    let beside = ElemName::top(1);
    let needs = [zero, beside];
    let (table, mut owner) = begun(alloc, &mesh, 4, &needs)?;
    let mut one = owner.split(&table, 1, Lists::with_room(alloc, 4)?);
    let mut two = owner.split(&table, 2, Lists::with_room(alloc, 4)?);
    let hold = Hold {
        claimed: AtomicU64::new(0),
        answered: AtomicU64::new(0),
        late: AtomicU64::new(0),
    };
    let (first, second) = call_both(&rt, &table, &mut one, &mut two, zero, beside, &hold);
    let published = matches!(first, Ok(Done::Published(1)));
    assert!(rt; published);
    let deferred = match &second {
        Some(answer) => is_deferred(answer, zero),
        None => false,
    };
    assert!(rt; deferred);
    assert_eq!(rt; hold.late.load(Ordering::SeqCst), 0);
    Ok(())
}
