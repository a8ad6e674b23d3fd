//! Marks for the next round.
ghost use Rattle.std.specs.Prelude.{◌≡◌, ◌+◌, ◌++◌, ◌<◌, ◌≤◌, All, IfErr, IfOk, List, OnOk, Ok, codes, length, map, string_bytes};
ghost use Rattle.std.specs.List.{concat};
ghost use Rattle.mesh_names.specs.Marks.{IsWellFormed};
ghost use Rattle.mesh_names.specs.Names.{Name};
ghost use Rattle.dof_transfer.specs.Held.{worth_of};
ghost use Rattle.mark_file.specs.Meaning.{rounds_read};
ghost use Rattle.mark_file.specs.Written.{row_line};
ghost use Rattle.mark_strategy.specs.Leaves.{AreLeaves};
ghost use Rattle.mesh_rounds.specs.Adaptive.{mesh_of, state_of};
ghost use Rattle.adapt_words.specs.Rounds.{IsMarkInRange, mark_said};
ghost use Rattle.adapt_cli.specs.Marks.{Chooses, IsMarksText, IsNoRoundLeft, MarkAsks, MarkLeads, MarksTo, marking, marks_text};
ghost use Rattle.adapt_cli.specs.Stops.{IsStop, IsTextOf, StopsBy};

use crate::fault::{FileStop, Stop, refused};
use crate::load::{load_macro, load_marks};
use crate::rounds::run_rounds;
use adapt_words::{Mark, Rule};
use compat_check::mesh::MacroMesh;
use forest_tree::forest::TreeForest;
use mark_file::refusal::MarkRefusal;
use mark_file::write::put_row;
use mark_strategy::{StrategyRefusal, mark_bulk, mark_equal, mark_max};
use mesh_io::Shelf;
use mesh_names::name::ElemName;
use mesh_names::rows::{MarkRow, Place, RoundMarks, What};
use mesh_rounds::adaptive::AdaptiveMesh;
use std::alloc::{AllocError, Global};

// How many rounds a marks file can have.
const ROUNDS: usize = 65_535;

/// The marks file that a call for marks writes, or why there is none.
pub fn mark_text<'a, S: Shelf>(
    alloc: Global,
    mark: &Mark<'a>,
    shelf: &mut S,
) -> Result<Vec<u8>, FileStop<'a>>
    requires { IsMarkInRange mark.now }
    ensures ok { IfOk result (λ text. IsTextOf (MarkLeads (mark_said mark.now)) (S.files shelf.old) (S.faults shelf.old) (S.faults shelf.new) text.items) }
    ensures stopped { IfErr result (IsStop (MarkLeads (mark_said mark.now)) (MarkAsks (mark_said mark.now)) (S.files shelf.old) (S.steady shelf.old) (S.faults shelf.old) (S.faults shelf.new)) }
{
    let mesh = match load_macro(alloc, shelf, mark.macro_file) {
        Ok(mesh) => mesh,
        Err(stop) => return Err(stop),
    };
    let rounds = match load_marks(alloc, shelf, mark.marks_file) {
        Ok(rounds) => rounds,
        Err(stop) => return Err(stop),
    };
    match next_marks(alloc, &mesh, mark, &rounds) {
        Ok(text) => Ok(text),
        Err(stop) => Err(FileStop::Stopped(stop)),
    }
}

// The marks after these rounds on a mesh, where one more can follow them.
fn next_marks(
    alloc: Global,
    mesh: &MacroMesh,
    mark: &Mark<'_>,
    rounds: &[RoundMarks],
) -> Result<Vec<u8>, Stop>
    requires ranges { IsMarkInRange mark.now }
    requires formed { All (λ r. All IsWellFormed r.rows.items) rounds.now }
    ensures ok { IfOk result (λ text. MarksTo mesh.now (mark_said mark.now) (rounds_read rounds.now) (Ok text.items)) }
    ensures stopped { IfErr result (StopsBy (MarksTo mesh.now (mark_said mark.now) (rounds_read rounds.now))) }
{
    if rounds.len() >= ROUNDS {
        return Err(no_round_left(alloc));
    }
    mark_leaves(alloc, mesh, mark, rounds)
}

/// The stop where no round is left; want of memory where there is none for its line.
pub(crate) fn no_round_left(alloc: Global) -> Stop
    ensures { StopsBy IsNoRoundLeft result }
{
    refused(4, format!(in alloc; "adapt: marks: no round left\n"))
}

// The marks after these rounds on a mesh.
fn mark_leaves(
    alloc: Global,
    macro_mesh: &MacroMesh,
    mark: &Mark<'_>,
    rounds: &[RoundMarks],
) -> Result<Vec<u8>, Stop>
    requires ranges { IsMarkInRange mark.now }
    requires left { length rounds.now < 65535 }
    requires formed { All (λ r. All IsWellFormed r.rows.items) rounds.now }
    ensures ok { IfOk result (λ text. MarksTo macro_mesh.now (mark_said mark.now) (rounds_read rounds.now) (Ok text.items)) }
    ensures stopped { IfErr result (StopsBy (MarksTo macro_mesh.now (mark_said mark.now) (rounds_read rounds.now))) }
{
    let forest = TreeForest::new(alloc, macro_mesh, mark.pool);
    let Ok(mut mesh) = AdaptiveMesh::new(alloc, macro_mesh, forest) else {
        return Err(Stop::Memory);
    };
    if let Err(stop) = run_rounds(alloc, &mut mesh, rounds) {
        return Err(stop);
    }
    state_marks(alloc, &mut mesh, &mark.rule, rounds.len() as u32 + 1)
}

// The marks that the rule gives on a mesh.
fn state_marks(
    alloc: Global,
    mesh: &mut AdaptiveMesh<'_, TreeForest<'_>>,
    rule: &Rule,
    round: u32,
) -> Result<Vec<u8>, Stop>
    requires round { (1 ≤ round) × (round ≤ 65535) }
    ensures ok { IfOk result (λ text. IsMarksText (mesh_of mesh.old) rule.now round (state_of mesh.old) text.items) }
    ensures memory { IfErr result (λ stop. stop ≡ Stop.Memory) }
{
    let Ok(leaves) = mesh.leaves() else {
        return Err(Stop::Memory);
    };
    let leaves = with_their_values(alloc, mesh, &leaves)?;
    let Ok(chosen) = choose(alloc, &leaves, rule) else {
        return Err(Stop::Memory);
    };
    match marks_of(alloc, round, &chosen) {
        Ok(text) => Ok(text),
        Err(_) => Err(Stop::Memory),
    }
}

// The leaves, each with its value.
fn with_their_values(
    alloc: Global,
    mesh: &AdaptiveMesh<'_, TreeForest<'_>>,
    leaves: &[ElemName],
) -> Result<Vec<(ElemName, i64)>, AllocError>
    ensures { IfOk result (λ pairs. pairs.items ≡ map (λ n. (n, worth_of (state_of mesh.now).elements n)) leaves.now) }
{
    let Ok(worths) = mesh.leaf_values(leaves) else {
        return Err(AllocError);
    };
    let mut pairs = Vec::with_capacity(alloc, leaves.len())?;
    for at in 0..leaves.len() {
        pairs.push((leaves[at], worths[at]))?;
    }
    Ok(pairs)
}

// The leaves that the rule chooses.
fn choose(
    alloc: Global,
    leaves: &[(ElemName, i64)],
    rule: &Rule,
) -> Result<Vec<ElemName>, StrategyRefusal>
    requires { AreLeaves leaves.now }
    ensures { IfOk result (λ names. Chooses rule.now leaves.now names.items) }
{
    match *rule {
        Rule::Max(share) => mark_max(alloc, leaves, share),
        Rule::Bulk(share) => mark_bulk(alloc, leaves, share),
        Rule::Equal(goal) => mark_equal(alloc, leaves, goal),
    }
}

// A marks file whose one round marks these leaves.
fn marks_of(alloc: Global, round: u32, names: &[ElemName]) -> Result<Vec<u8>, MarkRefusal>
    requires { (1 ≤ round) × (round ≤ 65535) }
    ensures { IfOk result (λ text. text.items ≡ marks_text round names.now) }
{
    let mut text = header(alloc)?;
    for name in names {
        put_row(&mut text, round, &marking(*name))?;
    }
    Ok(text)
}

// The header of a marks file.
fn header(alloc: Global) -> Result<Vec<u8>, MarkRefusal>
    ensures { IfOk result (λ text. text.items ≡ codes "round,what,where,number\n") }
{
    let mut text = Vec::new(alloc);
    if text
        .extend_from_slice(b"round,what,where,number\n")
        .is_err()
    {
        return Err(MarkRefusal::Memory);
    }
    Ok(text)
}

// The row that marks a leaf for one bisection.
fn marking(name: ElemName) -> MarkRow
    ensures { result ≡ marking name }
{
    MarkRow {
        row: 0,
        what: What::Mark,
        place: Place::Elem(name),
        number: 1,
    }
}
