//! The leaves that have points.
ghost use Rattle.std.specs.Prelude.{◌≡◌, ◌≤◌, [], ◌∷◌, All, IfErr, IfOk, Ok, Some, codes, length, string_bytes, true};
ghost use Rattle.mesh_names.specs.Marks.{IsWellFormed};
ghost use Rattle.compat_check.specs.Within.{IsWithin};
ghost use Rattle.mark_file.specs.Meaning.{rounds_read};
ghost use Rattle.adapt_words.specs.Finding.{IsFindInRange, find_said};
ghost use Rattle.adapt_cli.specs.Finding.{AcceptsPoints, FindAsks, FindLeads, FindsTo, RefusesPoints, at_point, points_limit, points_line};
ghost use Rattle.adapt_cli.specs.Stops.{Gives, IsLoadStop, IsStop, IsTextOf, RefusesBy, StopsBy};

use crate::fault::{FileStop, Stop, refused};
use crate::load::{load_bytes, load_macro, load_marks};
use crate::rounds::run_rounds;
use adapt_words::Find;
use compat_check::mesh::MacroMesh;
use forest_tree::forest::TreeForest;
use locate_point::{Point, PointRefusal, put_places, read_points};
use mesh_io::Shelf;
use mesh_names::rows::RoundMarks;
use mesh_rounds::adaptive::AdaptiveMesh;
use std::alloc::{AllocError, Global};

// The greatest length of a points file, in bytes, and what is told of a longer one.
const POINTS_LIMIT: u64 = 16_777_216;

const POINTS_TOO_LONG: &str = "adapt: points: longer than 16777216 bytes\n";

/// A line for each point with the name of its leaf after a run, or `none`; or why there are none.
pub fn find_text<'a, S: Shelf>(
    alloc: Global,
    find: &Find<'a>,
    shelf: &mut S,
) -> Result<Vec<u8>, FileStop<'a>>
    requires { IsFindInRange find.now }
    ensures ok { IfOk result (λ text. IsTextOf (FindLeads (find_said find.now)) (S.files shelf.old) (S.faults shelf.old) (S.faults shelf.new) text.items) }
    ensures stopped { IfErr result (IsStop (FindLeads (find_said find.now)) (FindAsks (find_said find.now)) (S.files shelf.old) (S.steady shelf.old) (S.faults shelf.old) (S.faults shelf.new)) }
{
    let mesh = match load_macro(alloc, shelf, find.macro_file) {
        Ok(mesh) => mesh,
        Err(stop) => return Err(stop),
    };
    let rounds = match load_marks(alloc, shelf, find.marks_file) {
        Ok(rounds) => rounds,
        Err(stop) => return Err(stop),
    };
    let points = match load_points(alloc, shelf, find.points_file) {
        Ok(points) => points,
        Err(stop) => return Err(stop),
    };
    match places(alloc, &mesh, find, &rounds, &points) {
        Ok(text) => Ok(text),
        Err(stop) => Err(FileStop::Stopped(stop)),
    }
}

// The points of a points file.
fn load_points<'a, S: Shelf>(
    alloc: Global,
    shelf: &mut S,
    name: &'a str,
) -> Result<Vec<Point>, FileStop<'a>>
    ensures ok { IfOk result (λ points. Gives (λ bytes. AcceptsPoints bytes points.items) name.now (S.files shelf.old) (S.faults shelf.old) (S.faults shelf.new)) }
    ensures within { IfOk result (λ points. All IsWithin points.items) }
    ensures stopped { IfErr result (IsLoadStop RefusesPoints 4 name.now (S.files shelf.old) (S.steady shelf.old) (S.faults shelf.old) (S.faults shelf.new)) }
    ensures same { S.files shelf.new ≡ S.files shelf.old }
    ensures stays { S.steady shelf.old ≡ true → S.steady shelf.new ≡ true }
{
    let bytes = match load_bytes(alloc, shelf, name, POINTS_LIMIT, 4, POINTS_TOO_LONG) {
        Ok(bytes) => bytes,
        Err(stop) => return Err(stop),
    };
    match points_of(alloc, &bytes) {
        Ok(points) => Ok(points),
        Err(stop) => Err(FileStop::Stopped(stop)),
    }
}

// The points of these bytes.
fn points_of(alloc: Global, bytes: &[u8]) -> Result<Vec<Point>, Stop>
    requires { length bytes.now ≤ points_limit }
    ensures ok { IfOk result (λ points. AcceptsPoints bytes.now points.items) }
    ensures within { IfOk result (λ points. All IsWithin points.items) }
    ensures stopped { IfErr result (RefusesBy 4 (RefusesPoints bytes.now)) }
{
    match read_points(alloc, bytes) {
        Ok(points) => Ok(points),
        Err(refusal) => Err(refused(4, points_line(alloc, refusal))),
    }
}

// The line of a points file that is refused.
fn points_line(alloc: Global, refusal: PointRefusal) -> Result<String, AllocError>
    ensures { IfOk result (λ t. points_line refusal ≡ Some (string_bytes t)) }
{
    match refusal {
        PointRefusal::BadPoint { line } => at_point(alloc, line, "bad point"),
        PointRefusal::PointRange { line } => at_point(alloc, line, "coordinate out of range"),
        PointRefusal::Memory => Err(AllocError),
    }
}

// A fault of a line of the points file.
fn at_point(alloc: Global, line: u32, what: &str) -> Result<String, AllocError>
    ensures { IfOk result (λ t. string_bytes t ≡ at_point line what.now) }
{
    format!(in alloc; "adapt: points: line {line}: {what}\n")
}

// The places of the points after these rounds on a mesh.
fn places(
    alloc: Global,
    macro_mesh: &MacroMesh,
    find: &Find<'_>,
    rounds: &[RoundMarks],
    points: &[Point],
) -> Result<Vec<u8>, Stop>
    requires ranges { IsFindInRange find.now }
    requires formed { All (λ r. All IsWellFormed r.rows.items) rounds.now }
    requires within { All IsWithin points.now }
    ensures ok { IfOk result (λ text. FindsTo macro_mesh.now (find_said find.now) (rounds_read rounds.now) points.now (Ok text.items)) }
    ensures stopped { IfErr result (StopsBy (FindsTo macro_mesh.now (find_said find.now) (rounds_read rounds.now) points.now)) }
{
    let forest = TreeForest::new(alloc, macro_mesh, find.pool);
    let Ok(mut mesh) = AdaptiveMesh::new(alloc, macro_mesh, forest) else {
        return Err(Stop::Memory);
    };
    if let Err(stop) = run_rounds(alloc, &mut mesh, rounds) {
        return Err(stop);
    }
    let Ok(leaves) = mesh.leaves() else {
        return Err(Stop::Memory);
    };
    match put_places(alloc, macro_mesh, &leaves, points) {
        Ok(text) => Ok(text),
        Err(_) => Err(Stop::Memory),
    }
}
