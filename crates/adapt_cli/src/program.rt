//! The top call.
ghost use Rattle.std.specs.Prelude.{◌≡◌, Some, map, string_bytes};
ghost use Rattle.adapt_words.specs.Words as spec;
ghost use Rattle.adapt_words.specs.Rounds.{IsSoakInRange, soak_said};
ghost use Rattle.adapt_words.specs.Words.{command_of};
ghost use Rattle.adapt_cli.specs.Ending.{Ends, Finishes, Source, StopEnds};

use crate::ending::{MEMORY, write_line, write_read_fault, write_text};
use crate::fault::{FileStop, Stop};
use crate::finding::find_text;
use crate::joining::join_text;
use crate::marking::mark_text;
use crate::mending::mend_text;
use crate::outcome::run_text;
use crate::resuming::resume_text;
use crate::saving::save_text;
use crate::soaking::soak_text;
use adapt_words::{Command, Soak, USAGE, WordsRefusal, read_words};
use mesh_io::{Gate, Shelf, Sink};
use std::alloc::Global;
use std::thread::Threads;

/// Runs the program on its words, which are those after its name, and answers its status.
///
/// `run MACRO MARKS [--workers N] [--pool P] [--report]` reads a macro triangulation and rounds of
/// marks from the shelf and writes the mesh after the last round to `out`, or with `--report` a line
/// for each round, or else one line that says what is wrong to `err`.
/// `soak START GRID ROUNDS [--workers N] [--pool P]` makes rounds of marks, drawn from START, on a
/// grid of GRID squares in a row, and writes one line.
/// `mark MACRO MARKS RULE [--workers N] [--pool P]` makes the rounds of a run, and writes a marks file
/// whose one round, the next, marks the leaves that RULE chooses by their values.
/// `save MACRO MARKS [--workers N] [--pool P]` writes the restart file of the forest after the last round,
/// `join FIRST SECOND` that of the least common refinement of two, and
/// `resume RESTART MARKS [--workers N] [--pool P]` goes on from one with the rounds of a marks file.
/// Out is written only when its whole text is there.
///
/// | Status | Comes |
/// |---|---|
/// | 0 | the text was written |
/// | 1 | want of memory |
/// | 2 | the words are of no form |
/// | 3 | the macro file is too long, malformed, or no mesh on which bisection is well defined |
/// | 4 | the marks file is too long or malformed, or marks what is no leaf or goes too deep, or leaves `mark` no round |
/// | 5 | a round needs more patches than the pool has |
/// | 6 | a file could not be read |
/// | 7 | a write failed |
pub fn adapt<R: Threads + Sync, S: Shelf, O: Sink, E: Sink, G: Gate + Sync>(
    rt: &R,
    alloc: Global,
    words: &[String],
    shelf: &mut S,
    out: &mut O,
    err: &mut E,
    _gate: &G,
) -> u8
    ensures { Ends (record { source = record { command = command_of (map string_bytes words.now); files = S.files shelf.old; steady = S.steady shelf.old; before = S.faults shelf.old; now = S.faults shelf.new }; out = record { old = O.holds out.old; new = O.holds out.new; before = O.faults out.old; now = O.faults out.new }; err = record { old = E.holds err.old; new = E.holds err.new; before = E.faults err.old; now = E.faults err.new }; status = result }) }
{
    match read_words(alloc, words) {
        Ok(Command::Run(run)) => finish(run_text(rt, alloc, &run, shelf), out, err),
        Ok(Command::Soak(soak)) => end_soak(rt, alloc, &soak, out, err),
        Ok(Command::Mark(mark)) => finish(mark_text(alloc, &mark, shelf), out, err),
        Ok(Command::Find(find)) => finish(find_text(alloc, &find, shelf), out, err),
        Ok(Command::Mend(mend)) => finish(mend_text(alloc, &mend, shelf), out, err),
        Ok(Command::Save(save)) => finish(save_text(alloc, &save, shelf), out, err),
        Ok(Command::Join(join)) => finish(join_text(alloc, &join, shelf), out, err),
        Ok(Command::Resume(resume)) => finish(resume_text(rt, alloc, &resume, shelf), out, err),
        Err(WordsRefusal::Outside) => write_line(err, USAGE, 2),
        Err(WordsRefusal::Memory) => write_line(err, MEMORY, 1),
    }
}

// Makes a soak, and writes what it leads to. It has no files, so that no load can fail.
fn end_soak<R: Threads + Sync, O: Sink, E: Sink>(
    rt: &R,
    alloc: Global,
    soak: &Soak,
    out: &mut O,
    err: &mut E,
) -> u8
    requires { IsSoakInRange soak.now }
    ensures { (source : Source) → source.command ≡ Some (spec.soak (soak_said soak.now)) → source.now ≡ source.before → Ends (record { source = source; out = record { old = O.holds out.old; new = O.holds out.new; before = O.faults out.old; now = O.faults out.new }; err = record { old = E.holds err.old; new = E.holds err.new; before = E.faults err.old; now = E.faults err.new }; status = result }) }
{
    match soak_text(rt, alloc, soak) {
        Ok(text) => write_text(out, err, &text),
        Err(stop) => write_stop(stop, err),
    }
}

// Writes the text that a command with files led to, or the line of what stopped it.
fn finish<O: Sink, E: Sink>(ended: Result<Vec<u8>, FileStop<'_>>, out: &mut O, err: &mut E) -> u8
    ensures { Finishes ended.entry (record { old = O.holds out.old; new = O.holds out.new; before = O.faults out.old; now = O.faults out.new }) (record { old = E.holds err.old; new = E.holds err.new; before = E.faults err.old; now = E.faults err.new }) result }
{
    match ended {
        Ok(text) => write_text(out, err, &text),
        Err(FileStop::Stopped(stop)) => write_stop(stop, err),
        Err(FileStop::Unread(name)) => write_read_fault(err, name),
    }
}

// Writes the line of a stop to err.
fn write_stop<E: Sink>(stop: Stop, err: &mut E) -> u8
    ensures { StopEnds stop (record { old = E.holds err.old; new = E.holds err.new; before = E.faults err.old; now = E.faults err.new }) result }
{
    match stop {
        Stop::Refused(fault) => write_line(err, &fault.line, fault.status),
        Stop::Memory => write_line(err, MEMORY, 1),
    }
}
