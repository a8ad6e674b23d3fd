//! The words of the program.
ghost use Rattle.std.specs.Prelude.{◌≡◌, map, string_bytes, IfOk};
ghost use Rattle.adapt_words.specs.Words.{Answers, IsInRange, command_of, said};

use crate::finding::{Find, read_find};
use crate::mending::{Mend, read_mend};
use crate::restarts::{Join, Resume, Save, read_join, read_resume, read_save};
use crate::rounds::{Mark, Run, Soak, read_mark, read_run, read_soak};
use std::alloc::Global;

/// The lines on err for words that are outside the form.
pub const USAGE: &str =
    "usage: adapt run MACRO MARKS [--workers N] [--pool P] [--report]\n       adapt soak START GRID ROUNDS [--workers N] [--pool P]\n       adapt mark MACRO MARKS RULE [--workers N] [--pool P]\n       adapt save MACRO MARKS [--workers N] [--pool P]\n       adapt join FIRST SECOND\n       adapt resume RESTART MARKS [--workers N] [--pool P]\n       adapt find MACRO MARKS POINTS [--workers N] [--pool P]\n       adapt mend MACRO\n";

/// What the words ask for.
#[derive(Clone, Copy, Debug, PartialEq, Eq)]
pub enum Command<'a> {
    /// `run MACRO MARKS [--workers N] [--pool P] [--report]`.
    Run(Run<'a>),
    /// `soak START GRID ROUNDS [--workers N] [--pool P]`.
    Soak(Soak),
    /// `mark MACRO MARKS RULE [--workers N] [--pool P]`.
    Mark(Mark<'a>),
    /// `save MACRO MARKS [--workers N] [--pool P]`.
    Save(Save<'a>),
    /// `join FIRST SECOND`.
    Join(Join<'a>),
    /// `resume RESTART MARKS [--workers N] [--pool P]`.
    Resume(Resume<'a>),
    /// `find MACRO MARKS POINTS [--workers N] [--pool P]`.
    Find(Find<'a>),
    /// `mend MACRO`.
    Mend(Mend<'a>),
}

/// Why no command was read.
#[derive(Clone, Copy, Debug, PartialEq, Eq)]
pub enum WordsRefusal {
    /// The words are outside the form.
    Outside,
    /// Memory ran out.
    Memory,
}

/// The command that the words give, after the name of the program.
pub fn read_words<'a>(alloc: Global, words: &'a [String]) -> Result<Command<'a>, WordsRefusal>
    ensures told { Answers said (command_of (map string_bytes words.entry.now)) result }
    ensures ranges { IfOk result IsInRange }
{
    let Some(first) = words.first() else {
        return Err(WordsRefusal::Outside);
    };
    match first.as_str() {
        "run" => Ok(Command::Run(read_run(alloc, words)?)),
        "soak" => Ok(Command::Soak(read_soak(alloc, words)?)),
        "mark" => match read_mark(alloc, words) {
            Ok(mark) => Ok(Command::Mark(mark)),
            Err(refusal) => Err(refusal),
        },
        "save" => Ok(Command::Save(read_save(alloc, words)?)),
        "join" => Ok(Command::Join(read_join(alloc, words)?)),
        "resume" => Ok(Command::Resume(read_resume(alloc, words)?)),
        "find" => Ok(Command::Find(read_find(alloc, words)?)),
        "mend" => Ok(Command::Mend(read_mend(alloc, words)?)),
        _ => Err(WordsRefusal::Outside),
    }
}
