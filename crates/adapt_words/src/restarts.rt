//! The commands of restart files.
ghost use Rattle.std.specs.Prelude.{◌≡◌, map, option_map, string_bytes, IfOk, IfSome};
ghost use Rattle.clap.specs.Words.{found_of, rows_of};
ghost use Rattle.adapt_words.specs.Restarts.{IsResumeInRange, IsSaveInRange, join_of, join_said, resume_of, resume_said, save_of, save_said};
ghost use Rattle.adapt_words.specs.Restarts as spec;
ghost use Rattle.adapt_words.specs.Words.{Answers};

use crate::commands::{found, join_command, resume_command, save_command};
use crate::values::{pool_in, word_of, workers_in};
use crate::words::WordsRefusal;
use clap::ArgMatches;
use std::alloc::Global;

/// A run whose last forest is kept in a restart file.
#[derive(Clone, Copy, Debug, PartialEq, Eq)]
pub struct Save<'a> {
    pub macro_file: &'a str,
    pub marks_file: &'a str,
    pub workers: u32,
    pub pool: u32,
}

/// Two restart files whose forests are joined.
#[derive(Clone, Copy, Debug, PartialEq, Eq)]
pub struct Join<'a> {
    pub first_file: &'a str,
    pub second_file: &'a str,
}

/// A run that goes on from the forest of a restart file.
#[derive(Clone, Copy, Debug, PartialEq, Eq)]
pub struct Resume<'a> {
    pub restart_file: &'a str,
    pub marks_file: &'a str,
    pub workers: u32,
    pub pool: u32,
}

/// What the words say, of which the first is `save`.
pub(crate) fn read_save<'a>(alloc: Global, words: &'a [String]) -> Result<Save<'a>, WordsRefusal>
    ensures told { Answers save_said (save_of (map string_bytes words.entry.now)) result }
    ensures ranges { IfOk result IsSaveInRange }
{
    let matches = found(save_command(alloc), words)?;
    save_in(&matches).ok_or(WordsRefusal::Outside)
}

// What was found for `save`.
fn save_in<'a>(matches: &ArgMatches<'a>) -> Option<Save<'a>>
    ensures told { option_map save_said result ≡ spec.save_in (rows_of (found_of matches.now)) }
    ensures ranges { IfSome result IsSaveInRange }
{
    Some(Save {
        macro_file: word_of(matches, "macro")?,
        marks_file: word_of(matches, "marks")?,
        workers: workers_in(matches)?,
        pool: pool_in(matches)?,
    })
}

/// What the words say, of which the first is `join`.
pub(crate) fn read_join<'a>(alloc: Global, words: &'a [String]) -> Result<Join<'a>, WordsRefusal>
    ensures { Answers join_said (join_of (map string_bytes words.entry.now)) result }
{
    let matches = found(join_command(alloc), words)?;
    join_in(&matches).ok_or(WordsRefusal::Outside)
}

// What was found for `join`.
fn join_in<'a>(matches: &ArgMatches<'a>) -> Option<Join<'a>>
    ensures { option_map join_said result ≡ spec.join_in (rows_of (found_of matches.now)) }
{
    Some(Join {
        first_file: word_of(matches, "first")?,
        second_file: word_of(matches, "second")?,
    })
}

/// What the words say, of which the first is `resume`.
pub(crate) fn read_resume<'a>(
    alloc: Global,
    words: &'a [String],
) -> Result<Resume<'a>, WordsRefusal>
    ensures told { Answers resume_said (resume_of (map string_bytes words.entry.now)) result }
    ensures ranges { IfOk result IsResumeInRange }
{
    let matches = found(resume_command(alloc), words)?;
    resume_in(&matches).ok_or(WordsRefusal::Outside)
}

// What was found for `resume`.
fn resume_in<'a>(matches: &ArgMatches<'a>) -> Option<Resume<'a>>
    ensures told { option_map resume_said result ≡ spec.resume_in (rows_of (found_of matches.now)) }
    ensures ranges { IfSome result IsResumeInRange }
{
    Some(Resume {
        restart_file: word_of(matches, "restart")?,
        marks_file: word_of(matches, "marks")?,
        workers: workers_in(matches)?,
        pool: pool_in(matches)?,
    })
}
