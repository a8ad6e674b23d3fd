//! The command that finds the leaves of points.
ghost use Rattle.std.specs.Prelude.{◌≡◌, map, option_map, string_bytes, IfOk, IfSome};
ghost use Rattle.clap.specs.Words.{found_of, rows_of};
ghost use Rattle.adapt_words.specs.Finding.{IsFindInRange, find_of, find_said};
ghost use Rattle.adapt_words.specs.Finding as spec;
ghost use Rattle.adapt_words.specs.Words.{Answers};

use crate::commands::{find_command, found};
use crate::values::{pool_in, word_of, workers_in};
use crate::words::WordsRefusal;
use clap::ArgMatches;
use std::alloc::Global;

/// The leaves that have these points, after a run.
#[derive(Clone, Copy, Debug, PartialEq, Eq)]
pub struct Find<'a> {
    pub macro_file: &'a str,
    pub marks_file: &'a str,
    pub points_file: &'a str,
    pub workers: u32,
    pub pool: u32,
}

/// What the words say, of which the first is `find`.
pub(crate) fn read_find<'a>(alloc: Global, words: &'a [String]) -> Result<Find<'a>, WordsRefusal>
    ensures told { Answers find_said (find_of (map string_bytes words.entry.now)) result }
    ensures ranges { IfOk result IsFindInRange }
{
    let matches = found(find_command(alloc), words)?;
    find_in(&matches).ok_or(WordsRefusal::Outside)
}

// What was found for `find`.
fn find_in<'a>(matches: &ArgMatches<'a>) -> Option<Find<'a>>
    ensures told { option_map find_said result ≡ spec.find_in (rows_of (found_of matches.now)) }
    ensures ranges { IfSome result IsFindInRange }
{
    Some(Find {
        macro_file: word_of(matches, "macro")?,
        marks_file: word_of(matches, "marks")?,
        points_file: word_of(matches, "points")?,
        workers: workers_in(matches)?,
        pool: pool_in(matches)?,
    })
}
