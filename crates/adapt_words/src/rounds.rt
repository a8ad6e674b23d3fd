//! The commands that make rounds: a run, a soak, and a call for marks.
ghost use Rattle.std.specs.Prelude.{◌≡◌, map, option_map, string_bytes, IfOk, IfSome};
ghost use Rattle.clap.specs.Words.{found_of, rows_of};
ghost use Rattle.adapt_words.specs.Rounds.{IsMarkInRange, IsRunInRange, IsSoakInRange, mark_of, mark_said, run_of, run_said, soak_of, soak_said};
ghost use Rattle.adapt_words.specs.Rounds as spec;
ghost use Rattle.adapt_words.specs.Words.{Answers};

use crate::commands::{found, mark_command, run_command, soak_command};
use crate::rules::{Rule, rule_in};
use crate::values::{is_given, number_of, pool_in, word_of, workers_in};
use crate::words::WordsRefusal;
use clap::ArgMatches;
use std::alloc::Global;

/// A run over a macro file and a marks file.
#[derive(Clone, Copy, Debug, PartialEq, Eq)]
pub struct Run<'a> {
    pub macro_file: &'a str,
    pub marks_file: &'a str,
    pub workers: u32,
    pub pool: u32,
    pub report: bool,
}

/// Random rounds on a grid.
#[derive(Clone, Copy, Debug, PartialEq, Eq)]
pub struct Soak {
    pub start: u32,
    pub grid: u32,
    pub rounds: u32,
    pub workers: u32,
    pub pool: u32,
}

/// Marks for the leaves that a run leads to, by their values.
#[derive(Clone, Copy, Debug, PartialEq, Eq)]
pub struct Mark<'a> {
    pub macro_file: &'a str,
    pub marks_file: &'a str,
    pub rule: Rule,
    pub workers: u32,
    pub pool: u32,
}

/// The run that the words give, of which the first is `run`.
pub(crate) fn read_run<'a>(alloc: Global, words: &'a [String]) -> Result<Run<'a>, WordsRefusal>
    ensures told { Answers run_said (run_of (map string_bytes words.entry.now)) result }
    ensures ranges { IfOk result IsRunInRange }
{
    let matches = found(run_command(alloc), words)?;
    run_in(&matches).ok_or(WordsRefusal::Outside)
}

// The run that was found.
fn run_in<'a>(matches: &ArgMatches<'a>) -> Option<Run<'a>>
    ensures told { option_map run_said result ≡ spec.run_in (rows_of (found_of matches.now)) }
    ensures ranges { IfSome result IsRunInRange }
{
    Some(Run {
        macro_file: word_of(matches, "macro")?,
        marks_file: word_of(matches, "marks")?,
        workers: workers_in(matches)?,
        pool: pool_in(matches)?,
        report: is_given(matches, "report"),
    })
}

/// The soak that the words give, of which the first is `soak`.
pub(crate) fn read_soak(alloc: Global, words: &[String]) -> Result<Soak, WordsRefusal>
    ensures told { Answers soak_said (soak_of (map string_bytes words.entry.now)) result }
    ensures ranges { IfOk result IsSoakInRange }
{
    let matches = found(soak_command(alloc), words)?;
    soak_in(&matches).ok_or(WordsRefusal::Outside)
}

// The soak that was found.
fn soak_in(matches: &ArgMatches<'_>) -> Option<Soak>
    ensures told { option_map soak_said result ≡ spec.soak_in (rows_of (found_of matches.now)) }
    ensures ranges { IfSome result IsSoakInRange }
{
    Some(Soak {
        start: number_of(matches, "start", 0, 65_535)?,
        grid: number_of(matches, "grid", 1, 128)?,
        rounds: number_of(matches, "rounds", 1, 64)?,
        workers: workers_in(matches)?,
        pool: pool_in(matches)?,
    })
}

/// The marks that the words ask for, of which the first is `mark`.
pub(crate) fn read_mark<'a>(alloc: Global, words: &'a [String]) -> Result<Mark<'a>, WordsRefusal>
    ensures told { Answers mark_said (mark_of (map string_bytes words.entry.now)) result }
    ensures ranges { IfOk result IsMarkInRange }
{
    let matches = found(mark_command(alloc), words)?;
    let Some(mark) = mark_in(&matches) else {
        return Err(WordsRefusal::Outside);
    };
    Ok(mark)
}

// The marks that were found.
fn mark_in<'a>(matches: &ArgMatches<'a>) -> Option<Mark<'a>>
    ensures told { option_map mark_said result ≡ spec.mark_in (rows_of (found_of matches.now)) }
    ensures ranges { IfSome result IsMarkInRange }
{
    let macro_file = word_of(matches, "macro")?;
    let marks_file = word_of(matches, "marks")?;
    Some(Mark {
        macro_file,
        marks_file,
        rule: rule_of(matches)?,
        workers: workers_in(matches)?,
        pool: pool_in(matches)?,
    })
}

// The rule that was found.
fn rule_of(matches: &ArgMatches<'_>) -> Option<Rule>
    ensures { result ≡ spec.rule_of (rows_of (found_of matches.now)) }
{
    rule_in(word_of(matches, "rule")?)
}
