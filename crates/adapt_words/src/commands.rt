//! The commands as `clap` has them.
ghost use Rattle.std.specs.Prelude.{◌≡◌, false, true, fold, map, string_bytes, IfOk};
ghost use Rattle.clap.specs.Words.{App, app_of, found_of, is_simple_and_free, new_app, rows_of, rule_of, with_rule};
ghost use Rattle.adapt_words.specs.Commands.{required, option, flag, find_app, found_in, join_app, mark_app, mend_app, resume_app, run_app, save_app, soak_app, with_limits};
ghost use Rattle.adapt_words.specs.Words.{Answers};

use crate::words::WordsRefusal;
use clap::error::ErrorKind;
use clap::{Arg, ArgAction, ArgMatches, Command};
use std::alloc::{AllocError, Global};

// A word that has to stand at its place.
fn required_arg<'a>(alloc: Global, id: &'a str) -> Arg<'a>
    ensures rule { rule_of result ≡ required id.entry.now }
    ensures local { result.global ≡ false }
{
    Arg::new(alloc, id).required(true).action(ArgAction::Set)
}

// `--id VALUE`.
fn option_arg<'a>(alloc: Global, id: &'a str) -> Arg<'a>
    ensures rule { rule_of result ≡ option id.entry.now }
    ensures local { result.global ≡ false }
{
    Arg::new(alloc, id).long(id).action(ArgAction::Set)
}

// `--id`.
fn flag_arg<'a>(alloc: Global, id: &'a str) -> Arg<'a>
    ensures rule { rule_of result ≡ flag id.entry.now }
    ensures local { result.global ≡ false }
{
    Arg::new(alloc, id).long(id).action(ArgAction::SetTrue)
}

// A command of this name with words that have to stand.
fn taking<'a>(alloc: Global, name: &'a str, ids: &[&'a str]) -> Result<Command<'a>, AllocError>
    ensures { IfOk result (λ command. app_of command ≡ fold with_rule (new_app name.entry.now) (map (λ id. required id.now) ids.entry.now)) }
{
    let mut command = Command::new(alloc, name);
    for id in ids {
        command = command.arg(required_arg(alloc, id))?;
    }
    Ok(command)
}

// The same, with `--workers N` and `--pool P`.
fn with_limits<'a>(alloc: Global, command: Command<'a>) -> Result<Command<'a>, AllocError>
    ensures { IfOk result (λ new. app_of new ≡ with_limits (app_of command.entry)) }
{
    command
        .arg(option_arg(alloc, "workers"))?
        .arg(option_arg(alloc, "pool"))
}

/// `run MACRO MARKS [--workers N] [--pool P] [--report]`.
pub(crate) fn run_command<'a>(alloc: Global) -> Result<Command<'a>, AllocError>
    ensures { IfOk result (λ command. app_of command ≡ run_app) }
{
    with_limits(alloc, taking(alloc, "run", &["macro", "marks"])?)?.arg(flag_arg(alloc, "report"))
}

/// `soak START GRID ROUNDS [--workers N] [--pool P]`.
pub(crate) fn soak_command<'a>(alloc: Global) -> Result<Command<'a>, AllocError>
    ensures { IfOk result (λ command. app_of command ≡ soak_app) }
{
    with_limits(alloc, taking(alloc, "soak", &["start", "grid", "rounds"])?)
}

/// `mark MACRO MARKS RULE [--workers N] [--pool P]`.
pub(crate) fn mark_command<'a>(alloc: Global) -> Result<Command<'a>, AllocError>
    ensures { IfOk result (λ command. app_of command ≡ mark_app) }
{
    with_limits(alloc, taking(alloc, "mark", &["macro", "marks", "rule"])?)
}

/// `save MACRO MARKS [--workers N] [--pool P]`.
pub(crate) fn save_command<'a>(alloc: Global) -> Result<Command<'a>, AllocError>
    ensures { IfOk result (λ command. app_of command ≡ save_app) }
{
    with_limits(alloc, taking(alloc, "save", &["macro", "marks"])?)
}

/// `join FIRST SECOND`.
pub(crate) fn join_command<'a>(alloc: Global) -> Result<Command<'a>, AllocError>
    ensures { IfOk result (λ command. app_of command ≡ join_app) }
{
    taking(alloc, "join", &["first", "second"])
}

/// `resume RESTART MARKS [--workers N] [--pool P]`.
pub(crate) fn resume_command<'a>(alloc: Global) -> Result<Command<'a>, AllocError>
    ensures { IfOk result (λ command. app_of command ≡ resume_app) }
{
    with_limits(alloc, taking(alloc, "resume", &["restart", "marks"])?)
}

/// `find MACRO MARKS POINTS [--workers N] [--pool P]`.
pub(crate) fn find_command<'a>(alloc: Global) -> Result<Command<'a>, AllocError>
    ensures { IfOk result (λ command. app_of command ≡ find_app) }
{
    with_limits(alloc, taking(alloc, "find", &["macro", "marks", "points"])?)
}

/// `mend MACRO`.
pub(crate) fn mend_command<'a>(alloc: Global) -> Result<Command<'a>, AllocError>
    ensures { IfOk result (λ command. app_of command ≡ mend_app) }
{
    taking(alloc, "mend", &["macro"])
}

/// What a command finds in the words, of which the first is its own; want of memory where the
/// command itself had none.
pub(crate) fn found<'a>(
    command: Result<Command<'a>, AllocError>,
    words: &'a [String],
) -> Result<ArgMatches<'a>, WordsRefusal>
    requires { IfOk command (λ c. is_simple_and_free (app_of c) ≡ true) }
    ensures { (app : App) → IfOk command.entry (λ c. app_of c ≡ app) → Answers (λ matches. rows_of (found_of matches)) (found_in app (map string_bytes words.entry.now)) result }
{
    match command {
        Ok(command) => found_by(command, words),
        Err(_) => Err(WordsRefusal::Memory),
    }
}

// What this command finds in the words.
fn found_by<'a>(command: Command<'a>, words: &'a [String]) -> Result<ArgMatches<'a>, WordsRefusal>
    requires { is_simple_and_free (app_of command) ≡ true }
    ensures { Answers (λ matches. rows_of (found_of matches)) (found_in (app_of command.entry) (map string_bytes words.entry.now)) result }
{
    match command.try_get_matches_from(words) {
        Ok(matches) => Ok(matches),
        Err(error) => Err(refusal(error.kind())),
    }
}

// What an error of `clap` says of the words.
fn refusal(kind: ErrorKind) -> WordsRefusal
    ensures memory { kind ≡ ErrorKind.OutOfMemory → result ≡ WordsRefusal.Memory }
{
    match kind {
        ErrorKind::OutOfMemory => WordsRefusal::Memory,
        _ => WordsRefusal::Outside,
    }
}
