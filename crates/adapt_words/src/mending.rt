//! The command that mends a macro file.
ghost use Rattle.std.specs.Prelude.{◌≡◌, map, option_map, string_bytes};
ghost use Rattle.clap.specs.Words.{found_of, rows_of};
ghost use Rattle.adapt_words.specs.Mending.{mend_of, mend_said};
ghost use Rattle.adapt_words.specs.Mending as spec;
ghost use Rattle.adapt_words.specs.Words.{Answers};

use crate::commands::{found, mend_command};
use crate::values::word_of;
use crate::words::WordsRefusal;
use clap::ArgMatches;
use std::alloc::Global;

/// A macro file that is to be made compatible.
#[derive(Clone, Copy, Debug, PartialEq, Eq)]
pub struct Mend<'a> {
    pub macro_file: &'a str,
}

/// What the words say, of which the first is `mend`.
pub(crate) fn read_mend<'a>(alloc: Global, words: &'a [String]) -> Result<Mend<'a>, WordsRefusal>
    ensures { Answers mend_said (mend_of (map string_bytes words.entry.now)) result }
{
    let matches = found(mend_command(alloc), words)?;
    mend_in(&matches).ok_or(WordsRefusal::Outside)
}

// What was found for `mend`.
fn mend_in<'a>(matches: &ArgMatches<'a>) -> Option<Mend<'a>>
    ensures { option_map mend_said result ≡ spec.mend_in (rows_of (found_of matches.now)) }
{
    Some(Mend {
        macro_file: word_of(matches, "macro")?,
    })
}
