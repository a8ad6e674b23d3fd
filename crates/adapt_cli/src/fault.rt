//! Faults: a status, and the line on err that goes with it.
ghost use Rattle.std.specs.Prelude.{◌≡◌, [], ◌∷◌, IfOk, Some, codes, string_bytes};
ghost use Rattle.adapt_cli.specs.Stops.{IsRefusedWith, IsRoundStop};
ghost use Rattle.std.specs.Fmt.{decimal};
ghost use Rattle.adapt_cli.specs.FaultTexts.{at_row, joined, marks_line, round_fault};

use forest_plain::refusal::RoundRefusal;
use mark_file::refusal::MarkRefusal;
use std::alloc::{AllocError, Global};

/// A refusal, as the program tells it.
#[derive(Debug, Drop)]
pub struct Fault {
    pub status: u8,
    pub line: String,
}

/// Why there is no text to write.
#[derive(Debug, Drop)]
pub enum Stop {
    /// A file or a round is refused.
    Refused(Fault),
    /// Want of memory.
    Memory,
}

/// Why a command with files has no text to write.
#[derive(Debug, Drop)]
pub enum FileStop<'a> {
    /// A file or a round is refused, or there is no memory.
    Stopped(Stop),
    /// The file of this name could not be loaded.
    Unread(&'a str),
}

impl From<AllocError> for Stop {
    ghost use Rattle.std.specs.Prelude.{◌≡◌};
    ghost use Rattle.adapt_cli.specs.declared.fault.Stop.TheVariants.{Memory};

    ghost from_gives = { λ _ s. s ≡ Memory };

    fn from(_error: AllocError) -> Stop {
        Stop::Memory
    }
}

/// The stop with this status and line; want of memory where there is no line.
pub(crate) fn refused(status: u8, line: Result<String, AllocError>) -> Stop
    ensures { IsRefusedWith status line result }
{
    match line {
        Ok(line) => Stop::Refused(Fault { status, line }),
        Err(_) => Stop::Memory,
    }
}

// A fault of a row of the marks file.
fn at_row(alloc: Global, row: u32, what: &str) -> Result<String, AllocError>
    ensures { IfOk result (λ t. string_bytes t ≡ at_row row what.now) }
{
    format!(in alloc; "adapt: marks: row {row}: {what}\n")
}

/// The line of a marks file that is refused.
pub fn marks_line(alloc: Global, refusal: &MarkRefusal) -> Result<String, AllocError>
    ensures { IfOk result (λ t. marks_line refusal.now ≡ Some (string_bytes t)) }
{
    match *refusal {
        MarkRefusal::BadHeader { row } => at_row(alloc, row, "bad header"),
        MarkRefusal::BadFields { row } => at_row(alloc, row, "bad fields"),
        MarkRefusal::BadRound { row } => at_row(alloc, row, "bad round"),
        MarkRefusal::RoundsFall { row } => at_row(alloc, row, "rounds fall"),
        MarkRefusal::BadWhat { row } => at_row(alloc, row, "bad what"),
        MarkRefusal::BadWhere { row } => at_row(alloc, row, "bad where"),
        MarkRefusal::BadNumber { row } => at_row(alloc, row, "bad number"),
        MarkRefusal::TooMany { row } => at_row(alloc, row, "too many rows"),
        MarkRefusal::Memory => Err(AllocError),
    }
}

/// The stop at a round that is refused; want of memory for want of memory.
pub fn round_stop(alloc: Global, round: u32, refusal: RoundRefusal) -> Stop
    ensures { IsRoundStop round refusal result }
{
    match round_fault(alloc, round, refusal) {
        Ok(fault) => Stop::Refused(fault),
        Err(_) => Stop::Memory,
    }
}

// What becomes of a round that is refused. The rounds of a plain forest are never used up.
fn round_fault(alloc: Global, round: u32, refusal: RoundRefusal) -> Result<Fault, AllocError>
    ensures { IfOk result (λ f. round_fault round refusal ≡ Some (f.status, string_bytes f.line)) }
{
    let fault = match refusal {
        RoundRefusal::NotALeaf { row } => Fault {
            status: 4,
            line: at_row(alloc, row, "not a leaf")?,
        },
        RoundRefusal::LevelTooDeep { row, level } => Fault {
            status: 4,
            line: too_deep(alloc, row, level)?,
        },
        RoundRefusal::PoolFull { needed, pool, .. } => Fault {
            status: 5,
            line: pool_full(alloc, round, needed, pool)?,
        },
        RoundRefusal::RoundsUsedUp { rounds: _ } => return Err(AllocError),
        RoundRefusal::Memory => return Err(AllocError),
    };
    Ok(fault)
}

// The row asks for too many bisections.
fn too_deep(alloc: Global, row: u32, level: u32) -> Result<String, AllocError>
    ensures { IfOk result (λ t. string_bytes t ≡ at_row row (joined (codes "level " ∷ decimal level ∷ codes " is above 24" ∷ []))) }
{
    let what = format!(in alloc; "level {level} is above 24")?;
    at_row(alloc, row, &what)
}

// The round needs too many patches.
fn pool_full(alloc: Global, round: u32, needed: u32, pool: u32) -> Result<String, AllocError>
    ensures { IfOk result (λ t. string_bytes t ≡ joined (codes "adapt: round " ∷ decimal round ∷ codes ": " ∷ decimal needed ∷ codes " patches needed, pool " ∷ decimal pool ∷ codes "\n" ∷ [])) }
{
    format!(in alloc; "adapt: round {round}: {needed} patches needed, pool {pool}\n")
}
