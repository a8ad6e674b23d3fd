//! Numbers that look random, and the marks that they stand for.
ghost use Rattle.std.specs.Prelude.{◌≡◌, ◌<◌, ◌≤◌, IfSome, nat_abs};
ghost use Rattle.soak.specs.Draws.{drawn as drawn_of, mark_at as mark_of_level, mark_for as mark_of_number, next_state};
ghost use Rattle.soak.specs.Rows.{next_row as row_after_row};

use std::marker::Model;

/// A generator, whose state goes on from round to round, and the number of the run's last row.
///
/// Rows are counted over the whole run, as in a marks file whose header is row 1: the first row
/// has number 2, and from 4294967295 on all have that number.
#[derive(Debug, Drop)]
pub struct Draws {
    state: u32,
    row: u32,
}

impl Model for Draws {
    ghost use Rattle.std.specs.Prelude.{◌<◌};
    ghost use Rattle.soak.specs.Rows.{Drawing};

    ghost Value = { Drawing };

    ghost view = { λ d. record { state = d.state; row = d.row } };

    ghost invariant = { λ d. d.state < 65537 };

    ghost inverse = { λ d. record { state = d.state; row = d.row } };
}

impl Draws {
    /// The generator in this state, before any row.
    pub fn new(start: u32) -> Draws
        requires { start ≤ 65535 }
        ensures { result ≡ record { state = start; row = 1 } }
    {
        Draws {
            state: start,
            row: 1,
        }
    }

    /// Draws a number from 0 to 15.
    pub fn next(&mut self) -> u32
        ensures state { self.new ≡ record { state = next_state self.old.state; row = self.old.row } }
        ensures drawn { result ≡ drawn_of self.new.state }
    {
        self.state = (75 * self.state + 74) % 65537;
        self.state % 16
    }

    // Counts a row, and answers its number.
    pub(crate) fn next_row(&mut self) -> u32
        ensures counted { self.new ≡ record { state = self.old.state; row = row_after_row self.old.row } }
        ensures row { result ≡ self.new.row }
    {
        self.row = self.row.saturating_add(1);
        self.row
    }
}

// The mark that a number stands for; `None` where it stands for no row.
fn mark_for(number: u32) -> Option<i64>
    ensures mark { result ≡ mark_of_number number }
    ensures small { IfSome result (λ mark. nat_abs mark ≤ 2) }
{
    match number {
        0 | 1 => Some(1),
        2 => Some(2),
        3..=5 => Some(-1),
        _ => None,
    }
}

// The mark of a leaf of this level for which this number is drawn; `None` where it has no row.
pub(crate) fn mark_at(level: u32, number: u32) -> Option<i64>
    ensures mark { result ≡ mark_of_level level number }
    ensures small { IfSome result (λ mark. nat_abs mark ≤ 2) }
{
    let mark = mark_for(number)?;
    if mark > 0 && i64::from(level) + mark > 24 {
        return None;
    }
    Some(mark)
}
