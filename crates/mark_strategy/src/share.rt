//! Shares of a whole.
ghost use Rattle.std.specs.Prelude.{◌≡◌, ◌≤◌};
ghost use Rattle.mark_strategy.specs.Shares.{share_of};

use std::marker::Model;

/// The greatest whole of a share.
const LARGEST_WHOLE: u32 = 1_000_000;

/// So many parts of a whole: at most all of them, of a whole from 1 to 1,000,000.
#[derive(Clone, Copy, Debug, PartialEq, Eq)]
pub struct Share {
    part: u32,
    whole: u32,
}

impl Model for Share {
    ghost use Rattle.mark_strategy.specs.Shares.{Fraction, IsShare};

    ghost Value = { Fraction };

    ghost view = { λ s. record { part = s.part; whole = s.whole } };

    ghost invariant = { λ s. IsShare s.part s.whole };

    ghost inverse = { λ f. record { part = f.part; whole = f.whole } };

    ghost inverse_ok = { λ s h i. record { part = s.part; whole = s.whole } };
}

impl Share {
    /// The share of these numbers; `None` exactly where they are no share.
    #[tactic(auto, unfolding(crate::specs::Shares::share_of))]
    pub fn new(part: u32, whole: u32) -> Option<Share>
        ensures { result ≡ share_of part whole }
    {
        if part > whole || whole == 0 || whole > LARGEST_WHOLE {
            return None;
        }
        Some(Share { part, whole })
    }

    /// How many parts, at most the whole.
    pub fn part(self) -> u32
        ensures part { result ≡ self.part }
        ensures within { result ≤ self.whole }
        ensures small { result ≤ 1000000 }
    {
        self.part
    }

    /// The whole, from 1 to 1,000,000.
    pub fn whole(self) -> u32
        ensures whole { result ≡ self.whole }
        ensures some { 1 ≤ result }
        ensures small { result ≤ 1000000 }
    {
        self.whole
    }
}
