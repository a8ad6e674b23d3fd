//! The ROUND word.
ghost use Rattle.std.specs.Prelude.{◌≡◌};
ghost use Rattle.table_words.specs.Rounds.{round_of, round_word};

/// The last finished round, and how many pins of it were taken.
#[derive(Clone, Copy, Debug, PartialEq, Eq)]
pub struct RoundPins {
    pub finished: u32,
    pub taken: u32,
}

impl RoundPins {
    /// The word: the round in the upper 32 bits, the pins in the lower.
    pub fn spell(self) -> u64
        ensures { result ≡ round_word self }
    {
        u64::from(self.finished) * 4294967296 + u64::from(self.taken)
    }

    /// What a word spells.
    pub fn read(word: u64) -> RoundPins
        ensures { result ≡ round_of word }
    {
        RoundPins {
            finished: (word / 4294967296) as u32,
            taken: (word % 4294967296) as u32,
        }
    }
}
