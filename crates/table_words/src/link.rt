//! LINK and HISTORY words.
ghost use Rattle.std.specs.Prelude.{◌≡◌};
ghost use Rattle.table_words.specs.Links.{IsLink, link_of, link_word};

/// A LINK or HISTORY word taken apart.
///
/// A LINK word names the newest block at an element's place, and is claimed while a patch is being
/// bisected. A HISTORY word has no claim, and names the block that was there before.
#[derive(Clone, Copy, Debug, PartialEq, Eq)]
pub struct Link {
    pub claimed: bool,
    /// The block, below 2097151.
    pub block: Option<u32>,
    /// The round in which the block was retired, below 65536; 0 while it is not retired.
    pub died: u32,
}

impl Link {
    /// The word: the claim in bit 0, one more than the block in bits 1 to 21, the retired round in
    /// bits 22 to 37.
    pub fn spell(self) -> u64
        requires { IsLink self }
        ensures { result ≡ link_word self }
    {
        let block = match self.block {
            None => 0,
            Some(block) => u64::from(block) + 1,
        };
        u64::from(self.died) * 4194304 + block * 2 + u64::from(self.claimed)
    }

    /// What the low 38 bits of a word spell.
    pub fn read(word: u64) -> Link
        ensures { result ≡ link_of word }
    {
        let block = word / 2 % 2097152;
        Link {
            claimed: word % 2 == 1,
            block: if block == 0 {
                None
            } else {
                Some((block - 1) as u32)
            },
            died: (word / 4194304 % 65536) as u32,
        }
    }
}
