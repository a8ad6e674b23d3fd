//! Where the words of a table lie.
ghost use Rattle.std.specs.Prelude.{◌≡◌, ◌<◌, ◌≤◌};
ghost use Rattle.table_words.specs.Layout.{Born, Cursor, Died, FreeCount, HistoryOf, IsWord, LinkOf, NameOf, OfBlock, Released, Round, Row, Seats, address, word_count};

/// The place of an element: that of a macro element, or child 0 to 3 of a block. Children 0 and 1
/// are those of the block's first member, children 2 and 3 those of the second.
#[derive(Clone, Copy, Debug, PartialEq, Eq)]
pub enum ElemAt {
    Macro(u32),
    Child { block: u32, child: u8 },
}

/// How large a table is: how many rounds can be finished, and how many macro elements and blocks
/// it has.
///
/// The words are SEATS, ROUND, CURSOR and FREE; RELEASED of each round from 0 on; LINK of each
/// macro element; the free rows; and of each block BORN, DIED, the two NAME words, the two HISTORY
/// words and LINK of its four children.
#[derive(Clone, Copy, Debug)]
pub struct Layout {
    pub rounds: u32,
    pub elements: u32,
    pub pool: u32,
}

/// SEATS, read when a seat is split or joined.
pub const SEATS: usize = 0;
/// ROUND, the last finished round and its pins.
pub const ROUND: usize = 1;
/// CURSOR, how many free rows were drawn in the current round.
pub const CURSOR: usize = 2;
/// FREE, how many free rows the current round has.
pub const FREE: usize = 3;

impl Layout {
    /// How many words the table has.
    pub fn word_count(self) -> usize
        ensures { result ≡ word_count self }
    {
        5 + self.rounds as usize + self.elements as usize + 11 * self.pool as usize
    }

    /// How many of a round's pins were given back.
    pub fn released(self, round: u32) -> usize
        requires { IsWord self (Released round) }
        ensures { result ≡ address self (Released round) }
    {
        4 + round as usize
    }

    /// The LINK word of an element.
    pub fn link(self, at: ElemAt) -> usize
        requires { IsWord self (LinkOf at) }
        ensures { result ≡ address self (LinkOf at) }
    {
        match at {
            ElemAt::Macro(element) => 5 + self.rounds as usize + element as usize,
            ElemAt::Child { block, child } => self.block(block) + 6 + child as usize,
        }
    }

    /// A free row.
    pub fn row(self, number: u32) -> usize
        requires { IsWord self (Row number) }
        ensures { result ≡ address self (Row number) }
    {
        5 + self.rounds as usize + self.elements as usize + number as usize
    }

    /// The first of the ten words of a block.
    fn block(self, block: u32) -> usize
        ensures { result ≡ address self (OfBlock block Born) }
    {
        5 + self.rounds as usize + self.elements as usize + self.pool as usize + 10 * block as usize
    }

    /// The round in which a block was published, or 0.
    pub fn born(self, block: u32) -> usize
        requires { IsWord self (OfBlock block Born) }
        ensures { result ≡ address self (OfBlock block Born) }
    {
        self.block(block)
    }

    /// The round in which a block was retired, or 0.
    pub fn died(self, block: u32) -> usize
        requires { IsWord self (OfBlock block Died) }
        ensures { result ≡ address self (OfBlock block Died) }
    {
        self.block(block) + 1
    }

    /// The name of a block's first or second member.
    pub fn name(self, block: u32, second: bool) -> usize
        requires { IsWord self (OfBlock block (NameOf second)) }
        ensures { result ≡ address self (OfBlock block (NameOf second)) }
    {
        self.block(block) + 2 + second as usize
    }

    /// The block that a block's first or second member had before.
    pub fn history(self, block: u32, second: bool) -> usize
        requires { IsWord self (OfBlock block (HistoryOf second)) }
        ensures { result ≡ address self (OfBlock block (HistoryOf second)) }
    {
        self.block(block) + 4 + second as usize
    }
}
