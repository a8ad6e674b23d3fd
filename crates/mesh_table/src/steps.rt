//! One load, one store and one of each other kind of atomic step, of a seat whose step is proved to keep the rule.
ghost use Rattle.std.specs.Prelude.{◌≡◌, ℕ, ◌+◌, ◌%◌, ◌^◌, ◌<◌, bit_or};
ghost use Rattle.atomic_table.specs.Table.{Allows};
ghost use Rattle.table_words.specs.Layout.{word_count};
ghost use Rattle.mesh_table.specs.Holds.{Holds, Sat};
ghost use Rattle.mesh_table.specs.Told.{IsOf};

use crate::rule::{MeshSeat, View};
use crate::table::MeshTable;
use atomic_table::Play;
use std::marker::{Brand, PhantomData};

/// What a step tells its seat: of what the seat had, of the number found (or stored), and of what the seat has then.
pub trait Tells {
    ghost tells: { Sat → ℕ → Sat → Type 0 };
}

impl Tells for Brand {
    ghost tells = { λ m n w. Unit {0} };
}

pub(crate) struct Told<B: Tells> {
    of: PhantomData<B>,
}

impl<B: Tells> Play<(), View> for Told<B> {
    ghost then = { λ st. B.tells };
}

// What a call is asked, only the pick of what it tells reads.
impl<'m> MeshTable<'m> {
    /// Loads a word: what the load tells is what `tells` says of the words before it.
    pub fn get<B: Tells, A: Copy>(&self, seat: &mut MeshSeat, index: usize, asked: A) -> u64
        requires fit { IsOf self.now.table.shared.table_id seat.old }
        requires within { index < word_count self.now.site.layout }
        requires allowed { (slots : ℕ) → Allows (Holds self.now.site) slots seat.old.id seat.old.me index (λ n. n) (B.tells seat.old.me) }
        ensures table { seat.new.table_id ≡ seat.old.table_id }
        ensures seat { seat.new.id ≡ seat.old.id }
        ensures told { B.tells seat.old.me result seat.new.me }
    {
        let _asked = asked;
        self.table.shared.load::<Told<B>>(seat, index)
    }

    /// Stores a word.
    pub(crate) fn put<B: Tells, A: Copy>(
        &self,
        seat: &mut MeshSeat,
        index: usize,
        word: u64,
        asked: A,
    )
        requires fit { IsOf self.now.table.shared.table_id seat.old }
        requires within { index < word_count self.now.site.layout }
        requires allowed { (slots : ℕ) → Allows (Holds self.now.site) slots seat.old.id seat.old.me index (λ n. word) (λ n. B.tells seat.old.me word) }
        ensures table { seat.new.table_id ≡ seat.old.table_id }
        ensures seat { seat.new.id ≡ seat.old.id }
        ensures told { B.tells seat.old.me word seat.new.me }
    {
        let _asked = asked;
        self.table.shared.store::<Told<B>>(seat, index, word);
    }

    /// Stores a word, and answers the old one.
    pub(crate) fn exchange<B: Tells, A: Copy>(
        &self,
        seat: &mut MeshSeat,
        index: usize,
        word: u64,
        asked: A,
    ) -> u64
        requires fit { IsOf self.now.table.shared.table_id seat.old }
        requires within { index < word_count self.now.site.layout }
        requires allowed { (slots : ℕ) → Allows (Holds self.now.site) slots seat.old.id seat.old.me index (λ n. word) (B.tells seat.old.me) }
        ensures table { seat.new.table_id ≡ seat.old.table_id }
        ensures seat { seat.new.id ≡ seat.old.id }
        ensures told { B.tells seat.old.me result seat.new.me }
    {
        let _asked = asked;
        self.table.shared.swap::<Told<B>>(seat, index, word)
    }

    /// Sets bits of a word, and answers the old one.
    pub(crate) fn set_bits<B: Tells, A: Copy>(
        &self,
        seat: &mut MeshSeat,
        index: usize,
        bits: u64,
        asked: A,
    ) -> u64
        requires fit { IsOf self.now.table.shared.table_id seat.old }
        requires within { index < word_count self.now.site.layout }
        requires allowed { (slots : ℕ) → Allows (Holds self.now.site) slots seat.old.id seat.old.me index (λ n. bit_or n bits) (B.tells seat.old.me) }
        ensures table { seat.new.table_id ≡ seat.old.table_id }
        ensures seat { seat.new.id ≡ seat.old.id }
        ensures told { B.tells seat.old.me result seat.new.me }
    {
        let _asked = asked;
        self.table.shared.fetch_or::<Told<B>>(seat, index, bits)
    }

    /// Counts a word up by one, and answers the old number.
    pub(crate) fn count<B: Tells, A: Copy>(
        &self,
        seat: &mut MeshSeat,
        index: usize,
        asked: A,
    ) -> u64
        requires fit { IsOf self.now.table.shared.table_id seat.old }
        requires within { index < word_count self.now.site.layout }
        requires allowed { (slots : ℕ) → Allows (Holds self.now.site) slots seat.old.id seat.old.me index (λ n. (n + 1) % 2 ^ 64) (B.tells seat.old.me) }
        ensures table { seat.new.table_id ≡ seat.old.table_id }
        ensures seat { seat.new.id ≡ seat.old.id }
        ensures told { B.tells seat.old.me result seat.new.me }
    {
        let _asked = asked;
        self.table.shared.fetch_add::<Told<B>>(seat, index, 1)
    }
}
