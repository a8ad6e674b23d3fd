//! The owner's seat: a round begins, and passes are made and joined.
ghost use Rattle.std.specs.Prelude.{◌+◌, ◌≡◌, ℕ, List, ◌%◌, ◌<◌, ◌≤◌, [], false};
ghost use Rattle.table_words.specs.Views.{Plan, FirstHalf, Reader, Owner, Worker};
ghost use Rattle.mesh_table.specs.Sights.{setup_at};
ghost use Rattle.mesh_table.specs.Passes.{MayAdvance, MayBegin, MayStamp, advanced, begun, joined, joined_reader, left_by_reader, left_by_split, made_reader, made_worker};
ghost use Rattle.table_words.specs.Layout.{IsElemAt};
ghost use Rattle.table_words.specs.Places.{place_number};
ghost use Rattle.table_words.specs.Words.{node};
ghost use Rattle.mesh_table.specs.Told.{noted_head, IsOf, Stays, moved, sight};

use crate::rule::{MeshSeat, View};
use crate::steps::Tells;
use crate::table::MeshTable;
use atomic_table::{Join, Play, Split};
use std::marker::{Brand, PhantomData};
use table_words::layout::{ElemAt, ROUND, SEATS};
use table_words::link::Link;

/// The lists of a round.
pub trait Plans {
    ghost plan: { Plan };
}

pub(crate) struct Begins<B: Plans> {
    of: PhantomData<B>,
}

impl<B: Plans> Play<(), View> for Begins<B> {
    ghost then = { λ st. moved (λ n v. begun v B.plan) };
}

/// The names that a round leaves.
pub trait Forests {
    ghost forest: { List ℕ };
}

impl Forests for Brand {
    ghost forest = { [] };
}

pub(crate) struct Advances<B: Forests> {
    of: PhantomData<B>,
}

impl<B: Forests> Play<(), View> for Advances<B> {
    ghost then = { λ st. moved (λ n v. advanced v B.forest (n % 4294967296)) };
}

/// The number of a worker's pass.
pub trait Numbers {
    ghost number: { ℕ };
}

impl Numbers for Brand {
    ghost number = { 1 };
}

pub(crate) struct WorkerOf<B: Numbers> {
    of: PhantomData<B>,
}

impl<B: Numbers> Split<View> for WorkerOf<B> {
    ghost left = { left_by_split };

    ghost right = { λ v. made_worker v B.number };
}

pub(crate) struct ReaderOf {
    nothing: (),
}

impl Split<View> for ReaderOf {
    ghost left = { left_by_reader };

    ghost right = { made_reader };
}

pub(crate) struct Readers {
    nothing: (),
}

impl Join<View> for Readers {
    ghost use Rattle.mesh_table.specs.Sights.{nobody};

    ghost both = { joined_reader };

    ghost spent = { nobody };
}

pub(crate) struct Workers {
    nothing: (),
}

impl Join<View> for Workers {
    ghost use Rattle.mesh_table.specs.Sights.{nobody};

    ghost both = { joined };

    ghost spent = { nobody };
}

impl<'m> MeshTable<'m> {
    /// The first half of a round begins, with its lists.
    pub fn begin<B: Plans>(&self, owner: &mut MeshSeat)
        requires fit { IsOf self.now.table.shared.table_id owner.old }
        requires may { MayBegin (setup_at self.now.site) (sight owner.old) B.plan }
        ensures stays { Stays owner.old owner.new }
        ensures begun { sight owner.new ≡ begun (sight owner.old) B.plan }
    {
        self.table.shared.load::<Begins<B>>(owner, SEATS);
    }

    fn split_worker_as<B: Numbers>(&self, owner: &mut MeshSeat, number: u32) -> MeshSeat
        requires fit { IsOf self.now.table.shared.table_id owner.old }
        requires rules { (sight owner.old).kind ≡ Owner }
        requires half { (sight owner.old).ruling.phase ≡ FirstHalf }
        requires alone { (sight owner.old).ruling.lone ≡ false }
        requires number { 0 < number }
        requires asked { B.number ≡ number }
        ensures owner { Stays owner.old owner.new }
        ensures left { sight owner.new ≡ left_by_split (sight owner.old) }
        ensures pass { IsOf self.now.table.shared.table_id result }
        ensures made { sight result ≡ made_worker (sight owner.old) number }
    {
        let _number = number;
        self.table.shared.split_seat::<WorkerOf<B>>(owner)
    }

    /// A worker's pass of the first half.
    pub fn split_worker(&self, owner: &mut MeshSeat, number: u32) -> MeshSeat
        requires fit { IsOf self.now.table.shared.table_id owner.old }
        requires rules { (sight owner.old).kind ≡ Owner }
        requires half { (sight owner.old).ruling.phase ≡ FirstHalf }
        requires alone { (sight owner.old).ruling.lone ≡ false }
        requires number { 0 < number }
        ensures owner { Stays owner.old owner.new }
        ensures left { sight owner.new ≡ left_by_split (sight owner.old) }
        ensures pass { IsOf self.now.table.shared.table_id result }
        ensures made { sight result ≡ made_worker (sight owner.old) number }
    {
        self.split_worker_as::<Brand>(owner, number)
    }

    /// The owner takes over what a worker's pass did and learned.
    pub fn join_worker(&self, owner: &mut MeshSeat, pass: MeshSeat)
        requires fit { IsOf self.now.table.shared.table_id owner.old }
        requires pass { IsOf self.now.table.shared.table_id pass }
        requires rules { (sight owner.old).kind ≡ Owner }
        requires works { (sight pass).kind ≡ Worker }
        ensures owner { Stays owner.old owner.new }
        ensures joined { sight owner.new ≡ joined (sight owner.old) (sight pass) }
    {
        self.table.shared.join_seat::<Workers>(owner, pass);
    }

    /// A reader's pass, where fewer are out than the table was made for, and one.
    pub fn split_reader(&self, owner: &mut MeshSeat) -> MeshSeat
        requires fit { IsOf self.now.table.shared.table_id owner.old }
        requires rules { (sight owner.old).kind ≡ Owner }
        requires few { (sight owner.old).ruling.readers ≤ self.now.site.passes }
        ensures owner { Stays owner.old owner.new }
        ensures left { sight owner.new ≡ left_by_reader (sight owner.old) }
        ensures pass { IsOf self.now.table.shared.table_id result }
        ensures made { sight result ≡ made_reader (sight owner.old) }
    {
        self.table.shared.split_seat::<ReaderOf>(owner)
    }

    /// The owner takes over the notes of a reader's pass without a pin.
    pub fn join_reader(&self, owner: &mut MeshSeat, pass: MeshSeat)
        requires fit { IsOf self.now.table.shared.table_id owner.old }
        requires pass { IsOf self.now.table.shared.table_id pass }
        requires rules { (sight owner.old).kind ≡ Owner }
        requires reads { (sight pass).kind ≡ Reader }
        requires unpinned { (sight pass).read.pin ≡ 0 }
        ensures owner { Stays owner.old owner.new }
        ensures joined { sight owner.new ≡ joined_reader (sight owner.old) (sight pass) }
    {
        self.table.shared.join_seat::<Readers>(owner, pass);
    }

    /// Finishes the closed round in one step: the number of pins that were taken in the last one is
    /// in the lower half of the old word.
    pub fn advance<B: Forests>(&self, owner: &mut MeshSeat, finished: u32) -> u64
        requires fit { IsOf self.now.table.shared.table_id owner.old }
        requires may { MayAdvance (setup_at self.now.site) (sight owner.old) B.forest }
        requires finished { (sight owner.old).ruling.finished ≡ finished }
        requires room { finished < self.now.site.layout.rounds }
        ensures stays { Stays owner.old owner.new }
        ensures advanced { sight owner.new ≡ advanced (sight owner.old) B.forest (result % 4294967296) }
    {
        let next = (u64::from(finished) + 1) * 4294967296;
        self.table.shared.swap::<Advances<B>>(owner, ROUND, next)
    }

    /// Writes the current round into the LINK word of a place, which names a block that was retired in it.
    pub fn stamp(&self, owner: &mut MeshSeat, at: ElemAt, block: u32, claimed: bool, round: u32)
        requires fit { IsOf self.now.table.shared.table_id owner.old }
        requires place { IsElemAt self.now.site.layout at }
        requires block { block < self.now.site.layout.pool }
        requires round { ((sight owner.old).ruling.finished + 1 ≡ round) × (round < 65536) }
        requires may { MayStamp (sight owner.old) (place_number self.now.site.layout at) block claimed }
        ensures stays { Stays owner.old owner.new }
        ensures stamped { sight owner.new ≡ noted_head (sight owner.old) (place_number self.now.site.layout at) (node (block + 1) round) }
    {
        let word = Link {
            claimed,
            block: Some(block),
            died: round,
        }
        .spell();
        self.put::<Brand, (ElemAt, u32, u32)>(
            owner,
            self.site.layout.link(at),
            word,
            (at, block, round),
        );
    }
}
