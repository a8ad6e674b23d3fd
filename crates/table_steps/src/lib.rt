#![tactic(auto)]
//! The kinds of step on the shared mesh table, and that each step of any seat keeps its rule.
//!
//! Each kind of step is a definition: the condition on the stepping seat's view under which it is
//! taken, and the words and views after it. `Step` is any of them. `StepsKeep` leads from a lawful
//! state to a lawful one, so the rule holds between any two steps of any seats. `StepsLocal` says that
//! a step makes at most one write, one that its seat may make, and changes the view of its seat;
//! `WritesLeave` and `WorkersChange` what such a write leaves as it was, and `StepsSpare` that a step
//! leaves alone the blocks to which walks go.
//!
//! # There are steps
//!
//! All this would also hold of kinds of step whose conditions no table meets. So further laws say which
//! steps there are from each lawful state, and what the seat knows after them.
//!
//! - A walk goes on, ends, or finds the name bisected, whatever its next word or BORN is
//!   (`WorkersGoOn`, `ReadersGoOn`, and `GrownGoesOn` for blocks that were born in the round). A reader's
//!   walk keeps the retired round by which it came, so that a loop over it has a measure.
//! - A reader's pass sees the round, pins it, and gives its pin back, and is ready exactly below the
//!   limit (`PinsGoOn`, `ReadyBelow`, `PinsFit`).
//! - Passes are made beside others, and joined with all that they knew (`PassesMade`, `PassesJoined`).
//! - A draw gets a block or none; a drawn block can be filled, linked and published (`ClaimsGoOn`,
//!   `FillsGoOn`), also that of a patch of one member (`SinglesGoOn`).
//! - A patch is retired where its children are known as not bisected (`RetiringGoesOn`).
//! - A round begins, is planned, closed or refused (`RoundsGoOn`); each claim of a refused round goes
//!   back (`ClaimsGoBack`); a retired block is stamped, and cut out once its rounds are drained
//!   (`SweepsGoOn`); rows are laid again (`RowsGoOn`). Seats can note what they load (`LoadsGoOn`,
//!   `NotesGoOn`).
//!
//! That a patch of two members is claimed and linked first, and that blocks are freed and rounds end,
//! the runs of `table_runs` show.

pub mod laws;
