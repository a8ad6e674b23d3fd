#![tactic(auto)]
//! Runs of the shared mesh table on the square of two elements, each state by a step from the one
//! before: the rule and the kinds of step can be met.
//!
//! # It can be met
//!
//! The fresh table is lawful over each valid mesh (`FreshIsLawful` of `table_state`). From it, on the
//! square:
//!
//! | Run | What happens in it |
//! |---|---|
//! | `SquareFollows` | the patch is claimed, its block drawn, filled, linked and published; the round ends; a reader pins it; the block is retired, stamped, cut out and freed, and drawn again. `SquareReads` says what is read on the way |
//! | `SquareRefused` | the pass is worker 0's; the round is refused and rolled back |
//! | `SquareVisits` | a reader walks at its pin and is joined |
//! | `SquareFull`, `SquareUndrawn` | a draw finds no block; a block is drawn and not linked; both rounds are refused |
//! | `SquareTwice` | with two blocks: the patch is bisected again while its old block is a version behind the new one. A pass finds the old one retired, others walk past the new one, and in the end the old one is cut out of the HISTORY words. `TwiceReads` says what is read |
//! | `SquareChild` | a child of element 0 is bisected: its patch has one member, and one link links it whole. `ChildReads` says what is read |
//! | `SquareFreed` | the child's block is retired, stamped, cut out and freed by words of its own place and block alone (`FreesAlone`) |
//! | `SquareStock` | three rounds: the row that round 1 does not draw is the stock, no word of it is written (`RowKept`), and round 3 draws its block (`StockDrawn`). A pass of the second half walks over blocks that were born in the round (`GrownWalked`) |
//!
//! Each state that a run reaches is lawful (`RunsLawful`), and each kind of step occurs in a run
//! (`KindsOccur`). `TwoWords` and `WorkersClaim` show that the law of writes says something: a claim
//! and a draw are not one write, and a worker's pass alone may set the claim bit.

pub mod laws;
