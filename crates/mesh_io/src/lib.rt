//! Where the bytes of a run come from and go to, and how its numbers are read and written.
//!
//! A [`Shelf`] gives files by name and a [`Sink`] takes bytes. Both count their faults, so that a
//! caller's contract can say when a fault was the cause of an answer. A [`Gate`] is told of the steps
//! of concurrent work, for tests.
#![tactic(auto)]

mod decimal;
mod file_shelf;
mod gate;
pub mod laws;
mod mem_shelf;
mod mem_sink;
mod plan;
mod shelf;
mod sink;
mod stream_sink;
mod text;
mod written;

pub use decimal::{DecimalRefusal, is_digit, read_decimal, sign};
pub use file_shelf::FileShelf;
pub use gate::{Gate, GatePoint, NoGate};
pub use mem_shelf::MemShelf;
pub use mem_sink::{MemSink, SinkRefusal};
pub use shelf::{LoadRefusal, Shelf};
pub use sink::{Failed, Sink, put_all};
pub use stream_sink::StreamSink;
pub use text::{TextRefusal, put_whole};
pub use written::put_decimal;

#[cfg(test)]
mod tests;
