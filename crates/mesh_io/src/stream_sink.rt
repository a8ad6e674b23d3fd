//! A sink over a writer.
ghost use Rattle.std.specs.Prelude.{◌≡◌};

use crate::sink::{Failed, Sink};
use std::io::Write;

/// A writer that is flushed after each piece. It tells nothing of what was written.
#[derive(Drop)]
pub struct StreamSink<W: Write + Drop> {
    inner: W,
    faults: u64,
}

impl<W: Write + Drop> StreamSink<W> {
    /// A sink over the writer.
    pub fn new(inner: W) -> StreamSink<W>
        ensures { result.faults ≡ 0 }
    {
        StreamSink { inner, faults: 0 }
    }
}

impl<W: Write + Drop> Sink for StreamSink<W> {
    ghost use Rattle.std.specs.Prelude.{None};

    ghost holds = { λ _. None };

    ghost faults = { λ s. s.faults };

    fn write(&mut self, piece: &[u8]) -> Result<usize, Failed> {
        match self.inner.write(piece) {
            Ok(count) if count > 0 => {
                if self.inner.flush().is_ok() {
                    return Ok(count);
                }
            }
            _ => {}
        }
        self.faults = self.faults.saturating_add(1);
        Err(Failed)
    }
}
