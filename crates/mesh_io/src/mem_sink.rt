//! A sink in memory.
ghost use Rattle.std.specs.Prelude.{◌≡◌, ◌-◌, ◌<◌, ◌≤◌, ◌⊎◌, ◌↔◌, ◌++◌, true, Some, min, length, IsErr, is_err, IfOk};
ghost use Rattle.mesh_io.specs.Faults.{fails_next, after_call};
ghost use Rattle.mesh_io.specs.Sinks.{Writes, empty_sink, taken_of};

use crate::plan::FaultPlan;
use crate::sink::{Failed, Sink};
use std::alloc::Global;
use std::marker::Model;

/// Why there is no sink.
#[derive(Debug, PartialEq, Eq, Drop)]
pub enum SinkRefusal {
    /// No memory was left.
    Memory,
}

/// A sink that keeps what it takes. It has room for so many bytes, takes so many at most in one
/// write, and fails at listed writes.
#[derive(Drop)]
pub struct MemSink {
    held: Vec<u8>,
    room: usize,
    most: usize,
    plan: FaultPlan,
}

impl Model for MemSink {
    ghost use Rattle.std.specs.Prelude.{◌≤◌, length, vec_capacity};
    ghost use Rattle.mesh_io.specs.Sinks.{MemBytes};

    ghost Value = { MemBytes };

    ghost view = { λ s. record { held = s.held.items; room = s.room; most = s.most; plan = s.plan } };

    ghost invariant = { λ s. (1 ≤ s.most) × (length s.held.items ≤ s.room) × (s.room ≤ vec_capacity s.held) };
}

impl MemSink {
    /// An empty sink. `faults` lists the writes that are to fail, counted from 1.
    pub fn new(
        alloc: Global,
        room: usize,
        most: usize,
        faults: Vec<u64>,
    ) -> Result<MemSink, SinkRefusal>
        requires { 1 ≤ most }
        ensures { IfOk result (λ sink. sink ≡ empty_sink room most faults.items) }
    {
        match Vec::with_capacity(alloc, room) {
            Ok(held) => Ok(MemSink {
                held,
                room,
                most,
                plan: FaultPlan::new(faults),
            }),
            Err(_) => Err(SinkRefusal::Memory),
        }
    }

    /// What was written.
    pub fn bytes(&self) -> &[u8]
        ensures { result.now ≡ self.now.held }
    {
        &self.held
    }
}

impl Sink for MemSink {
    ghost use Rattle.std.specs.Prelude.{Some};

    ghost holds = { λ s. Some s.held };

    ghost faults = { λ s. s.plan.faults };

    fn write(&mut self, piece: &[u8]) -> Result<usize, Failed>
        requires { 0 < length piece.now }
        ensures writes { Writes self.old.plan.faults self.new.plan.faults (Some self.old.held) (Some self.new.held) piece.now result }
        ensures failed { IsErr result ↔ ((fails_next self.old.plan ≡ true) ⊎ (self.old.room - length self.old.held ≡ 0)) }
        ensures taken { IfOk result (λ count. count ≡ min self.old.most (min (length piece.now) (self.old.room - length self.old.held))) }
        ensures counted { self.new ≡ record self.old { held = self.old.held ++ taken_of result piece.now; plan = after_call (is_err result) self.old.plan } }
    {
        let left = self.room - self.held.len();
        let count = self.most.min(piece.len()).min(left);
        let failed = self.plan.fails_next() || count == 0;
        self.plan.count_call(failed);
        if failed {
            return Err(Failed);
        }
        self.held.extend_from_slice(&piece[..count]).unwrap();
        Ok(count)
    }
}
