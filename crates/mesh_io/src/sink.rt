//! Where bytes go to.
ghost use Rattle.std.specs.Prelude.{◌≡◌, ℕ, ◌<◌, ◌≤◌, ◌++◌, List, Option, Some, IfErr, IfSome, OnOk, length, take};
ghost use Rattle.mesh_io.specs.Faults.{Rose};
ghost use Rattle.mesh_io.specs.Sinks.{Writes};

/// A write took nothing.
#[derive(Debug, PartialEq, Eq, Drop)]
pub struct Failed;

/// Takes bytes, with a count of the faults that writing them met.
pub trait Sink {
    // What was written, where the sink tells it.
    ghost holds: { Self → Option (List ℕ) };

    ghost faults: { Self → ℕ };

    /// Takes some of the bytes at the front of the piece, and says how many. Taking none is a fault.
    fn write(&mut self, piece: &[u8]) -> Result<usize, Failed>
        requires { 0 < length piece.now }
        ensures { Writes (faults self.old) (faults self.new) (holds self.old) (holds self.new) piece.now result };
}

// The most bytes that one write is given.
const PIECE: usize = 65_536;

/// Writes the whole text. After a failure the sink has taken some of its front.
pub fn put_all<O: Sink>(sink: &mut O, text: &[u8]) -> Result<(), Failed>
    ensures ok { OnOk result (IfSome (O.holds sink.old) (λ held. O.holds sink.new ≡ Some (held ++ text.now))) }
    ensures calm { OnOk result (O.faults sink.new ≡ O.faults sink.old) }
    ensures failed { IfErr result (λ _. Rose (O.faults sink.old) (O.faults sink.new) × IfSome (O.holds sink.old) (λ held. (n : ℕ) × (O.holds sink.new ≡ Some (held ++ take n text.now)))) }
    ensures never_falls { O.faults sink.old ≤ O.faults sink.new }
{
    let mut at = 0;
    while at < text.len() {
        let end = if text.len() - at > PIECE {
            at + PIECE
        } else {
            text.len()
        };
        at += sink.write(&text[at..end])?;
    }
    Ok(())
}
