//! How a call ends: with a text on out, or with a line on err.
ghost use Rattle.std.specs.Prelude.{◌≡◌, ◌++◌, IfErr, IfOk};
ghost use Rattle.adapt_cli.specs.FaultTexts.{read_fault_line};
ghost use Rattle.adapt_cli.specs.Ending.{Failed as FailedWith, LineEnds, TextEnds, Took};

use mesh_io::{Failed, Sink, put_all};

/// The line on err for want of memory.
pub const MEMORY: &str = "adapt: out of memory\n";

/// The line on err for a text that out did not take.
pub const WRITE_FAULT: &str = "adapt: write fault\n";

// The status of a write that was to end with this one.
const FAILED: u8 = 7;

// Writes a whole text.
fn put<O: Sink>(sink: &mut O, text: &[u8]) -> Result<(), Failed>
    ensures took { IfOk result (λ _. Took (record { old = O.holds sink.old; new = O.holds sink.new; before = O.faults sink.old; now = O.faults sink.new }) text.now) }
    ensures failed { IfErr result (λ _. FailedWith (record { old = O.holds sink.old; new = O.holds sink.new; before = O.faults sink.old; now = O.faults sink.new }) text.now) }
{
    put_all(sink, text)
}

// Writes one text and then another.
fn put_both<O: Sink>(sink: &mut O, first: &[u8], second: &[u8]) -> Result<(), Failed>
    ensures took { IfOk result (λ _. Took (record { old = O.holds sink.old; new = O.holds sink.new; before = O.faults sink.old; now = O.faults sink.new }) (first.now ++ second.now)) }
    ensures failed { IfErr result (λ _. FailedWith (record { old = O.holds sink.old; new = O.holds sink.new; before = O.faults sink.old; now = O.faults sink.new }) (first.now ++ second.now)) }
{
    if let Err(failed) = put(sink, first) {
        return Err(failed);
    }
    put(sink, second)
}

// Writes the line for a file whose load failed, in pieces, so that it takes no memory.
fn put_read_fault<O: Sink>(sink: &mut O, name: &str) -> Result<(), Failed>
    ensures took { IfOk result (λ _. Took (record { old = O.holds sink.old; new = O.holds sink.new; before = O.faults sink.old; now = O.faults sink.new }) (read_fault_line name.now)) }
    ensures failed { IfErr result (λ _. FailedWith (record { old = O.holds sink.old; new = O.holds sink.new; before = O.faults sink.old; now = O.faults sink.new }) (read_fault_line name.now)) }
{
    if let Err(failed) = put(sink, b"adapt: read fault: ") {
        return Err(failed);
    }
    put_both(sink, name.as_bytes(), b"\n")
}

/// Writes a line to err, and answers the status: this one, or 7 where the write failed.
pub fn write_line<E: Sink>(err: &mut E, line: &str, status: u8) -> u8
    ensures { LineEnds (record { old = E.holds err.old; new = E.holds err.new; before = E.faults err.old; now = E.faults err.new }) line.now status result }
{
    match put(err, line.as_bytes()) {
        Ok(()) => status,
        Err(_) => FAILED,
    }
}

/// Writes the line for a file whose load failed to err: status 6, or 7 where the write failed.
pub fn write_read_fault<E: Sink>(err: &mut E, name: &str) -> u8
    ensures { LineEnds (record { old = E.holds err.old; new = E.holds err.new; before = E.faults err.old; now = E.faults err.new }) (read_fault_line name.now) 6 result }
{
    match put_read_fault(err, name) {
        Ok(()) => 6,
        Err(_) => FAILED,
    }
}

/// Writes the text to out: status 0, or 7 where the write failed, and then err is told, if it
/// takes the line.
pub fn write_text<O: Sink, E: Sink>(out: &mut O, err: &mut E, text: &[u8]) -> u8
    ensures { TextEnds (record { old = O.holds out.old; new = O.holds out.new; before = O.faults out.old; now = O.faults out.new }) (record { old = E.holds err.old; new = E.holds err.new; before = E.faults err.old; now = E.faults err.new }) text.now result }
{
    if put(out, text).is_ok() {
        return 0;
    }
    write_line(err, WRITE_FAULT, FAILED)
}
