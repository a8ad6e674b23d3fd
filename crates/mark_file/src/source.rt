//! The records of a file, as `csv` reads them: comma, double quote, records of any length.
ghost use Rattle.std.specs.Prelude.{◌≡◌, [], ◌∷◌, IfOk, IfErr, OnOk, if◌then◌else◌};
ghost use Rattle.csv.specs.Reading.{default_config, records, strip_bom};
ghost use Rattle.csv.specs.Records.{fields_of};
ghost use Rattle.mark_file.specs.Unread.{unread, IsSteady};

use crate::refusal::MarkRefusal;
use csv::{ByteRecord, Reader, ReaderBuilder};
use std::alloc::Global;

// A reader of the bytes that has read nothing yet.
pub(crate) fn open(alloc: Global, bytes: &[u8]) -> Reader<&[u8]>
    ensures steady { IsSteady result }
    ensures records { unread result ≡ records default_config (strip_bom bytes.now) }
{
    ReaderBuilder::new()
        .has_headers(false)
        .flexible(true)
        .from_reader(alloc, bytes)
}

// Reads the next record into `row`, and answers whether there was one. Records may have any
// length, and over bytes a read fails for want of memory alone, but `csv` does not promise the
// latter: so each failure is told as that.
pub(crate) fn next_row(
    reader: &mut Reader<&[u8]>,
    row: &mut ByteRecord,
) -> Result<bool, MarkRefusal>
    requires { IsSteady reader.old }
    ensures steady { OnOk result (IsSteady reader.new) }
    ensures next { IfOk result (λ found. unread reader.old ≡ (if found then fields_of row.new ∷ unread reader.new else [])) }
    ensures err { IfErr result (λ e. e ≡ MarkRefusal.Memory) }
{
    match reader.read_byte_record(row) {
        Ok(found) => Ok(found),
        Err(_) => Err(MarkRefusal::Memory),
    }
}
