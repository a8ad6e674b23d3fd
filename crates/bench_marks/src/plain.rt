//! `csv` alone, going over the records of a text.
use anyhow::{Result, anyhow};
use csv::{ByteRecord, ReaderBuilder};
use std::alloc::Global;

/// What the records have.
#[derive(Clone, Copy)]
pub struct Tally {
    pub records: usize,
    pub fields: usize,
}

/// Reads each record into one that is used again, and counts.
pub fn pass(alloc: Global, text: &[u8]) -> Result<Tally> {
    let mut reader = ReaderBuilder::new()
        .has_headers(false)
        .flexible(true)
        .from_reader(alloc, text);
    let mut record = ByteRecord::new(alloc);
    let mut tally = Tally {
        records: 0,
        fields: 0,
    };
    for _ in 0..u32::MAX {
        match reader.read_byte_record(&mut record) {
            Ok(true) => {}
            Ok(false) => return Ok(tally),
            Err(_) => return Err(anyhow!("a record was not read")),
        }
        tally.records = tally.records.saturating_add(1);
        tally.fields = tally.fields.saturating_add(record.len());
    }
    Ok(tally)
}
