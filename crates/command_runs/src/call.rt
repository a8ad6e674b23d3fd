//! One call of the program on files in memory.
use adapt_cli::program::adapt;
use anyhow::{Result, anyhow};
use mesh_io::{MemShelf, MemSink, NoGate};
use std::alloc::{AllocError, Global};
use std::str;
use std::thread::Threads;

/// A file: its name and its bytes.
pub type Held = (String, Vec<u8>);

/// What a call wrote and told, and its status.
#[derive(Drop)]
pub struct Ran {
    pub status: u8,
    pub out: MemSink,
    pub err: MemSink,
}

/// Puts a file before the others, so that it stands for an older one of its name.
pub fn hold(alloc: Global, held: &mut Vec<Held>, name: &str, text: &str) -> Result<()> {
    let file = (name.to_string(alloc)?, text.as_bytes().to_vec(alloc)?);
    held.insert(0, file)?;
    Ok(())
}

// A copy of the files.
fn copied(alloc: Global, held: &[Held]) -> Result<Vec<Held>, AllocError> {
    let mut files = Vec::new(alloc);
    for (name, bytes) in held {
        files.push((name.clone()?, bytes.clone()?))?;
    }
    Ok(files)
}

fn sink(alloc: Global) -> Result<MemSink> {
    MemSink::new(alloc, 1 << 20, 1 << 20, Vec::new(alloc)).map_err(|_| anyhow!("out of memory"))
}

/// Calls the program with the words of a line.
pub fn call<R: Threads + Sync>(rt: &R, alloc: Global, line: &str, held: &[Held]) -> Result<Ran> {
    let mut words = Vec::new(alloc);
    for word in line.split(' ') {
        words.push(word.to_string(alloc)?)?;
    }
    let mut shelf = MemShelf::new(copied(alloc, held)?, Vec::new(alloc));
    let mut out = sink(alloc)?;
    let mut err = sink(alloc)?;
    let status = adapt(rt, alloc, &words, &mut shelf, &mut out, &mut err, &NoGate);
    Ok(Ran { status, out, err })
}

/// The bytes as a text.
pub fn text_of(alloc: Global, bytes: &[u8]) -> Result<String> {
    match str::from_utf8(bytes) {
        Ok(text) => Ok(text.to_string(alloc)?),
        Err(_) => Err(anyhow!("not a text")),
    }
}
