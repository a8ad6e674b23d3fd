//! One run of the program on files in memory.
ghost use Rattle.std.specs.Prelude.{◌≤◌};

use adapt_cli::program::adapt;
use mesh_io::{MemShelf, MemSink, NoGate};
use std::alloc::{AllocError, Global};
use std::thread::Threads;

/// What a run wrote, and its status.
#[derive(Drop)]
pub struct Ran {
    pub status: u8,
    pub out: MemSink,
    pub err: MemSink,
}

/// The room of a sink that is ample for a small mesh.
const ROOM: usize = 1 << 20;

/// A sink with ample room that takes at most this many bytes a call, and fails at these calls.
pub fn sink(alloc: Global, most: usize, faults: Vec<u64>) -> Result<MemSink, AllocError>
    requires { 1 ≤ most }
{
    MemSink::new(alloc, ROOM, most, faults).map_err(|_| AllocError)
}

/// The words, as the program takes them.
pub fn words(alloc: Global, line: &str) -> Result<Vec<String>, AllocError> {
    let mut words = Vec::new(alloc);
    for word in line.split(' ') {
        words.push(word.to_string(alloc)?)?;
    }
    Ok(words)
}

/// A shelf of these files, without faults.
pub fn shelf(alloc: Global, files: &[(&str, &str)]) -> Result<MemShelf, AllocError> {
    let mut held = Vec::new(alloc);
    for (name, text) in files {
        held.push((name.to_string(alloc)?, text.as_bytes().to_vec(alloc)?))?;
    }
    Ok(MemShelf::new(held, Vec::new(alloc)))
}

/// Runs the program on these words and files.
pub fn run_words<R: Threads + Sync>(
    rt: &R,
    alloc: Global,
    line: &str,
    shelf: MemShelf,
) -> Result<Ran, AllocError> {
    run_in_room(rt, alloc, line, shelf, ROOM)
}

/// Runs the program on these words and files, with so much room for out.
pub fn run_in_room<R: Threads + Sync>(
    rt: &R,
    alloc: Global,
    line: &str,
    mut shelf: MemShelf,
    room: usize,
) -> Result<Ran, AllocError> {
    let words = words(alloc, line)?;
    let mut out = MemSink::new(alloc, room, 1 << 20, Vec::new(alloc)).map_err(|_| AllocError)?;
    let mut err = sink(alloc, 1 << 20, Vec::new(alloc))?;
    let status = adapt(rt, alloc, &words, &mut shelf, &mut out, &mut err, &NoGate);
    Ok(Ran { status, out, err })
}

/// Runs the program on a macro file and the rows of a marks file.
pub fn run<R: Threads + Sync>(
    rt: &R,
    alloc: Global,
    macro_text: &str,
    rows: &str,
) -> Result<Ran, AllocError> {
    let marks = format!(in alloc; "round,what,where,number\n{rows}")?;
    let mut held = Vec::new(alloc);
    held.push(("q".to_string(alloc)?, macro_text.as_bytes().to_vec(alloc)?))?;
    held.push(("m".to_string(alloc)?, marks.as_bytes().to_vec(alloc)?))?;
    run_words(rt, alloc, "run q m", MemShelf::new(held, Vec::new(alloc)))
}

/// Whether a run ends with status 0, writes exactly this text and tells nothing.
pub fn writes<R: Threads + Sync>(
    rt: &R,
    alloc: Global,
    macro_text: &str,
    rows: &str,
    text: &str,
) -> Result<bool, AllocError> {
    let ran = run(rt, alloc, macro_text, rows)?;
    Ok(ran.status == 0 && ran.out.bytes() == text.as_bytes() && ran.err.bytes().is_empty())
}

/// Whether a run ends with status 0 and a text of which these are the last two lists, a line a value.
pub fn ends_in_values<R: Threads + Sync>(
    rt: &R,
    alloc: Global,
    macro_text: &str,
    rows: &str,
    vertices: &str,
    elements: &str,
) -> Result<bool, AllocError> {
    let ran = run(rt, alloc, macro_text, rows)?;
    let lists = format!(in alloc; "\n\nvertex values:\n{vertices}\nelement values:\n{elements}")?;
    Ok(ran.status == 0 && ran.out.bytes().ends_with(lists.as_bytes()))
}

/// Whether a run ends with this status and tells this, and writes nothing.
pub fn refuses<R: Threads + Sync>(
    rt: &R,
    alloc: Global,
    macro_text: &str,
    rows: &str,
    status: u8,
    told: &str,
) -> Result<bool, AllocError> {
    let ran = run(rt, alloc, macro_text, rows)?;
    Ok(ran.status == status && ran.err.bytes() == told.as_bytes() && ran.out.bytes().is_empty())
}
