//! Restart files: what is saved, two of them joined, and runs that go on from one.
use crate::files::SQUARE;
use crate::run::{Ran, run_words};
use crate::square_texts::{SQUARE_ALONE, SQUARE_BISECTED, SQUARE_OF_ELEVEN};
use mesh_io::MemShelf;
use std::alloc::{AllocError, Global};
use std::test::Fail;
use std::thread::Threads;

// The restart file of the square with these words, a line for each element.
fn restart(alloc: Global, words: &str) -> Result<String, AllocError> {
    format!(in alloc; "restart: 133\n{SQUARE}{words}")
}

// What these words do, where `r` and `s` are these files.
fn call<R: Threads + Sync>(
    rt: &R,
    alloc: Global,
    line: &str,
    r: &str,
    s: &str,
) -> Result<Ran, AllocError> {
    let mut held = Vec::new(alloc);
    held.push(("r".to_string(alloc)?, r.as_bytes().to_vec(alloc)?))?;
    held.push(("s".to_string(alloc)?, s.as_bytes().to_vec(alloc)?))?;
    run_words(rt, alloc, line, MemShelf::new(held, Vec::new(alloc)))
}

// Whether the call ended with this text.
fn wrote(ran: &Ran, text: &str) -> bool {
    ran.status == 0 && ran.out.bytes() == text.as_bytes() && ran.err.bytes().is_empty()
}

fn marks(alloc: Global, rows: &str) -> Result<String, AllocError> {
    format!(in alloc; "round,what,where,number\n{rows}")
}

// Whether the square with these words goes on to this text by these rows.
fn goes_on<R: Threads + Sync>(
    rt: &R,
    alloc: Global,
    words: &str,
    rows: &str,
    text: &str,
) -> Result<bool, AllocError> {
    let file = restart(alloc, words)?;
    let marks = marks(alloc, rows)?;
    let ran = call(rt, alloc, "resume r s", file.as_str(), marks.as_str())?;
    Ok(wrote(&ran, text))
}

// Whether this call is refused with this status and line.
fn refuses<R: Threads + Sync>(
    rt: &R,
    alloc: Global,
    line: &str,
    words: &str,
    status: u8,
    told: &str,
) -> Result<bool, AllocError> {
    let file = restart(alloc, words)?;
    let marks = marks(alloc, "")?;
    let ran = call(rt, alloc, line, file.as_str(), marks.as_str())?;
    Ok(ran.status == status && ran.err.bytes() == told.as_bytes() && ran.out.bytes().is_empty())
}

#[test]
fn the_last_forest_is_saved(rt: HostRuntime) -> Result<(), Fail> {
    let marks = marks(rt.alloc(), "1,mark,0,1\n")?;
    let ran = call(&rt, rt.alloc(), "save r s", SQUARE, marks.as_str())?;
    let want = restart(rt.alloc(), "100\n100\n")?;
    assert!(rt; want.len() == 154 && wrote(&ran, want.as_str()));
    Ok(())
}

#[test]
fn two_forests_are_joined(rt: HostRuntime) -> Result<(), Fail> {
    let first = restart(rt.alloc(), "1100100\n100\n")?;
    let second = restart(rt.alloc(), "100\n11000\n")?;
    let ran = call(&rt, rt.alloc(), "join r s", first.as_str(), second.as_str())?;
    let want = restart(rt.alloc(), "1100100\n11000\n")?;
    assert!(rt; wrote(&ran, want.as_str()));
    Ok(())
}

#[test]
fn a_kept_forest_is_the_mesh_that_was_kept(rt: HostRuntime) -> Result<(), Fail> {
    assert!(rt; goes_on(&rt, rt.alloc(), "100\n100\n", "", SQUARE_BISECTED)?);
    Ok(())
}

#[test]
fn a_kept_forest_is_refined_on(rt: HostRuntime) -> Result<(), Fail> {
    assert!(rt;
        goes_on(
            &rt,
            rt.alloc(),
            "100\n100\n",
            "1,mark,0.0,2\n",
            SQUARE_OF_ELEVEN
        )?
    );
    Ok(())
}

#[test]
fn a_kept_forest_is_coarsened(rt: HostRuntime) -> Result<(), Fail> {
    assert!(rt; goes_on(&rt, rt.alloc(), "100\n100\n", "1,mark,*,-1\n", SQUARE_ALONE)?);
    Ok(())
}

#[test]
fn a_forest_that_does_not_conform_is_told(rt: HostRuntime) -> Result<(), Fail> {
    let told = "adapt: restart: 0: not conforming\n";
    assert!(rt; refuses(&rt, rt.alloc(), "resume r s", "100\n0\n", 3, told)?);
    Ok(())
}

#[test]
fn a_bad_word_is_told(rt: HostRuntime) -> Result<(), Fail> {
    let told = "adapt: restart: element 0: bad word\n";
    assert!(rt; refuses(&rt, rt.alloc(), "resume r s", "10\n100\n", 3, told)?);
    Ok(())
}

#[test]
fn a_forest_larger_than_the_pool_is_told(rt: HostRuntime) -> Result<(), Fail> {
    let told = "adapt: restart: 5 patches needed, pool 4\n";
    let words = "1100100\n1100100\n";
    assert!(rt; refuses(&rt, rt.alloc(), "resume r s --pool 4", words, 5, told)?);
    Ok(())
}
