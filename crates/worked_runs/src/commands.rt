//! The whole command line: its options, what they ask for, and what is no call.
use crate::files::SQUARE;
use crate::run::{Ran, run_words, shelf};
use crate::square_texts::{SQUARE_ALONE, SQUARE_OF_SIX};
use std::alloc::{AllocError, Global};
use std::test::Fail;
use std::thread::Threads;

/// What err is told of words that are no call.
pub const USAGE: &str = "usage: adapt run MACRO MARKS [--workers N] [--pool P] [--report]
       adapt soak START GRID ROUNDS [--workers N] [--pool P]
       adapt mark MACRO MARKS RULE [--workers N] [--pool P]
       adapt save MACRO MARKS [--workers N] [--pool P]
       adapt join FIRST SECOND
       adapt resume RESTART MARKS [--workers N] [--pool P]
       adapt find MACRO MARKS POINTS [--workers N] [--pool P]
       adapt mend MACRO
";

/// The line of a soak of one round on the grid of one square.
const SOAK_OF_ONE: &str = "soak 1 grid 1 rounds 1 leaves 4 vertices 5 patches 1 bytes 301\n";

// Runs the program on these words, where `q` is the square and `m` and `--report` have these rows.
fn call<R: Threads + Sync>(
    rt: &R,
    alloc: Global,
    line: &str,
    rows: &str,
) -> Result<Ran, AllocError> {
    let marks = format!(in alloc; "round,what,where,number\n{rows}")?;
    let files = [("q", SQUARE), ("m", &marks), ("--report", &marks)];
    run_words(rt, alloc, line, shelf(alloc, &files)?)
}

// Whether these words, with these rows, end with status 0, write exactly this and tell nothing.
fn prints<R: Threads + Sync>(
    rt: &R,
    alloc: Global,
    line: &str,
    rows: &str,
    text: &str,
) -> Result<bool, AllocError> {
    let ran = call(rt, alloc, line, rows)?;
    Ok(ran.status == 0 && ran.out.bytes() == text.as_bytes() && ran.err.bytes().is_empty())
}

// Whether these words, with these rows, end with this status, tell exactly this and write nothing.
fn tells<R: Threads + Sync>(
    rt: &R,
    alloc: Global,
    line: &str,
    rows: &str,
    status: u8,
    told: &str,
) -> Result<bool, AllocError> {
    let ran = call(rt, alloc, line, rows)?;
    Ok(ran.status == status && ran.err.bytes() == told.as_bytes() && ran.out.bytes().is_empty())
}

#[test]
fn words_that_are_no_run_get_the_usage(rt: HostRuntime) -> Result<(), Fail> {
    let lines = ["run q", "run q m --workers 65", "run q -- --report m x"];
    for line in lines {
        assert!(rt; tells(&rt, rt.alloc(), line, "", 2, USAGE)?, "{line}");
    }
    Ok(())
}

#[test]
fn words_that_are_no_soak_get_the_usage(rt: HostRuntime) -> Result<(), Fail> {
    let lines = ["soak 1 129 1", "soak 1 1 1 --report"];
    for line in lines {
        assert!(rt; tells(&rt, rt.alloc(), line, "", 2, USAGE)?, "{line}");
    }
    Ok(())
}

#[test]
fn any_number_of_workers_writes_the_same_mesh(rt: HostRuntime) -> Result<(), Fail> {
    let lines = ["run q m --workers=64", "run q m --workers 1"];
    for line in lines {
        assert!(rt; prints(&rt, rt.alloc(), line, "", SQUARE_ALONE)?, "{line}");
    }
    Ok(())
}

#[test]
fn the_pool_is_the_one_that_the_words_name(rt: HostRuntime) -> Result<(), Fail> {
    let rows = "1,mark,0,2\n";
    let told = "adapt: round 1: 3 patches needed, pool 1\n";
    assert!(rt; tells(&rt, rt.alloc(), "run q m --pool 1", rows, 5, told)?);
    assert!(rt; prints(&rt, rt.alloc(), "run q m --pool 3", rows, SQUARE_OF_SIX)?);
    Ok(())
}

#[test]
fn a_report_has_a_line_for_each_round(rt: HostRuntime) -> Result<(), Fail> {
    let rows = "1,mark,*,2\n2,mark,*,-1\n3,mark,*,-1\n";
    let text = "round 1 leaves 8 vertices 9 holes 0
round 2 leaves 4 vertices 5 holes 4
round 3 leaves 2 vertices 4 holes 0
";
    assert!(rt; prints(&rt, rt.alloc(), "run q m --report", rows, text)?);
    assert!(rt; prints(&rt, rt.alloc(), "run q m --report", "", "")?);
    Ok(())
}

#[test]
fn words_after_two_dashes_are_names(rt: HostRuntime) -> Result<(), Fail> {
    assert!(rt; prints(&rt, rt.alloc(), "run q -- --report", "", SQUARE_ALONE)?);
    Ok(())
}

#[test]
fn a_soak_tells_its_mesh_in_a_line(rt: HostRuntime) -> Result<(), Fail> {
    let lines = ["soak 1 1 1", "soak 01 1 1"];
    for line in lines {
        assert!(rt; prints(&rt, rt.alloc(), line, "", SOAK_OF_ONE)?, "{line}");
    }
    Ok(())
}

#[test]
fn a_soak_leads_to_the_same_mesh_again(rt: HostRuntime) -> Result<(), Fail> {
    let line = "soak 7 8 2 --pool 1048576";
    let first = call(&rt, rt.alloc(), line, "")?;
    let second = call(&rt, rt.alloc(), line, "")?;
    assert_eq!(rt; first.status, 0);
    assert_eq!(rt; second.status, 0);
    assert!(rt; first.out.bytes() == second.out.bytes());
    Ok(())
}
