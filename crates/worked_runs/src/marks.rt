//! Calls for marks: what each rule chooses on the bisected square, and what is no call for marks.
use crate::commands::USAGE;
use crate::files::VALUED_SQUARE;
use crate::run::{Ran, run_words, shelf};
use std::alloc::{AllocError, Global};
use std::test::Fail;
use std::thread::Threads;

// A call for marks by this rule, where `q` is the square with values and `m` has these rows.
fn call<R: Threads + Sync>(
    rt: &R,
    alloc: Global,
    rule: &str,
    rows: &str,
) -> Result<Ran, AllocError> {
    let marks = format!(in alloc; "round,what,where,number\n{rows}")?;
    let line = format!(in alloc; "mark q m {rule}")?;
    run_words(
        rt,
        alloc,
        &line,
        shelf(alloc, &[("q", VALUED_SQUARE), ("m", &marks)])?,
    )
}

// Whether the rule writes exactly these rows for the bisected square, whose leaves have the values
// -4, -3, 0 and 0.
fn marks<R: Threads + Sync>(
    rt: &R,
    alloc: Global,
    rule: &str,
    rows: &str,
) -> Result<bool, AllocError> {
    let ran = call(rt, alloc, rule, "1,mark,0,1\n")?;
    let text = format!(in alloc; "round,what,where,number\n{rows}")?;
    Ok(ran.status == 0 && ran.out.bytes() == text.as_bytes() && ran.err.bytes().is_empty())
}

// Whether the rule, with these rows, ends with this status, tells exactly this and writes nothing.
fn tells<R: Threads + Sync>(
    rt: &R,
    alloc: Global,
    rule: &str,
    rows: &str,
    status: u8,
    told: &str,
) -> Result<bool, AllocError> {
    let ran = call(rt, alloc, rule, rows)?;
    Ok(ran.status == status && ran.err.bytes() == told.as_bytes() && ran.out.bytes().is_empty())
}

#[test]
fn each_rule_chooses_by_the_sizes_of_values(rt: HostRuntime) -> Result<(), Fail> {
    let one = "2,mark,0.0,1\n";
    let both = "2,mark,0.0,1\n2,mark,0.1,1\n";
    let cases = [
        ("max:3/4", both),
        ("max:4/5", one),
        ("max:0/1", both),
        ("bulk:1/2", one),
        ("bulk:1/1", both),
        ("bulk:0/1", ""),
        ("equal:11", both),
        ("equal:0000000000000000012", one),
        ("equal:4611686018427387904", ""),
        ("max:0000003/4 --pool 1", both),
    ];
    for (rule, rows) in cases {
        assert!(rt; marks(&rt, rt.alloc(), rule, rows)?, "{rule}");
    }
    Ok(())
}

#[test]
fn words_that_are_no_rule_get_the_usage(rt: HostRuntime) -> Result<(), Fail> {
    let rules = [
        "max:2/1",
        "max:0/0",
        "max:1",
        "bulk:1/1000001",
        "bulk:-1/2",
        "bulk:1/2/3",
        "equal:4611686018427387905",
        "equal:00000000000000000012",
        "equal:",
        "most:1/2",
        "max",
        "max:1/2 m --report",
    ];
    for rule in rules {
        assert!(rt; tells(&rt, rt.alloc(), rule, "", 2, USAGE)?, "{rule}");
    }
    Ok(())
}

#[test]
fn marks_want_a_round_that_is_left(rt: HostRuntime) -> Result<(), Fail> {
    let told = "adapt: marks: no round left\n";
    assert!(rt; tells(&rt, rt.alloc(), "max:1/2", "65535,mark,7,1\n", 4, told)?);
    let told = "adapt: marks: row 2: bad round\n";
    assert!(rt; tells(&rt, rt.alloc(), "max:1/2", "65536,mark,7,1\n", 4, told)?);
    let told = "adapt: marks: row 2: not a leaf\n";
    assert!(rt; tells(&rt, rt.alloc(), "max:1/2", "1,mark,7,1\n", 4, told)?);
    let told = "adapt: round 1: 3 patches needed, pool 1\n";
    assert!(rt; tells(&rt, rt.alloc(), "max:1/2 --pool 1", "1,mark,0,2\n", 5, told)?);
    Ok(())
}
