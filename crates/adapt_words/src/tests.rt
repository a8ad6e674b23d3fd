//! Words and what they say, by the rules of the form.
use crate::{
    Command, Find, Join, Mark, Mend, Resume, Rule, Run, Save, Soak, USAGE, WordsRefusal, read_words,
};
use mark_strategy::Share;
use std::alloc::{AllocError, Global};
use std::test::Fail;

// The words of a line: each space ends one.
fn words_of(alloc: Global, line: &str) -> Result<Vec<String>, AllocError> {
    let mut words = Vec::new(alloc);
    for word in line.split(' ') {
        words.push(String::from_str(alloc, word)?)?;
    }
    Ok(words)
}

fn run<'a>(macro_file: &'a str, marks_file: &'a str, workers: u32, pool: u32) -> Run<'a> {
    Run {
        macro_file,
        marks_file,
        workers,
        pool,
        report: false,
    }
}

fn is_run(alloc: Global, line: &str, want: Run<'_>) -> Result<bool, AllocError> {
    let words = words_of(alloc, line)?;
    Ok(read_words(alloc, words.as_slice()) == Ok(Command::Run(want)))
}

fn is_outside(alloc: Global, line: &str) -> Result<bool, AllocError> {
    let words = words_of(alloc, line)?;
    Ok(read_words(alloc, words.as_slice()) == Err(WordsRefusal::Outside))
}

#[test]
fn runs(rt: HostRuntime) -> Result<(), Fail> {
    let lines = [
        ("run q m", run("q", "m", 4, 65_536)),
        ("run q m --workers=64", run("q", "m", 64, 65_536)),
        ("run --workers 0000004 q m", run("q", "m", 4, 65_536)),
        ("run q --workers 1 m --pool=9", run("q", "m", 1, 9)),
        ("run q m --pool 1048576", run("q", "m", 4, 1_048_576)),
        ("run --pool 1 --workers 7 q m", run("q", "m", 7, 1)),
        ("run run soak", run("run", "soak", 4, 65_536)),
    ];
    for (line, want) in lines {
        let told = is_run(rt.alloc(), line, want)?;
        assert!(rt; told, "{line}");
    }
    Ok(())
}

#[test]
fn file_names(rt: HostRuntime) -> Result<(), Fail> {
    let lines = [
        ("run - m", run("-", "m", 4, 65_536)),
        ("run q -", run("q", "-", 4, 65_536)),
        ("run  m", run("", "m", 4, 65_536)),
        ("run q ", run("q", "", 4, 65_536)),
        ("run -- q --report", run("q", "--report", 4, 65_536)),
        ("run -- --help m", run("--help", "m", 4, 65_536)),
        ("run -- -- m", run("--", "m", 4, 65_536)),
        ("run q -- -h", run("q", "-h", 4, 65_536)),
        ("run --pool=1 -- q m", run("q", "m", 4, 1)),
        ("run q -- --workers=9", run("q", "--workers=9", 4, 65_536)),
        ("run q m --", run("q", "m", 4, 65_536)),
    ];
    for (line, want) in lines {
        let told = is_run(rt.alloc(), line, want)?;
        assert!(rt; told, "{line}");
    }
    Ok(())
}

#[test]
fn reports(rt: HostRuntime) -> Result<(), Fail> {
    let want = Run {
        report: true,
        ..run("q", "m", 4, 65_536)
    };
    let lines = ["run --report q m", "run q --report m", "run q m --report"];
    for line in lines {
        let told = is_run(rt.alloc(), line, want)?;
        assert!(rt; told, "{line}");
    }
    Ok(())
}

#[test]
fn no_runs(rt: HostRuntime) -> Result<(), Fail> {
    let lines = [
        "",
        "run",
        "run q",
        "run q m x",
        "run q -- m x",
        "run q m -- --",
        "--report run q m",
        "--workers 4 run q m",
        "-- run q m",
        "RUN q m",
        "ru q m",
        "help",
        "help run",
        "run help",
        "--help",
        "run --help",
        "run q m --help",
        "run q --help m",
        "run q m -h",
        "run q m --version",
        "run q m -V",
    ];
    for line in lines {
        let told = is_outside(rt.alloc(), line)?;
        assert!(rt; told, "{line}");
    }
    Ok(())
}

#[test]
fn no_numbers(rt: HostRuntime) -> Result<(), Fail> {
    let lines = [
        "run q m --workers 65",
        "run q m --workers 0",
        "run q m --workers=",
        "run q m --workers ",
        "run q m --workers 00000004",
        "run q m --workers +4",
        "run q m --workers=-4",
        "run q m --workers=\t4",
        "run q m --workers 4x",
        "run q m --workers 4.0",
        "run q m --workers -",
        "run q m --workers=٤",
        "run q m --pool=4=4",
        "run q m --pool 1048577",
        "run q m --pool 0",
        "run q m --pool 4294967297",
        "run q m --pool 9999999",
    ];
    for line in lines {
        let told = is_outside(rt.alloc(), line)?;
        assert!(rt; told, "{line}");
    }
    Ok(())
}

#[test]
fn no_options(rt: HostRuntime) -> Result<(), Fail> {
    let lines = [
        "run q m --workers 4 --workers 4",
        "run q m --pool=1 --workers 4 --pool=1",
        "run q m --report --report",
        "run q m --work 4",
        "run q m --work=4",
        "run q m --rep",
        "run q m -w 4",
        "run q m -5",
        "run q m --workers -5",
        "run q m --workers",
        "run q m --workers --pool 4",
        "run q m --pool --",
        "run --pool -- 4 q m",
        "run q m --report=",
        "run q m --report=x",
        "run q m --report=true",
        "run q m --macro x",
        "run q m --=4",
        "run q m ---",
        "run q m --Workers 4",
        "run q m --start 4",
    ];
    for line in lines {
        let told = is_outside(rt.alloc(), line)?;
        assert!(rt; told, "{line}");
    }
    Ok(())
}

#[test]
fn soaks(rt: HostRuntime) -> Result<(), Fail> {
    let lines = [
        ("soak 01 1 1", (1, 1, 1, 4, 65_536)),
        ("soak 0 128 64", (0, 128, 64, 4, 65_536)),
        ("soak 65535 2 3", (65_535, 2, 3, 4, 65_536)),
        ("soak 1 --workers=2 2 --pool 3 4", (1, 2, 4, 2, 3)),
        ("soak -- 0000007 8 9", (7, 8, 9, 4, 65_536)),
    ];
    for (line, (start, grid, rounds, workers, pool)) in lines {
        let want = Soak {
            start,
            grid,
            rounds,
            workers,
            pool,
        };
        let words = words_of(rt.alloc(), line)?;
        let told = read_words(rt.alloc(), words.as_slice());
        assert!(rt; told == Ok(Command::Soak(want)), "{line}");
    }
    Ok(())
}

#[test]
fn no_soaks(rt: HostRuntime) -> Result<(), Fail> {
    let lines = [
        "soak",
        "soak 1 1",
        "soak 1 1 1 1",
        "soak 65536 1 1",
        "soak 1 129 1",
        "soak 1 0 1",
        "soak 1 1 65",
        "soak 1 1 0",
        "soak 1 1 00000001",
        "soak  1 1",
        "soak - 1 1",
        "soak -1 1 1",
        "soak -- -1 1 1",
        "soak q m",
        "soak 1 1 1 --report",
        "soak 1 1 1 --workers 65",
        "soak 1 1 1 --pool=1 --pool=1",
        "soak 1 1 1 --help",
        "soak help",
    ];
    for line in lines {
        let told = is_outside(rt.alloc(), line)?;
        assert!(rt; told, "{line}");
    }
    Ok(())
}

fn is_mark(alloc: Global, line: &str, rule: Rule, pool: u32) -> Result<bool, AllocError> {
    let words = words_of(alloc, line)?;
    let want = Mark {
        macro_file: "q",
        marks_file: "m",
        rule,
        workers: 4,
        pool,
    };
    Ok(read_words(alloc, words.as_slice()) == Ok(Command::Mark(want)))
}

#[test]
fn calls_for_marks(rt: HostRuntime) -> Result<(), Fail> {
    let Some(share) = Share::new(3, 4) else {
        return Ok(());
    };
    let alloc = rt.alloc();
    assert!(rt; is_mark(alloc, "mark q m max:3/4", Rule::Max(share), 65_536)?);
    assert!(rt; is_mark(alloc, "mark q --pool=9 m bulk:03/004", Rule::Bulk(share), 9)?);
    assert!(rt; is_mark(alloc, "mark q m equal:0", Rule::Equal(0), 65_536)?);
    let lines = [
        "mark q m",
        "mark q m max:3/4 x",
        "mark q m max:4/3",
        "mark q m bulk:1",
        "mark q m equal:4611686018427387905",
        "mark q m equal:3/4",
        "mark q m max:3/4 --report",
    ];
    for line in lines {
        assert!(rt; is_outside(alloc, line)?, "{line}");
    }
    Ok(())
}

fn is_save(alloc: Global, line: &str, workers: u32, pool: u32) -> Result<bool, AllocError> {
    let words = words_of(alloc, line)?;
    let want = Save {
        macro_file: "q",
        marks_file: "m",
        workers,
        pool,
    };
    Ok(read_words(alloc, words.as_slice()) == Ok(Command::Save(want)))
}

fn is_join(alloc: Global, line: &str) -> Result<bool, AllocError> {
    let words = words_of(alloc, line)?;
    let want = Join {
        first_file: "a",
        second_file: "b",
    };
    Ok(read_words(alloc, words.as_slice()) == Ok(Command::Join(want)))
}

fn is_resume(alloc: Global, line: &str, workers: u32, pool: u32) -> Result<bool, AllocError> {
    let words = words_of(alloc, line)?;
    let want = Resume {
        restart_file: "r",
        marks_file: "m",
        workers,
        pool,
    };
    Ok(read_words(alloc, words.as_slice()) == Ok(Command::Resume(want)))
}

fn is_find(alloc: Global, line: &str, workers: u32, pool: u32) -> Result<bool, AllocError> {
    let words = words_of(alloc, line)?;
    let want = Find {
        macro_file: "q",
        marks_file: "m",
        points_file: "p",
        workers,
        pool,
    };
    Ok(read_words(alloc, words.as_slice()) == Ok(Command::Find(want)))
}

fn is_mend(alloc: Global, line: &str) -> Result<bool, AllocError> {
    let words = words_of(alloc, line)?;
    let want = Mend { macro_file: "q" };
    Ok(read_words(alloc, words.as_slice()) == Ok(Command::Mend(want)))
}

#[test]
fn other_commands(rt: HostRuntime) -> Result<(), Fail> {
    let alloc = rt.alloc();
    assert!(rt; is_save(alloc, "save q m --workers 2", 2, 65_536)?);
    assert!(rt; is_save(alloc, "save --pool=9 q m", 4, 9)?);
    assert!(rt; is_join(alloc, "join a b")?);
    assert!(rt; is_resume(alloc, "resume r m", 4, 65_536)?);
    assert!(rt; is_resume(alloc, "resume --pool 9 r --workers=64 m", 64, 9)?);
    assert!(rt; is_find(alloc, "find q m p", 4, 65_536)?);
    assert!(rt; is_find(alloc, "find q --pool 9 m --workers=64 p", 64, 9)?);
    assert!(rt; is_mend(alloc, "mend q")?);
    Ok(())
}

#[test]
fn other_commands_outside_the_form(rt: HostRuntime) -> Result<(), Fail> {
    let lines = [
        "save q",
        "save q m x",
        "save q m --report",
        "join a",
        "join a b c",
        "join a b --workers 1",
        "join a b --pool 1",
        "resume r",
        "resume r m x",
        "resume r m --report",
        "find q m",
        "find q m p x",
        "find q m p --pool 0",
        "mend",
        "mend q m",
        "mend q --workers 1",
        "mend q --pool 9",
        "mend --help",
    ];
    for line in lines {
        assert!(rt; is_outside(rt.alloc(), line)?, "{line}");
    }
    Ok(())
}

#[test]
fn no_words(rt: HostRuntime) -> Result<(), Fail> {
    let words: Vec<String> = Vec::new(rt.alloc());
    let told = read_words(rt.alloc(), words.as_slice());
    assert!(rt; told == Err(WordsRefusal::Outside));
    Ok(())
}

#[test]
fn usage(rt: HostRuntime) -> Result<(), Fail> {
    let mut lines = USAGE.split('\n');
    assert!(rt;
        lines.next() == Some("usage: adapt run MACRO MARKS [--workers N] [--pool P] [--report]")
    );
    assert!(rt;
        lines.next() == Some("       adapt soak START GRID ROUNDS [--workers N] [--pool P]")
    );
    assert!(rt;
        lines.next() == Some("       adapt mark MACRO MARKS RULE [--workers N] [--pool P]")
    );
    assert!(rt; lines.next() == Some("       adapt save MACRO MARKS [--workers N] [--pool P]"));
    assert!(rt; lines.next() == Some("       adapt join FIRST SECOND"));
    assert!(rt; lines.next() == Some("       adapt resume RESTART MARKS [--workers N] [--pool P]"));
    assert!(rt;
        lines.next() == Some("       adapt find MACRO MARKS POINTS [--workers N] [--pool P]")
    );
    assert!(rt; lines.next() == Some("       adapt mend MACRO"));
    assert!(rt; lines.next() == Some(""));
    assert!(rt; lines.next() == None);
    Ok(())
}
