//! The runs.
use crate::commands::USAGE;
use crate::files::{FOUR_TRIANGLES, SQUARE, TRIANGLE, TURNED_SQUARE};
use crate::run::{refuses, run_words, shelf, sink, words, writes};
use crate::square_texts::{
    SQUARE_ALONE, SQUARE_BISECTED, SQUARE_OF_ELEVEN, SQUARE_OF_OTHER_ELEVEN, SQUARE_OF_SIX,
};
use crate::texts::{FOUR_BISECTED, FOUR_MARKED_ONCE, TRIANGLE_BISECTED, TURNED_BISECTED};
use adapt_cli::program::adapt;
use mesh_io::NoGate;
use std::test::Fail;

#[test]
fn rounds_write_the_least_conforming_mesh(rt: HostRuntime) -> Result<(), Fail> {
    let cases = [
        ("", SQUARE_ALONE),
        ("1,mark,0,1\n", SQUARE_BISECTED),
        ("1,mark,0,2\n", SQUARE_OF_SIX),
        ("1,mark,0,1\n1,mark,0,0\n", SQUARE_ALONE),
        ("1,mark,*,1\n1,mark,0,0\n", SQUARE_BISECTED),
        ("1,mark,0,1\n2,mark,0.0,2\n", SQUARE_OF_ELEVEN),
    ];
    for (rows, want) in cases {
        assert!(rt; writes(&rt, rt.alloc(), SQUARE, rows, want)?, "{rows}");
    }
    Ok(())
}

#[test]
fn other_meshes_are_refined_as_well(rt: HostRuntime) -> Result<(), Fail> {
    let cases = [
        (TURNED_SQUARE, "1,mark,0,1\n", TURNED_BISECTED),
        (TRIANGLE, "1,mark,0,1\n", TRIANGLE_BISECTED),
        (FOUR_TRIANGLES, "1,mark,0,1\n", FOUR_MARKED_ONCE),
        (FOUR_TRIANGLES, "1,mark,*,1\n", FOUR_BISECTED),
    ];
    for (macro_text, rows, want) in cases {
        assert!(rt; writes(&rt, rt.alloc(), macro_text, rows, want)?, "{rows}");
    }
    Ok(())
}

#[test]
fn patches_go_where_all_their_leaves_are_marked(rt: HostRuntime) -> Result<(), Fail> {
    let cases = [
        ("1,mark,0,1\n2,mark,*,-1\n", SQUARE_ALONE),
        ("1,mark,0,1\n2,mark,*,-1\n2,mark,1.1,0\n", SQUARE_BISECTED),
        ("1,mark,0,1\n2,mark,*,0\n", SQUARE_BISECTED),
        ("1,mark,*,2\n2,mark,*,-1\n", SQUARE_BISECTED),
        ("1,mark,*,2\n2,mark,*,-2\n", SQUARE_ALONE),
        ("1,mark,*,2\n2,mark,*,-2\n2,mark,0.00,-1\n", SQUARE_BISECTED),
        (
            "1,mark,0,1\n2,mark,0.0,-1\n2,mark,0.1,2\n",
            SQUARE_OF_OTHER_ELEVEN,
        ),
    ];
    for (rows, want) in cases {
        assert!(rt; writes(&rt, rt.alloc(), SQUARE, rows, want)?, "{rows}");
    }
    Ok(())
}

#[test]
fn malformed_rows_are_refused(rt: HostRuntime) -> Result<(), Fail> {
    let cases = [
        ("1,mark,0,25\n", "adapt: marks: row 2: bad number\n"),
        ("1,mark,0,-25\n", "adapt: marks: row 2: bad number\n"),
        ("1,elm,0,1\n", "adapt: marks: row 2: bad what\n"),
        ("1,elem,0/1,1\n", "adapt: marks: row 2: bad where\n"),
        ("1,vert,0,1\n", "adapt: marks: row 2: bad where\n"),
        ("1,elem,0,2147483649\n", "adapt: marks: row 2: bad number\n"),
        (
            "2,mark,0,1\n1,mark,0,1\n",
            "adapt: marks: row 3: rounds fall\n",
        ),
        ("0,mark,0,1\n", "adapt: marks: row 2: bad round\n"),
        ("1,mark,00,1\n", "adapt: marks: row 2: bad where\n"),
        ("1,mark,0\n", "adapt: marks: row 2: bad fields\n"),
    ];
    for (rows, told) in cases {
        assert!(rt; refuses(&rt, rt.alloc(), SQUARE, rows, 4, told)?, "{rows}");
    }
    Ok(())
}

#[test]
fn rows_on_what_is_no_leaf_or_too_deep_are_refused(rt: HostRuntime) -> Result<(), Fail> {
    let cases = [
        ("1,mark,0.0,1\n", "adapt: marks: row 2: not a leaf\n"),
        ("1,mark,2,1\n", "adapt: marks: row 2: not a leaf\n"),
        ("1,elem,0.0,1\n", "adapt: marks: row 2: not a leaf\n"),
        ("1,vert,2/0,1\n", "adapt: marks: row 2: not a leaf\n"),
        (
            "1,mark,0,1\n2,mark,0.0,24\n",
            "adapt: marks: row 3: level 25 is above 24\n",
        ),
        (
            "1,mark,0,1\n1,elem,0,1\n2,vert,1.1/2,1\n2,vert,1/2,1\n2,mark,0.0,24\n",
            "adapt: marks: row 5: not a leaf\n",
        ),
    ];
    for (rows, told) in cases {
        assert!(rt; refuses(&rt, rt.alloc(), SQUARE, rows, 4, told)?, "{rows}");
    }
    Ok(())
}

#[test]
fn a_round_beyond_the_pool_tells_both_numbers(rt: HostRuntime) -> Result<(), Fail> {
    let told = "adapt: round 1: 66803 patches needed, pool 65536\n";
    assert!(rt; refuses(&rt, rt.alloc(), SQUARE, "1,mark,0,17\n", 5, told)?);
    Ok(())
}

#[test]
fn files_are_refused_by_key_and_by_line(rt: HostRuntime) -> Result<(), Fail> {
    let cases = [
        ("", "adapt: macro: key missing: number of vertices\n"),
        (
            &SQUARE[..SQUARE.len() - 2],
            "adapt: macro: line 10: 5 numbers where 6 belong\n",
        ),
    ];
    for (text, told) in cases {
        assert!(rt; refuses(&rt, rt.alloc(), text, "", 3, told)?, "{told}");
    }
    Ok(())
}

#[test]
fn faults_of_elements_are_told(rt: HostRuntime) -> Result<(), Fail> {
    let head =
        "number of vertices: 5\nnumber of elements: 3\nvertex coordinates: 0 0 1 0 1 1 0 1 3 1\nelement vertices: 2 0 1 ";
    let cases = [
        (
            "1 2 0 0 2 4",
            "adapt: macro: elements 0 and 1: twin elements\n",
        ),
        (
            "0 2 3 0 2 4",
            "adapt: macro: element 2 edge 2: edge of three\n",
        ),
        (
            "0 2 3 0 2 5",
            "adapt: macro: element 2: vertex out of range\n",
        ),
        ("0 2 3 0 2 2", "adapt: macro: element 2: repeated vertex\n"),
    ];
    for (triples, told) in cases {
        let text = format!(in rt.alloc(); "{head}{triples}\n")?;
        assert!(rt; refuses(&rt, rt.alloc(), &text, "", 3, told)?, "{told}");
    }
    Ok(())
}

#[test]
fn words_and_missing_files_are_told(rt: HostRuntime) -> Result<(), Fail> {
    let cases = [
        ("run q", 2, USAGE),
        ("run q m x", 2, USAGE),
        ("run -q m", 2, USAGE),
        ("run q -", 6, "adapt: read fault: -\n"),
        ("go q m", 2, USAGE),
        ("run x m", 6, "adapt: read fault: x\n"),
        ("run q x", 6, "adapt: read fault: x\n"),
        ("run q e", 4, "adapt: marks: row 1: bad header\n"),
    ];
    for (line, status, want) in cases {
        let files = [("q", SQUARE), ("m", "round,what,where,number\n"), ("e", "")];
        let ran = run_words(&rt, rt.alloc(), line, shelf(rt.alloc(), &files)?)?;
        assert!(rt; ran.err.bytes() == want.as_bytes(), "{line}");
        assert_eq!(rt; ran.status, status, "{line}");
        assert_eq!(rt; ran.out.bytes().len(), 0, "{line}");
    }
    Ok(())
}

#[test]
fn an_out_that_fails_keeps_what_it_took(rt: HostRuntime) -> Result<(), Fail> {
    let alloc = rt.alloc();
    let words = words(alloc, "run q m")?;
    let files = [
        ("q", SQUARE),
        ("m", "round,what,where,number\n1,mark,0,1\n"),
    ];
    let mut shelf = shelf(alloc, &files)?;
    let mut out = sink(alloc, 100, vec![in alloc; 2]?)?;
    let mut err = sink(alloc, 100, Vec::new(alloc))?;
    let status = adapt(&rt, alloc, &words, &mut shelf, &mut out, &mut err, &NoGate);
    assert_eq!(rt; status, 7);
    assert!(rt; out.bytes() == &SQUARE_BISECTED.as_bytes()[..100]);
    assert!(rt; err.bytes() == "adapt: write fault\n".as_bytes());
    Ok(())
}
