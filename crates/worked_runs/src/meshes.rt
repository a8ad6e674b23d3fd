//! Macro meshes that are accepted, and those that are refused when they are checked.
use crate::files::SQUARE;
use crate::run::run;
use std::test::Fail;

// The macro text with these numbers, in the order of its keys.
macro_rules! macro_text {
    ($vertices:literal, $elements:literal, $points:literal, $triples:literal) => {
        concat!(
            "number of vertices: ",
            $vertices,
            "\nnumber of elements: ",
            $elements,
            "\nvertex coordinates: ",
            $points,
            "\nelement vertices: ",
            $triples,
            "\n"
        )
    };
}

// Three by three squares with opposite sides put together, each cut along its diagonal.
const TORUS: &str = macro_text!(
    "9",
    "18",
    "0 0 1 1 2 4 3 9 4 16 5 25 6 36 7 49 8 64",
    "0 4 1 4 0 3 1 5 2 5 1 4 2 3 0 3 2 5 3 7 4 7 3 6 4 8 5 8 4 7 5 6 3 6 5 8 6 1 7 1 6 0 7 2 8 2 7 1 8 0 6 0 8 2"
);

// Three squares in a row, each cut along its diagonal, with the ends put together upside down.
const MOEBIUS_STRIP: &str = macro_text!(
    "6",
    "6",
    "0 0 1 1 2 4 3 9 4 16 5 25",
    "0 3 2 3 0 1 2 5 4 5 2 3 4 0 1 0 4 5"
);

#[test]
fn a_torus_and_a_moebius_strip_are_accepted(rt: HostRuntime) -> Result<(), Fail> {
    let cases = [
        (TORUS, "number of vertices: 9\nnumber of elements: 18\n"),
        (
            MOEBIUS_STRIP,
            "number of vertices: 6\nnumber of elements: 6\n",
        ),
    ];
    for (text, counts) in cases {
        let ran = run(&rt, rt.alloc(), text, "")?;
        assert_eq!(rt; ran.status, 0, "{counts}");
        let head = format!(in rt.alloc(); "DIM: 2\nDIM_OF_WORLD: 2\n\n{counts}")?;
        assert!(rt; ran.out.bytes().starts_with(head.as_bytes()), "{counts}");
    }
    Ok(())
}

#[test]
fn refinement_edges_that_go_round_are_incompatible(rt: HostRuntime) -> Result<(), Fail> {
    let text = macro_text!(
        "5",
        "4",
        "0 0 1 0 1 1 0 1 0.5 0.5",
        "1 4 0 2 4 1 3 4 2 0 4 3"
    );
    let ran = run(&rt, rt.alloc(), text, "")?;
    let want = "adapt: macro: element 2 edge 2: incompatible\n";
    assert!(rt; ran.err.bytes() == want.as_bytes());
    assert_eq!(rt; ran.status, 3);
    Ok(())
}

// The points of a fan over the x axis.
macro_rules! fan {
    ($elements:literal, $triples:literal) => {
        macro_text!(
            "28",
            $elements,
            "0 0 1 0 2 0 3 0 4 0 5 0 6 0 7 0 8 0 9 0 10 0 11 0 12 0 13 0 14 0 15 0 16 0 17 0 18 0 19 0 20 0 21 0 22 0 23 0 24 0 25 0 26 0 0 1",
            $triples
        )
    };
}

// Fans of triangles, each with its refinement edge on the one after it.
const FAN_OF_25: &str = fan!(
    "25",
    "1 27 0 2 27 1 3 27 2 4 27 3 5 27 4 6 27 5 7 27 6 8 27 7 9 27 8 10 27 9 11 27 10 12 27 11 13 27 12 14 27 13 15 27 14 16 27 15 17 27 16 18 27 17 19 27 18 20 27 19 21 27 20 22 27 21 23 27 22 24 27 23 25 27 24"
);

const FAN_OF_26: &str = fan!(
    "26",
    "1 27 0 2 27 1 3 27 2 4 27 3 5 27 4 6 27 5 7 27 6 8 27 7 9 27 8 10 27 9 11 27 10 12 27 11 13 27 12 14 27 13 15 27 14 16 27 15 17 27 16 18 27 17 19 27 18 20 27 19 21 27 20 22 27 21 23 27 22 24 27 23 25 27 24 26 27 25"
);

#[test]
fn a_fan_may_have_grade_24_and_not_25(rt: HostRuntime) -> Result<(), Fail> {
    let ran = run(&rt, rt.alloc(), FAN_OF_25, "")?;
    assert_eq!(rt; ran.status, 0);
    let ran = run(&rt, rt.alloc(), FAN_OF_26, "")?;
    let want = "adapt: macro: element 0: grade 25 is above 24\n";
    assert!(rt; ran.err.bytes() == want.as_bytes());
    assert_eq!(rt; ran.status, 3);
    Ok(())
}

#[test]
fn given_neighbours_are_compared(rt: HostRuntime) -> Result<(), Fail> {
    let cases = [
        ("-1 -1 1 -1 -1 0", 0, ""),
        (
            "-1 -1 1 -1 -1 -1",
            3,
            "adapt: macro: element 1 edge 2: neighbours differ\n",
        ),
        (
            "1 -1 1 -1 -1 -1",
            3,
            "adapt: macro: element 0 edge 0: neighbours differ\n",
        ),
    ];
    for (neighbours, status, want) in cases {
        let text = format!(in rt.alloc(); "{SQUARE}element neighbours: {neighbours}\n")?;
        let ran = run(&rt, rt.alloc(), &text, "")?;
        assert!(rt; ran.err.bytes() == want.as_bytes(), "{neighbours}");
        assert_eq!(rt; ran.status, status, "{neighbours}");
    }
    Ok(())
}
