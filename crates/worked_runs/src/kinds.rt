//! Macro texts with two faults of different kinds, the earlier kind at the later element: the earlier
//! kind is told, and nothing of the other.
use crate::run::run;
use std::alloc::{AllocError, Global};
use std::test::Fail;

/// The vertices of all faults: a row of 27 on a line with one above them, the five of a square with
/// its centre, and then those of the small faults.
const POINTS: &str = concat!(
    "0 0 1 0 2 0 3 0 4 0 5 0 6 0 7 0 8 0 9 0 10 0 11 0 12 0 13 0 14 0 15 0 16 0 17 0 18 0 19 0 20 0 21 0 22 0 23 0 24 0 25 0 26 0 0 1 ",
    "0 0 1 0 1 1 0 1 0.5 0.5 ",
    "0 5 1 5 2 5 0 0 1 0 0 1 0 0 1 0 0 1 0 -1 0 2 0 0 1 0 0 1 0 -1"
);

/// Elements with one fault, and their neighbours where they are the first of the text.
#[derive(Clone, Copy)]
struct Fault {
    elements: u32,
    triples: &'static str,
    neighbours: &'static str,
    /// Whether the neighbours are given.
    compared: bool,
}

const OUTSIDE: Fault = Fault {
    elements: 1,
    triples: "0 1 99",
    neighbours: "-1 -1 -1",
    compared: false,
};

const REPEATED: Fault = Fault {
    elements: 1,
    triples: "33 33 34",
    neighbours: "-1 -1 -1",
    compared: false,
};

const FLAT: Fault = Fault {
    elements: 1,
    triples: "33 34 35",
    neighbours: "-1 -1 -1",
    compared: false,
};

const TWINS: Fault = Fault {
    elements: 2,
    triples: "36 37 38 37 38 36",
    neighbours: "-1 -1 -1 -1 -1 -1",
    compared: false,
};

const EDGE_OF_THREE: Fault = Fault {
    elements: 3,
    triples: "39 40 41 40 39 42 39 40 43",
    neighbours: "-1 -1 -1 -1 -1 -1 -1 -1 -1",
    compared: false,
};

const NEIGHBOURS: Fault = Fault {
    elements: 2,
    triples: "44 45 46 45 44 47",
    neighbours: "-1 -1 -1 -1 -1 -1",
    compared: true,
};

/// Four triangles round a point, whose refinement edges go round.
const INCOMPATIBLE: Fault = Fault {
    elements: 4,
    triples: "29 32 28 30 32 29 31 32 30 28 32 31",
    neighbours: "3 -1 1 0 -1 2 1 -1 3 2 -1 0",
    compared: false,
};

/// A fan whose first element has grade 25.
const TOO_HIGH: Fault = Fault {
    elements: 26,
    triples: "1 27 0 2 27 1 3 27 2 4 27 3 5 27 4 6 27 5 7 27 6 8 27 7 9 27 8 10 27 9 11 27 10 12 27 11 13 27 12 14 27 13 15 27 14 16 27 15 17 27 16 18 27 17 19 27 18 20 27 19 21 27 20 22 27 21 23 27 22 24 27 23 25 27 24 26 27 25",
    neighbours: "-1 -1 1 0 -1 2 1 -1 3 2 -1 4 3 -1 5 4 -1 6 5 -1 7 6 -1 8 7 -1 9 8 -1 10 9 -1 11 10 -1 12 11 -1 13 12 -1 14 13 -1 15 14 -1 16 15 -1 17 16 -1 18 17 -1 19 18 -1 20 19 -1 21 20 -1 22 21 -1 23 22 -1 24 23 -1 25 24 -1 -1",
    compared: false,
};

/// The macro text that has these two faults and no other.
fn text_with(alloc: Global, first: Fault, second: Fault) -> Result<String, AllocError> {
    let elements = u64::from(first.elements) + u64::from(second.elements);
    let triples = format!(in alloc; "element vertices: {} {}\n", first.triples, second.triples)?;
    let neighbours = if first.compared || second.compared {
        format!(in alloc;
            "element neighbours: {} {}\n",
            first.neighbours, second.neighbours
        )?
    } else {
        String::new(alloc)
    };
    format!(in alloc;
        "number of vertices: 48\nnumber of elements: {elements}\nvertex coordinates: {POINTS}\n{triples}{neighbours}"
    )
}

#[test]
fn the_earlier_kind_is_told_at_the_later_element(rt: HostRuntime) -> Result<(), Fail> {
    let cases = [
        (REPEATED, OUTSIDE, "element 1: vertex out of range"),
        (FLAT, OUTSIDE, "element 1: vertex out of range"),
        (TWINS, OUTSIDE, "element 2: vertex out of range"),
        (EDGE_OF_THREE, OUTSIDE, "element 3: vertex out of range"),
        (NEIGHBOURS, OUTSIDE, "element 2: vertex out of range"),
        (INCOMPATIBLE, OUTSIDE, "element 4: vertex out of range"),
        (TOO_HIGH, OUTSIDE, "element 26: vertex out of range"),
        (FLAT, REPEATED, "element 1: repeated vertex"),
        (TWINS, REPEATED, "element 2: repeated vertex"),
        (EDGE_OF_THREE, REPEATED, "element 3: repeated vertex"),
        (NEIGHBOURS, REPEATED, "element 2: repeated vertex"),
        (INCOMPATIBLE, REPEATED, "element 4: repeated vertex"),
        (TOO_HIGH, REPEATED, "element 26: repeated vertex"),
        (TWINS, FLAT, "element 2: flat"),
        (EDGE_OF_THREE, FLAT, "element 3: flat"),
        (NEIGHBOURS, FLAT, "element 2: flat"),
        (INCOMPATIBLE, FLAT, "element 4: flat"),
        (TOO_HIGH, FLAT, "element 26: flat"),
        (EDGE_OF_THREE, TWINS, "elements 3 and 4: twin elements"),
        (NEIGHBOURS, TWINS, "elements 2 and 3: twin elements"),
        (INCOMPATIBLE, TWINS, "elements 4 and 5: twin elements"),
        (TOO_HIGH, TWINS, "elements 26 and 27: twin elements"),
        (NEIGHBOURS, EDGE_OF_THREE, "element 4 edge 2: edge of three"),
        (
            INCOMPATIBLE,
            EDGE_OF_THREE,
            "element 6 edge 2: edge of three",
        ),
        (TOO_HIGH, EDGE_OF_THREE, "element 28 edge 2: edge of three"),
        (
            INCOMPATIBLE,
            NEIGHBOURS,
            "element 4 edge 2: neighbours differ",
        ),
        (TOO_HIGH, NEIGHBOURS, "element 26 edge 2: neighbours differ"),
        (TOO_HIGH, INCOMPATIBLE, "element 28 edge 2: incompatible"),
    ];
    for (first, second, what) in cases {
        let text = text_with(rt.alloc(), first, second)?;
        let ran = run(&rt, rt.alloc(), &text, "")?;
        let want = format!(in rt.alloc(); "adapt: macro: {what}\n")?;
        assert!(rt; ran.err.bytes() == want.as_bytes(), "{what}");
        assert_eq!(rt; ran.status, 3, "{what}");
    }
    Ok(())
}

#[test]
fn each_of_the_later_faults_stands_alone_too(rt: HostRuntime) -> Result<(), Fail> {
    let cases = [
        (EDGE_OF_THREE, "element 2 edge 2: edge of three"),
        (NEIGHBOURS, "element 0 edge 2: neighbours differ"),
        (INCOMPATIBLE, "element 2 edge 2: incompatible"),
        (TOO_HIGH, "element 0: grade 25 is above 24"),
    ];
    let none = Fault {
        elements: 0,
        triples: "",
        neighbours: "",
        compared: false,
    };
    for (fault, what) in cases {
        let text = text_with(rt.alloc(), fault, none)?;
        let ran = run(&rt, rt.alloc(), &text, "")?;
        let want = format!(in rt.alloc(); "adapt: macro: {what}\n")?;
        assert!(rt; ran.err.bytes() == want.as_bytes(), "{what}");
    }
    Ok(())
}
