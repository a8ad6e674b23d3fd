//! Tests of reading and writing.
use super::*;
use std::alloc::{AllocError, Global};
use std::test::Fail;

const COUNTS: &str = "number of vertices: 1\nnumber of elements: 1\n";

const LISTS: &str = "vertex coordinates: 0 0\nelement vertices: 0 0 0\n";

// One vertex.
const POINT: &str = "number of vertices: 1\nnumber of elements: 1\nvertex coordinates: 0 0\n";

const FILE: &str =
    "number of vertices: 1\nnumber of elements: 1\nvertex coordinates: 0 0\nelement vertices: 0 0 0\n";

// Two triangles on the unit square.
const SQUARE: &str =
    "DIM: 2\nDIM_OF_WORLD: 2\nnumber of vertices: 4\nnumber of elements: 2\nvertex coordinates:\n0 0\n1 0\n1 1\n0 1\nelement vertices:\n2 0 1\n0 2 3\n";

fn read(alloc: Global, text: &str) -> Result<MacroText, MacroRefusal> {
    if text.len() > 16_777_216 {
        return Err(MacroRefusal::Memory);
    }
    read_macro(alloc, text.as_bytes())
}

// What is answered to the text in three pieces: its refusal as it is printed, or `read`.
fn answer(alloc: Global, front: &str, text: &str, back: &str) -> Result<String, AllocError> {
    let mut file = String::new(alloc);
    file.push_str(front)?;
    file.push_str(text)?;
    file.push_str(back)?;
    match read(alloc, file.as_str()) {
        Ok(_) => String::from_str(alloc, "read"),
        Err(refusal) => refusal.to_string(alloc),
    }
}

#[test]
fn a_square_is_read(rt: HostRuntime) -> Result<(), Fail> {
    let text = read(rt.alloc(), SQUARE)?;
    assert_eq!(rt; text.vertices.len(), 4);
    assert_eq!(rt; text.elements.len(), 2);
    let corner = &text.vertices[2];
    assert_eq!(rt;
        (corner.x, corner.y, corner.value),
        (40_960_000_000_000, 40_960_000_000_000, 0)
    );
    let element = &text.elements[1];
    assert_eq!(rt; element.corners, [0, 2, 3]);
    assert_eq!(rt; element.labels, [0, 0, 0]);
    assert_eq!(rt; element.neighbours, [0, 0, 0]);
    assert_eq!(rt; (text.labels_given, text.neighbours_given), (false, false));
    Ok(())
}

// Every list, in another order, with signs and exponents.
#[test]
fn all_lists_are_written(rt: HostRuntime) -> Result<(), Fail> {
    let text = read(
        rt.alloc(),
        "element values: -7\nelement neighbours: -1 +0 65535\nelement boundaries: -128 0 127\nnumber of elements: 1\nelement vertices: 2 01 0\nvertex values: 5 -0 -2147483648\nvertex coordinates: 0.33333333333333331 1.0e+00 -1e5 -.5 0 1e-999999\nnumber of vertices: 3",
    )?;
    let written = put_macro(rt.alloc(), &text)?;
    let want =
        "DIM: 2\nDIM_OF_WORLD: 2\n\nnumber of vertices: 3\nnumber of elements: 1\n\nvertex coordinates:\n0.3333333333333251953125 1\n-100000 -0.5\n0 0\n\nelement vertices:\n2 1 0\n\nelement boundaries:\n-128 0 127\n\nelement neighbours:\n-1 0 65535\n\nvertex values:\n5\n0\n-2147483648\n\nelement values:\n-7\n";
    assert_eq!(rt; written.as_slice(), want.as_bytes());
    Ok(())
}

#[test]
fn lists_that_were_not_given_are_left_out(rt: HostRuntime) -> Result<(), Fail> {
    let text = read(rt.alloc(), SQUARE)?;
    let written = put_macro(rt.alloc(), &text)?;
    let want =
        "DIM: 2\nDIM_OF_WORLD: 2\n\nnumber of vertices: 4\nnumber of elements: 2\n\nvertex coordinates:\n0 0\n1 0\n1 1\n0 1\n\nelement vertices:\n2 0 1\n0 2 3\n\nvertex values:\n0\n0\n0\n0\n\nelement values:\n0\n0\n";
    assert_eq!(rt; written.as_slice(), want.as_bytes());
    Ok(())
}

// The file is cut after its last `0 2`.
#[test]
fn a_short_list_is_refused_at_its_key(rt: HostRuntime) {
    let cut = &SQUARE[..SQUARE.len() - 3];
    assert_eq!(rt;
        read(rt.alloc(), cut).err(),
        Some(MacroRefusal::CountDiffers {
            line: 10,
            wanted: 6,
            found: 5
        })
    );
}

// Bad keys and keys that stand twice, in the order of the lines.
#[test]
fn keys_are_tried_by_line(rt: HostRuntime) -> Result<(), Fail> {
    let cases: [(&str, &str); 12] = [
        ("7\n", "line 1: bad key"),
        ("\n \t\n# DIM: 2\nx\nDIM: 2\n", "line 4: bad key"),
        (": 2\n", "line 1: bad key"),
        ("DIM: 2\nDIMS: 2\n", "line 2: bad key"),
        ("\u{feff}DIM: 2\n", "line 1: bad key"),
        ("number_of vertices: 1", "line 1: bad key"),
        ("numberof vertices: 1", "line 1: bad key"),
        ("DIM: 2\nDIM: 2\n", "line 2: key twice"),
        ("DIM: 2\ndim: 3\n: 4\n", "line 2: key twice"),
        ("DIM: 2\n: 4\nDIM: 2", "line 2: bad key"),
        ("DIM\r: 2\n", "line 1: bad key"),
        ("\r\n1\r\nDIM: 2\r\n", "line 2: bad key"),
    ];
    for (text, want) in cases {
        assert_eq!(rt;
            answer(rt.alloc(), "", text, "")?.as_str(),
            want,
            "at {text}"
        );
    }
    Ok(())
}

// The first of the four keys that is not there, whatever the numbers are.
#[test]
fn missing_keys_come_next(rt: HostRuntime) -> Result<(), Fail> {
    let cases: [(&str, &str); 9] = [
        ("", "key missing: number of vertices"),
        ("# number of vertices: 1", "key missing: number of vertices"),
        ("number of vertices: 1\n", "key missing: number of elements"),
        (
            "number of vertices: 1\nnumber of elements: 1\n",
            "key missing: vertex coordinates",
        ),
        (
            "number of vertices: 1\rnumber of elements: 1\n",
            "key missing: number of elements",
        ),
        (
            "element vertices:\nvertex coordinates:\nnumber of elements:\nDIM: 3",
            "key missing: number of vertices",
        ),
        (
            "vertex coordinates:\nnumber of vertices:\nnumber of elements:\n",
            "key missing: element vertices",
        ),
        (
            "number of vertices: x\nNUMBER OF ELEMENTS: 0\nelement vertices: -\n",
            "key missing: vertex coordinates",
        ),
        (
            "number of vertices: 1\nnumber of elements: 1\nvertex coordinates: 0 0\nelement # vertices: 0 0 0\n",
            "key missing: element vertices",
        ),
    ];
    for (text, want) in cases {
        assert_eq!(rt;
            answer(rt.alloc(), "", text, "")?.as_str(),
            want,
            "at {text}"
        );
    }
    Ok(())
}

#[test]
fn dimensions_are_two(rt: HostRuntime) -> Result<(), Fail> {
    let cases: [(&str, &str); 11] = [
        ("DIM:\n", "line 1: 0 numbers where 1 belong"),
        ("DIM: 2 2\n", "line 1: 2 numbers where 1 belong"),
        ("DIM:\n\n3\n", "line 3: bad number"),
        ("DIM: 2.0\n", "line 1: bad number"),
        ("DIM: -2\n", "line 1: bad number"),
        ("DIM::2\n", "line 1: bad number"),
        ("DIM_OF_WORLD: 1\n", "line 1: bad number"),
        ("DIM_OF_WORLD: 2\n3\n", "line 1: 2 numbers where 1 belong"),
        ("DIM_OF_WORLD: 1\nDIM: 3\n", "line 2: bad number"),
        ("DIM: +2\nDIM_OF_WORLD: 0002\n", "read"),
        ("DIM: 2#3\n", "read"),
    ];
    for (text, want) in cases {
        assert_eq!(rt;
            answer(rt.alloc(), "", text, FILE)?.as_str(),
            want,
            "at {text}"
        );
    }
    Ok(())
}

#[test]
fn counts_are_tried_in_order(rt: HostRuntime) -> Result<(), Fail> {
    let cases: [(&str, &str); 12] = [
        (
            "number of vertices: 0\nnumber of elements: 1\n",
            "line 1: bad number",
        ),
        (
            "number of vertices: -0\nnumber of elements: 1\n",
            "line 1: bad number",
        ),
        (
            "number of vertices: 65536\nnumber of elements: 1\n",
            "line 1: more than 65535",
        ),
        (
            "number of vertices: 999999999999999999999999999999999999999999999999999999999999\nnumber of elements: 1\n",
            "line 1: more than 65535",
        ),
        (
            "number of vertices: -999999999999999999999999999999999999999999999999999999999999\nnumber of elements: 1\n",
            "line 1: bad number",
        ),
        (
            "number of elements: 65536\nnumber of vertices: 1\n",
            "line 1: more than 65535",
        ),
        (
            "number of elements:\n\n1\n2\nnumber of vertices: 1\n",
            "line 1: 2 numbers where 1 belong",
        ),
        (
            "number of elements: x\nnumber of vertices: 1\n",
            "line 1: bad number",
        ),
        (
            "number of elements: 0\nnumber of vertices: 65536\n",
            "line 2: more than 65535",
        ),
        (
            "number of vertices: 0\nnumber of elements: 1\nDIM: 5\n",
            "line 3: bad number",
        ),
        (
            "number of vertices: 65535\nnumber of elements: 1\n",
            "line 3: 2 numbers where 131070 belong",
        ),
        (
            "number of vertices: 00000000000000000000000000000000000000000000000000000000000000000000001\nnumber of elements: 1\n",
            "read",
        ),
    ];
    for (text, want) in cases {
        assert_eq!(rt;
            answer(rt.alloc(), "", text, LISTS)?.as_str(),
            want,
            "at {text}"
        );
    }
    Ok(())
}

#[test]
fn needed_lists_are_tried_word_by_word(rt: HostRuntime) -> Result<(), Fail> {
    let cases: [(&str, &str); 20] = [
        (
            "vertex coordinates:\n0\nelement vertices: 0 0 0\n",
            "line 3: 1 numbers where 2 belong",
        ),
        (
            "vertex coordinates:\n0 0\n0\nelement vertices: 0 0 0\n",
            "line 3: 3 numbers where 2 belong",
        ),
        (
            "vertex coordinates:\nx 1e6\nelement vertices: 0 0 0\n",
            "line 4: bad number",
        ),
        (
            "vertex coordinates:\n1e6 x\nelement vertices: 0 0 0\n",
            "line 4: coordinate out of range",
        ),
        (
            "vertex coordinates:\n0 .\nelement vertices: 0 0 0\n",
            "line 4: bad number",
        ),
        (
            "vertex coordinates:\n0 1e1234567\nelement vertices: 0 0 0\n",
            "line 4: bad number",
        ),
        (
            "vertex coordinates:\n0\n100000.0000000000001\nelement vertices: 0 0 0\n",
            "line 5: coordinate out of range",
        ),
        (
            "vertex coordinates:\n-100001 0\nelement vertices: 0 0 0\n",
            "line 4: coordinate out of range",
        ),
        (
            "vertex coordinates:\n0 0\nelement vertices: 0 0\n",
            "line 5: 2 numbers where 3 belong",
        ),
        (
            "vertex coordinates:\n0 0\nelement vertices: 0 0 0 0\n",
            "line 5: 4 numbers where 3 belong",
        ),
        (
            "vertex coordinates:\n0 0\nelement vertices: -1 0 0\n",
            "line 5: bad number",
        ),
        (
            "vertex coordinates:\n0 0\nelement vertices: 0 0\n65536\n",
            "line 6: bad number",
        ),
        (
            "vertex coordinates:\n0 0\nelement vertices: 0 2.0 0\n",
            "line 5: bad number",
        ),
        (
            "vertex coordinates:\n0 0\nelement vertices: 0 0 999999999999999999999999999999999999999999999999999999999999\n",
            "line 5: bad number",
        ),
        (
            "vertex coordinates:\n1e6 0\nelement vertices: x\n",
            "line 4: coordinate out of range",
        ),
        (
            "element vertices: x x x x\nvertex coordinates: x",
            "line 3: 4 numbers where 3 belong",
        ),
        (
            "element vertices: x x x\nvertex coordinates: x",
            "line 3: bad number",
        ),
        (
            "vertex coordinates:\n1e-999999 0e999999\nelement vertices: -0 +5 007\n",
            "read",
        ),
        (
            "vertex coordinates:\n100000.00000000000001 -1e5\nelement vertices: 0 0 0\n",
            "read",
        ),
        (
            "vertex coordinates:\n0\n\n0\nelement vertices: \n0\n0\n0\n",
            "read",
        ),
    ];
    for (text, want) in cases {
        assert_eq!(rt;
            answer(rt.alloc(), COUNTS, text, "")?.as_str(),
            want,
            "at {text}"
        );
    }
    Ok(())
}

#[test]
fn other_lists_are_tried_at_the_end(rt: HostRuntime) -> Result<(), Fail> {
    let cases: [(&str, &str); 20] = [
        ("element boundaries: -129 0 0", "line 5: bad number"),
        ("element boundaries: 0 0 128", "line 5: bad number"),
        (
            "element boundaries: 0 0",
            "line 5: 2 numbers where 3 belong",
        ),
        ("element boundaries: -128 127 -0", "read"),
        ("element neighbours: 0 0 -2", "line 5: bad number"),
        ("element neighbours: 65536 0 0", "line 5: bad number"),
        ("element neighbours:", "line 5: 0 numbers where 3 belong"),
        ("element neighbours: -1 65535 -0", "read"),
        ("vertex values: 2147483649", "line 5: value out of range"),
        ("vertex values: -2147483649", "line 5: value out of range"),
        ("vertex values: x", "line 5: bad number"),
        (
            "vertex values: -999999999999999999999999999999999999999999999999999999999999",
            "line 5: value out of range",
        ),
        ("vertex values: -2147483648", "read"),
        (
            "element values: 36028797018963969",
            "line 5: value out of range",
        ),
        (
            "element values:\n\n-36028797018963969",
            "line 7: value out of range",
        ),
        ("element values: 1 1", "line 5: 2 numbers where 1 belong"),
        ("element values: +36028797018963968", "read"),
        ("x:", "line 5: bad key"),
        ("0 0:1", "line 5: bad key"),
        ("DIM: 2\n  dim\t: 2", "line 6: key twice"),
    ];
    for (text, want) in cases {
        assert_eq!(rt;
            answer(rt.alloc(), FILE, text, "")?.as_str(),
            want,
            "at {text}"
        );
    }
    Ok(())
}

// Only spaces, tabs, line ends and comments part words.
#[test]
fn other_bytes_belong_to_words(rt: HostRuntime) -> Result<(), Fail> {
    let cases: [(&str, &str); 10] = [
        ("element vertices: 0 0 0\r", "line 4: bad number"),
        ("element vertices: 0 0\r0 0\n", "line 4: bad number"),
        ("element vertices: 0 0 0\r\r\n", "line 4: bad number"),
        ("element vertices: 0 0\u{b}0 0\n", "line 4: bad number"),
        ("element vertices: 0 0\u{c}0 0\n", "line 4: bad number"),
        (
            "element vertices: 0 0 #0\n",
            "line 4: 2 numbers where 3 belong",
        ),
        (
            "element vertices: 0 0\u{a0}0\n",
            "line 4: 2 numbers where 3 belong",
        ),
        ("element vertices: 0 0 \0\n", "line 4: bad number"),
        ("element vertices:\t0 \t 0\t0# 0\r\n", "read"),
        ("ELEMENT\t Vertices :0 0\r\n\r\n0", "read"),
    ];
    for (text, want) in cases {
        assert_eq!(rt;
            answer(rt.alloc(), POINT, text, "")?.as_str(),
            want,
            "at {text}"
        );
    }
    Ok(())
}
