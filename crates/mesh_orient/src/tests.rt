//! Tests: meshes whose refinement edges do not fit together, and some that are left as they are.
use crate::{OrientRefusal, orient};
use compat_check::{CheckRefusal, check};
use macro_file::{MacroText, put_macro, read_macro};
use std::alloc::{AllocError, Global};
use std::test::Fail;

/// Four triangles round a centre, whose refinement edges all point to it.
const WHEEL: &str = "number of vertices: 5
number of elements: 4
vertex coordinates: 0 0 2 0 2 2 0 2 1 1
element vertices: 0 4 1 1 4 2 2 4 3 3 4 0
";

/// Three triangles round a centre, whose refinement edges point to it.
const FAN: &str = "number of vertices: 4
number of elements: 3
vertex coordinates: 0 0 4 0 0 4 1 1
element vertices: 0 3 1 1 3 2 2 3 0
element boundaries: 0 5 0 0 6 0 0 7 0
element neighbours: 1 -1 2 2 -1 0 0 -1 1
vertex values: 1 2 3 4
element values: -1 -2 -3
";

/// Four triangles round a centre, of which each has as refinement edge the one that it shares with the
/// next: no grades fit.
const CYCLE: &str = "DIM: 2
DIM_OF_WORLD: 2

number of vertices: 5
number of elements: 4

vertex coordinates:
  0.0e+00 0.0e+00
  1.0e+00 0.0e+00
  1.0e+00 1.0e+00
  0.0e+00 1.0e+00
  0.33333333333333331 5.0e-01

element vertices:
  1 4 0
  2 4 1
  3 4 2
  0 4 3
";

/// A band of five triangles with one half twist.
const MOEBIUS_BAND: &str = "number of vertices: 5
number of elements: 5
vertex coordinates: 0 0 1 1 2 4 3 9 4 16
element vertices: 0 1 2 1 2 3 2 3 4 3 4 0 4 0 1
";

/// The torus of seven vertices: each two of them have an edge.
const TORUS: &str = "number of vertices: 7
number of elements: 14
vertex coordinates: 0 0 1 1 2 4 3 9 4 16 5 25 6 36
element vertices: 0 1 3 1 2 4 2 3 5 3 4 6 4 5 0 5 6 1 6 0 2
0 2 3 1 3 4 2 4 5 3 5 6 4 6 0 5 0 1 6 1 2
";

/// The square whose second triangle has grade 0 and whose first one has grade 1.
const GRADED: &str = "number of vertices: 4
number of elements: 2
vertex coordinates: 0 0 1 0 1 1 0 1
element vertices: 2 0 1 2 3 0
";

fn text_of(alloc: Global, text: &str) -> Result<MacroText, AllocError> {
    if text.len() > 4_000_000 {
        return Err(AllocError);
    }
    read_macro(alloc, text.as_bytes()).map_err(|_| AllocError)
}

fn oriented(alloc: Global, text: &str) -> Result<MacroText, AllocError> {
    let text = text_of(alloc, text)?;
    orient(alloc, &text).map_err(|_| AllocError)
}

// Why the check refuses a text; `None` where it accepts it.
fn fault(alloc: Global, text: &str) -> Result<Option<CheckRefusal>, AllocError> {
    let text = text_of(alloc, text)?;
    Ok(check(alloc, text).err())
}

// How many elements the oriented text has, of those with grade 0.
fn count(alloc: Global, text: &str) -> Result<u32, AllocError> {
    let mesh = check(alloc, oriented(alloc, text)?).map_err(|_| AllocError)?;
    let mut count = 0u32;
    for element in 0..mesh.element_count() {
        if mesh.grade(element) == 0 {
            count = count.saturating_add(1);
        }
    }
    Ok(count)
}

#[test]
fn what_is_incompatible_is_oriented(rt: HostRuntime) -> Result<(), Fail> {
    for (text, elements) in [(WHEEL, 4), (FAN, 3), (MOEBIUS_BAND, 5), (TORUS, 14)] {
        let fault = fault(rt.alloc(), text)?;
        assert!(rt; matches!(fault, Some(CheckRefusal::Incompatible { .. })));
        assert_eq!(rt; count(rt.alloc(), text)?, elements);
    }
    Ok(())
}

#[test]
fn a_cycle_that_no_grades_fit_is_oriented(rt: HostRuntime) -> Result<(), Fail> {
    let fault = fault(rt.alloc(), CYCLE)?;
    assert_eq!(rt;
        fault,
        Some(CheckRefusal::Incompatible {
            element: 2,
            edge: 2
        })
    );
    assert_eq!(rt; count(rt.alloc(), CYCLE)?, 4);
    Ok(())
}

// Elements 0 and 1 are a pair, and element 2 stays alone: it takes its edge 1.
const FAN_ORIENTED: &str = "DIM: 2
DIM_OF_WORLD: 2

number of vertices: 4
number of elements: 3

vertex coordinates:
0 0
4 0
0 4
1 1

element vertices:
3 1 0
1 3 2
0 2 3

element boundaries:
5 0 0
0 6 0
0 0 7

element neighbours:
-1 2 1
2 -1 0
1 0 -1

vertex values:
1
2
3
4

element values:
-1
-2
-3
";

#[test]
fn labels_and_neighbours_go_along_with_their_edges(rt: HostRuntime) -> Result<(), Fail> {
    let text = oriented(rt.alloc(), FAN)?;
    let written = put_macro(rt.alloc(), &text).map_err(|_| AllocError)?;
    assert_eq!(rt; written.as_slice(), FAN_ORIENTED.as_bytes());
    Ok(())
}

#[test]
fn what_is_accepted_stays_as_it_is(rt: HostRuntime) -> Result<(), Fail> {
    let text = oriented(rt.alloc(), GRADED)?;
    assert_eq!(rt; text.elements.len(), 2);
    assert_eq!(rt; text.elements[0].corners, [2, 0, 1]);
    assert_eq!(rt; text.elements[1].corners, [2, 3, 0]);
    assert_eq!(rt; (text.labels_given, text.neighbours_given), (false, false));
    assert_eq!(rt; count(rt.alloc(), GRADED)?, 1);
    Ok(())
}

#[test]
fn what_is_no_triangulation_is_refused(rt: HostRuntime) -> Result<(), Fail> {
    let text = format!(in rt.alloc(); "{GRADED}element neighbours: -1 -1 1 -1 -1 0\n")?;
    let text = text_of(rt.alloc(), text.as_str())?;
    let refusal = orient(rt.alloc(), &text).err();
    let fault = CheckRefusal::NeighboursDiffer {
        element: 1,
        edge: 1,
    };
    assert_eq!(rt; refusal, Some(OrientRefusal::Check { refusal: fault }));
    Ok(())
}
