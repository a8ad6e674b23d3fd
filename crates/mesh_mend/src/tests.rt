//! Tests: whole texts, mended and refused.
use crate::{MendRefusal, mend};
use compat_check::{CheckRefusal, check};
use macro_file::{MacroText, put_macro, read_macro};
use std::alloc::{AllocError, Global};
use std::test::Fail;

/// The square, of which the second triangle has its refinement edge on the boundary.
const ONE_SIDED: &str = "number of vertices: 4
number of elements: 2
vertex coordinates: 0 0 1 0 1 1 0 1
element vertices: 2 0 1 2 3 0
";

/// The same, mended: both centres are exact, and the diagonal is no boundary.
const ONE_SIDED_MENDED: &str = "DIM: 2
DIM_OF_WORLD: 2

number of vertices: 6
number of elements: 6

vertex coordinates:
0 0
1 0
1 1
0 1
0.75 0.25
0.25 0.5

element vertices:
0 1 4
1 2 4
2 0 4
3 0 5
0 2 5
2 3 5

element boundaries:
0 0 1
0 0 1
0 0 0
0 0 1
0 0 0
0 0 1

vertex values:
0
0
0
0
0
0

element values:
0
0
0
0
0
0
";

/// Four triangles round a vertex, of which no grades fit.
const CYCLE: &str = "number of vertices: 5
number of elements: 4
vertex coordinates: 0 0 1 0 1 1 0 1 0.33333333333333331 0.5
element vertices: 1 4 0 2 4 1 3 4 2 0 4 3
";

/// The square with labels and values.
const VALUES: &str = "number of vertices: 4
number of elements: 2
vertex coordinates: 0 0 1 0 1 1 0 1
element vertices: 2 0 1 0 2 3
element boundaries: 5 6 -7 8 9 -7
vertex values: -1 0 0 7
element values: -7 9
";

/// A triangle of one fine unit.
const TINY: &str = "number of vertices: 3
number of elements: 1
vertex coordinates: 0 0 2.44140625e-14 0 0 2.44140625e-14
element vertices: 0 1 2
";

fn text_of(alloc: Global, text: &str) -> Result<MacroText, AllocError> {
    if text.len() > 4_000_000 {
        return Err(AllocError);
    }
    read_macro(alloc, text.as_bytes()).map_err(|_| AllocError)
}

fn mended(alloc: Global, text: &str) -> Result<MacroText, AllocError> {
    let text = text_of(alloc, text)?;
    mend(alloc, &text).map_err(|_| AllocError)
}

// Why a text is not mended; `None` where it is.
fn refusal(alloc: Global, text: &str) -> Result<Option<MendRefusal>, AllocError> {
    let text = text_of(alloc, text)?;
    Ok(mend(alloc, &text).err())
}

#[test]
fn an_edge_of_one_side_is_mended(rt: HostRuntime) -> Result<(), Fail> {
    let text = mended(rt.alloc(), ONE_SIDED)?;
    let written = put_macro(rt.alloc(), &text).map_err(|_| AllocError)?;
    assert_eq!(rt; written.as_slice(), ONE_SIDED_MENDED.as_bytes());
    Ok(())
}

#[test]
fn a_mesh_that_no_grades_fit_is_mended_and_accepted(rt: HostRuntime) -> Result<(), Fail> {
    let text = text_of(rt.alloc(), CYCLE)?;
    let cause = check(rt.alloc(), text).err();
    assert_eq!(rt;
        cause,
        Some(CheckRefusal::Incompatible {
            element: 2,
            edge: 2
        })
    );
    let mesh = check(rt.alloc(), mended(rt.alloc(), CYCLE)?).map_err(|_| AllocError)?;
    assert_eq!(rt; mesh.vertex_count(), 9);
    assert_eq!(rt; mesh.element_count(), 12);
    for element in 0..mesh.element_count() {
        assert_eq!(rt; mesh.grade(element), 0);
    }
    Ok(())
}

#[test]
fn values_are_shared_and_labels_stay(rt: HostRuntime) -> Result<(), Fail> {
    let text = mended(rt.alloc(), VALUES)?;
    assert_eq!(rt; text.elements.len(), 6);
    for (element, (value, label)) in text
        .elements
        .iter()
        .zip([(-2, 5), (-2, 6), (-3, -7), (2, 8), (2, 9), (5, -7)])
    {
        assert_eq!(rt; element.value, value);
        assert_eq!(rt; element.labels, [0, 0, label]);
    }
    assert_eq!(rt; text.vertices.len(), 6);
    assert_eq!(rt; text.vertices[4].value, -1);
    assert_eq!(rt; text.vertices[5].value, 3);
    assert_eq!(rt; (text.labels_given, text.neighbours_given), (true, false));
    Ok(())
}

#[test]
fn a_flat_piece_is_refused(rt: HostRuntime) -> Result<(), Fail> {
    let cause = refusal(rt.alloc(), TINY)?;
    assert_eq!(rt;
        cause,
        Some(MendRefusal::FlatPiece {
            element: 0,
            edge: 1
        })
    );
    Ok(())
}

#[test]
fn wrong_neighbours_are_refused(rt: HostRuntime) -> Result<(), Fail> {
    let text = format!(in rt.alloc(); "{ONE_SIDED}element neighbours: -1 -1 1 -1 -1 0\n")?;
    let fault = CheckRefusal::NeighboursDiffer {
        element: 1,
        edge: 1,
    };
    let cause = refusal(rt.alloc(), text.as_str())?;
    assert_eq!(rt; cause, Some(MendRefusal::Check { refusal: fault }));
    Ok(())
}

// A strip of so many triangles.
fn strip(alloc: Global, count: u32) -> Result<String, AllocError> {
    let vertices = u64::from(count) + 2;
    let mut text = format!(in alloc;
        "number of vertices: {vertices}\nnumber of elements: {count}\nvertex coordinates:\n"
    )?;
    for vertex in 0..vertices {
        let line = format!(in alloc; "{vertex} {}\n", vertex % 2)?;
        text.push_str(line.as_str())?;
    }
    text.push_str("element vertices:\n")?;
    for element in 0..u64::from(count) {
        let line = format!(in alloc; "{element} {} {}\n", element + 1, element + 2)?;
        text.push_str(line.as_str())?;
    }
    Ok(text)
}

#[test]
fn more_than_the_greatest_number_of_elements_is_refused(rt: HostRuntime) -> Result<(), Fail> {
    let largest = mended(rt.alloc(), strip(rt.alloc(), 21_845)?.as_str())?;
    assert_eq!(rt; largest.elements.len(), 65_535);
    let cause = refusal(rt.alloc(), strip(rt.alloc(), 21_846)?.as_str())?;
    let too_large = MendRefusal::TooLarge {
        vertices: 43_694,
        elements: 65_538,
    };
    assert_eq!(rt; cause, Some(too_large));
    Ok(())
}
