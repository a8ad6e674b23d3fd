//! Triangles at their edges, corners and limits; the texts of points; and exact coordinates.
use crate::refusal::PointRefusal;
use crate::triangle::contains;
use crate::{is_exact, read_points};
use compat_check::{MacroMesh, check};
use macro_file::read_macro;
use std::alloc::{AllocError, Global};
use std::test::Fail;

#[test]
fn a_triangle_contains_its_corners(rt: HostRuntime) {
    let triangle = ((0, 0), (4, 0), (0, 4));
    assert!(rt; contains(triangle, (0, 0)));
    assert!(rt; contains(triangle, (4, 0)));
    assert!(rt; contains(triangle, (0, 4)));
}

#[test]
fn a_triangle_contains_its_edges_and_its_inside(rt: HostRuntime) {
    let triangle = ((0, 0), (4, 0), (0, 4));
    assert!(rt; contains(triangle, (2, 0)));
    assert!(rt; contains(triangle, (2, 2)));
    assert!(rt; contains(triangle, (0, 3)));
    assert!(rt; contains(triangle, (1, 1)));
}

#[test]
fn a_triangle_contains_nothing_outside(rt: HostRuntime) {
    let triangle = ((0, 0), (4, 0), (0, 4));
    assert!(rt; !contains(triangle, (5, 0)));
    assert!(rt; !contains(triangle, (-1, 0)));
    assert!(rt; !contains(triangle, (3, 2)));
    assert!(rt; !contains(triangle, (1, -1)));
}

#[test]
fn a_triangle_that_goes_round_to_the_right_contains_the_same(rt: HostRuntime) {
    let triangle = ((0, 0), (0, 4), (4, 0));
    assert!(rt; contains(triangle, (1, 1)));
    assert!(rt; contains(triangle, (2, 2)));
    assert!(rt; !contains(triangle, (3, 2)));
}

#[test]
fn a_flat_triangle_contains_nothing(rt: HostRuntime) {
    assert!(rt; !contains(((0, 0), (2, 2), (4, 4)), (2, 2)));
    assert!(rt; !contains(((0, 0), (2, 2), (4, 4)), (5, 5)));
    assert!(rt; !contains(((1, 1), (1, 1), (1, 1)), (1, 1)));
}

// The half of the square of all points of the range that lies below its diagonal.
#[test]
fn areas_at_the_limits_of_the_range_are_exact(rt: HostRuntime) {
    let low = -4_096_000_000_000_000_000;
    let high = 4_096_000_000_000_000_000;
    let triangle = ((low, low), (high, low), (high, high));
    assert!(rt; contains(triangle, (high, high)));
    assert!(rt; contains(triangle, (0, 0)));
    assert!(rt; !contains(triangle, (0, 1)));
    assert!(rt; !contains(triangle, (low, high)));
}

// How many points a text has, or its first bad line; 0 for another refusal.
fn outcome(alloc: Global, text: &[u8]) -> Result<usize, u32> {
    if text.len() > 1000 {
        return Err(0);
    }
    match read_points(alloc, text) {
        Ok(points) => Ok(points.len()),
        Err(PointRefusal::BadPoint { line }) => Err(line),
        Err(_) => Err(0),
    }
}

#[test]
fn a_line_of_other_words_than_two_decimals_is_bad(rt: HostRuntime) {
    let alloc = rt.alloc();
    assert_eq!(rt; outcome(alloc, b"0 0\n1 x\n"), Err(2));
    assert_eq!(rt; outcome(alloc, b"1 2 3"), Err(1));
    assert_eq!(rt; outcome(alloc, b"1e6 x"), Err(1));
    assert_eq!(rt; outcome(alloc, b"\n \t\r\n0 0 # 1\n"), Err(3));
}

#[test]
fn a_text_of_points_may_be_cut_at_each_byte(rt: HostRuntime) {
    let text: &[u8] = b"1 2\n\r\n3\t4\r\n";
    let wanted = [
        Ok(0),
        Err(1),
        Err(1),
        Ok(1),
        Ok(1),
        Err(2),
        Ok(1),
        Err(3),
        Err(3),
        Ok(2),
        Err(3),
        Ok(2),
    ];
    for (end, want) in wanted.into_iter().enumerate() {
        if let Some(part) = text.get(..end) {
            assert_eq!(rt; outcome(rt.alloc(), part), want);
        }
    }
}

#[test]
fn a_coordinate_above_100000_is_out_of_range(rt: HostRuntime) {
    let far = read_points(rt.alloc(), b"1 2\r\n1e6 0");
    assert!(rt; matches!(&far, Err(PointRefusal::PointRange { line: 2 })));
}

// 40,960,000,000,000 fine units are 1.
#[test]
fn points_stand_between_blanks_and_empty_lines(rt: HostRuntime) -> Result<(), Fail> {
    let points = read_points(rt.alloc(), b"\t1 -2.5e-1 \r\n\n  \n0.00000000000001\t+3")?;
    let wanted: &[(i64, i64)] = &[
        (40_960_000_000_000, -10_240_000_000_000),
        (0, 122_880_000_000_000),
    ];
    assert!(rt; points.as_slice() == wanted);
    Ok(())
}

pub(crate) const SQUARE: &str = "number of vertices: 4
number of elements: 2
vertex coordinates: 0 0 1 0 1 1 0 1
element vertices: 2 0 1 0 2 3
";

const WITH_A_THIRD: &str = "number of vertices: 4
number of elements: 1
vertex coordinates: 0 0 1 0 0 1 0.33333333333333331 0.5
element vertices: 0 1 2
";

pub(crate) fn mesh_of(alloc: Global, text: &str) -> Result<MacroMesh, AllocError> {
    if text.len() > 1000 {
        return Err(AllocError);
    }
    let Ok(text) = read_macro(alloc, text.as_bytes()) else {
        return Err(AllocError);
    };
    check(alloc, text).map_err(|_| AllocError)
}

// A vertex that no element has counts as well.
#[test]
fn a_mesh_with_a_third_is_not_exact(rt: HostRuntime) -> Result<(), Fail> {
    let square = mesh_of(rt.alloc(), SQUARE)?;
    assert!(rt; is_exact(&square));
    let other = mesh_of(rt.alloc(), WITH_A_THIRD)?;
    assert!(rt; !is_exact(&other));
    Ok(())
}
