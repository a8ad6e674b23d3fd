//! What a checked mesh tells: the square of two triangles, and the same with one of them turned.
use crate::{CheckRefusal, MacroMesh, check, check_valid, edge_labels};
use macro_file::{MacroText, read_macro};
use mesh_names::name::ElemName;
use mesh_names::patch::{PatchName, VertexKey};
use std::alloc::{AllocError, Global};
use std::test::Fail;

/// The square, with values and without labels.
const SQUARE: &str = "number of vertices: 4
number of elements: 2
vertex coordinates: 0 0 1 0 1 1 0 1
element vertices: 2 0 1 0 2 3
vertex values: 3 0 -4 0
element values: -7 9
";

/// The square with element 1 turned, and with labels.
const TURNED_SQUARE: &str = "number of vertices: 4
number of elements: 2
vertex coordinates: 0 0 1 0 1 1 0 1
element vertices: 2 0 1 2 3 0
element boundaries: 5 6 0 7 0 -8
";

/// Four triangles round a centre, whose refinement edges all point to it.
const WHEEL: &str = "number of vertices: 5
number of elements: 4
vertex coordinates: 0 0 2 0 2 2 0 2 1 1
element vertices: 0 4 1 1 4 2 2 4 3 3 4 0
";

fn text_of(alloc: Global, text: &str) -> Result<MacroText, AllocError> {
    if text.len() > 1000 {
        return Err(AllocError);
    }
    read_macro(alloc, text.as_bytes()).map_err(|_| AllocError)
}

fn mesh_of(alloc: Global, text: &str) -> Result<MacroMesh, AllocError> {
    let text = text_of(alloc, text)?;
    check(alloc, text).map_err(|_| AllocError)
}

#[test]
fn a_square_tells_its_elements_and_vertices(rt: HostRuntime) -> Result<(), Fail> {
    let mesh = mesh_of(rt.alloc(), SQUARE)?;
    assert_eq!(rt; mesh.element_count(), 2);
    assert_eq!(rt; mesh.vertex_count(), 4);
    assert_eq!(rt; mesh.triangle(1), [0, 2, 3]);
    assert_eq!(rt; mesh.neighbour(0, 2), Some(1));
    assert_eq!(rt; mesh.neighbour(0, 0), None);
    assert_eq!(rt; mesh.label(0, 0), 1);
    assert_eq!(rt; mesh.label(0, 2), 0);
    assert_eq!(rt; mesh.element_value(0), -7);
    let corner = mesh.vertex(2);
    assert_eq!(rt;
        (corner.x, corner.y),
        (40_960_000_000_000, 40_960_000_000_000)
    );
    assert_eq!(rt; corner.value, -4);
    Ok(())
}

#[test]
fn given_labels_and_grades_are_told(rt: HostRuntime) -> Result<(), Fail> {
    let mesh = mesh_of(rt.alloc(), TURNED_SQUARE)?;
    assert_eq!(rt; mesh.element_count(), 2);
    assert_eq!(rt; mesh.label(0, 1), 6);
    assert_eq!(rt; mesh.label(1, 2), -8);
    assert_eq!(rt; (mesh.grade(0), mesh.grade(1)), (1, 0));
    assert_eq!(rt; mesh.level(ElemName::top(0)), 1);
    assert_eq!(rt; mesh.level(ElemName::top(1).child(0)), 1);
    Ok(())
}

#[test]
fn the_partner_on_a_turned_square_is_a_child(rt: HostRuntime) -> Result<(), Fail> {
    let mesh = mesh_of(rt.alloc(), TURNED_SQUARE)?;
    assert_eq!(rt; mesh.element_count(), 2);
    let top = ElemName::top(0);
    assert!(rt; mesh.level(top) <= 24);
    let child = ElemName::top(1).child(0);
    assert_eq!(rt; mesh.partner(top), Some(child));
    let patch = PatchName {
        first: top,
        second: Some(child),
    };
    assert_eq!(rt; mesh.patch(top), patch);
    Ok(())
}

#[test]
fn corners_name_the_patches_of_their_midpoints(rt: HostRuntime) -> Result<(), Fail> {
    let mesh = mesh_of(rt.alloc(), SQUARE)?;
    assert_eq!(rt; mesh.element_count(), 2);
    let name = ElemName::top(1).child(0).child(1);
    assert!(rt; mesh.level(name) <= 24);
    let corners = [
        VertexKey::Macro(0),
        VertexKey::Patch(ElemName::top(0)),
        VertexKey::Patch(ElemName::top(1).child(0)),
    ];
    assert_eq!(rt; mesh.corners(name), corners);
    Ok(())
}

#[test]
fn midpoints_lie_halfway_and_are_rounded_down(rt: HostRuntime) -> Result<(), Fail> {
    let text = "number of vertices: 3
number of elements: 1
vertex coordinates: 0.33333333333333331 -0.33333333333333331 1 0 0 1
element vertices: 0 1 2
element boundaries: 5 6 7
";
    let mesh = mesh_of(rt.alloc(), text)?;
    assert_eq!(rt; mesh.element_count(), 1);
    let child = ElemName::top(0).child(1);
    let points = [
        (40_960_000_000_000, 0),
        (0, 40_960_000_000_000),
        (27_306_666_666_666, -6_826_666_666_667),
    ];
    assert_eq!(rt; mesh.points(child), points);
    assert_eq!(rt; mesh.labels(child), [0, 7, 5]);
    assert_eq!(rt; mesh.labels(child.child(0)), [5, 0, 7]);
    Ok(())
}

#[test]
fn a_wheel_is_a_triangulation_on_which_bisection_is_not_defined(
    rt: HostRuntime,
) -> Result<(), Fail> {
    let text = text_of(rt.alloc(), WHEEL)?;
    assert_eq!(rt; check_valid(rt.alloc(), &text), Ok(()));
    let refused = check(rt.alloc(), text).err();
    let third = CheckRefusal::Incompatible {
        element: 2,
        edge: 0,
    };
    assert_eq!(rt; refused, Some(third));
    Ok(())
}

#[test]
fn labels_that_are_not_given_are_1_on_the_boundary(rt: HostRuntime) -> Result<(), Fail> {
    let text = text_of(rt.alloc(), WHEEL)?;
    let labels = edge_labels(rt.alloc(), &text).map_err(|_| AllocError)?;
    assert_eq!(rt; labels.as_slice(), [[0, 1, 0]; 4].as_slice());
    let given = text_of(rt.alloc(), TURNED_SQUARE)?;
    let labels = edge_labels(rt.alloc(), &given).map_err(|_| AllocError)?;
    assert_eq!(rt; labels.as_slice(), [[5, 6, 0], [7, 0, -8]].as_slice());
    Ok(())
}

#[test]
fn an_element_given_twice_is_no_triangulation(rt: HostRuntime) -> Result<(), Fail> {
    let twice = "number of vertices: 3
number of elements: 2
vertex coordinates: 0 0 1 0 0 1
element vertices: 0 1 2 1 2 0
";
    let text = text_of(rt.alloc(), twice)?;
    let twins = CheckRefusal::TwinElements {
        first: 0,
        second: 1,
    };
    assert_eq!(rt; check_valid(rt.alloc(), &text), Err(twins));
    Ok(())
}
