//! The text of a mesh before any bisection.
use crate::text::mesh_text;
use compat_check::{MacroMesh, check};
use dof_transfer::{ElementValues, VertexValues};
use macro_file::read_macro;
use mesh_names::name::ElemName;
use std::alloc::{AllocError, Global};
use std::test::Fail;
use std::thread::Threads;

// Two triangles on the unit square.
const SQUARE: &str = "number of vertices: 4
number of elements: 2
vertex coordinates: 0 0 1 0 1 1 0 1
element vertices: 2 0 1 0 2 3
";

// The lists of values that follow it in a macro file.
const VALUES: &str = "vertex values: 3 0 -4 0
element values: -7 0
";

// The text of the square with no values.
const SQUARE_TEXT: &str = "DIM: 2
DIM_OF_WORLD: 2

number of vertices: 4
number of elements: 2

vertex coordinates:
0 0
1 0
1 1
0 1

element vertices:
2 0 1
0 2 3

element boundaries:
1 1 0
1 1 0

element neighbours:
-1 -1 1
-1 -1 0

vertex values:
0
0
0
0

element values:
0
0
";

fn mesh_of(alloc: Global, text: &str) -> Result<MacroMesh, AllocError> {
    if text.len() > 1000 {
        return Err(AllocError);
    }
    let text = read_macro(alloc, text.as_bytes()).map_err(|_| AllocError)?;
    check(alloc, text).map_err(|_| AllocError)
}

// The text of a mesh of two elements before any bisection.
fn text_of_two<R: Threads + Sync>(
    rt: &R,
    alloc: Global,
    mesh: &MacroMesh,
) -> Result<Vec<u8>, AllocError> {
    if mesh.element_count() != 2 {
        return Err(AllocError);
    }
    let Ok(vertices) = VertexValues::new(alloc, mesh) else {
        return Err(AllocError);
    };
    let Ok(elements) = ElementValues::new(alloc, mesh) else {
        return Err(AllocError);
    };
    let leaves = [ElemName::top(0), ElemName::top(1)];
    mesh_text(rt, alloc, mesh, &leaves, &vertices, &elements).map_err(|_| AllocError)
}

#[test]
fn the_square_is_written(rt: HostRuntime) -> Result<(), Fail> {
    let mesh = mesh_of(rt.alloc(), SQUARE)?;
    let text = text_of_two(&rt, rt.alloc(), &mesh)?;
    assert_eq!(rt; text.len(), 251);
    assert_eq!(rt; text.as_slice(), SQUARE_TEXT.as_bytes());
    Ok(())
}

#[test]
fn each_value_stands_at_its_place(rt: HostRuntime) -> Result<(), Fail> {
    let file = format!(in rt.alloc(); "{SQUARE}{VALUES}")?;
    let mesh = mesh_of(rt.alloc(), file.as_str())?;
    let text = text_of_two(&rt, rt.alloc(), &mesh)?;
    let end = "vertex values:\n3\n0\n-4\n0\n\nelement values:\n-7\n0\n";
    assert!(rt; text.as_slice().ends_with(end.as_bytes()));
    Ok(())
}
