//! The values of a mesh before any round.
use crate::{ElementValues, VertexValues};
use compat_check::{MacroMesh, check};
use macro_file::read_macro;
use mesh_names::name::ElemName;
use mesh_names::patch::VertexKey;
use std::alloc::{AllocError, Global};
use std::test::Fail;

const SQUARE: &str = "number of vertices: 4
number of elements: 2
vertex coordinates: 0 0 1 0 1 1 0 1
element vertices: 2 0 1 0 2 3
vertex values: 3 0 -4 0
element values: -7 0
";

fn mesh_of(alloc: Global, text: &str) -> Result<MacroMesh, AllocError> {
    if text.len() > 1000 {
        return Err(AllocError);
    }
    let text = read_macro(alloc, text.as_bytes()).map_err(|_| AllocError)?;
    check(alloc, text).map_err(|_| AllocError)
}

#[test]
fn the_square_keeps_its_values(rt: HostRuntime) -> Result<(), Fail> {
    let mesh = mesh_of(rt.alloc(), SQUARE)?;
    let vertices = VertexValues::new(rt.alloc(), &mesh)?;
    assert_eq!(rt; vertices.value(VertexKey::Macro(2)), Some(-4));
    assert_eq!(rt; vertices.index(VertexKey::Macro(3)), Some(3));
    assert_eq!(rt; vertices.value(VertexKey::Macro(4)), None);
    assert_eq!(rt; vertices.value(VertexKey::Patch(ElemName::top(0))), None);
    let elements = ElementValues::new(rt.alloc(), &mesh)?;
    assert_eq!(rt; elements.value(ElemName::top(0)), Some(-7));
    assert_eq!(rt; elements.index(ElemName::top(1)), Some(1));
    assert_eq!(rt; elements.holes(), 0);
    Ok(())
}

#[test]
fn values_stand_in_the_order_of_the_list(rt: HostRuntime) -> Result<(), Fail> {
    let mesh = mesh_of(rt.alloc(), SQUARE)?;
    let elements = ElementValues::new(rt.alloc(), &mesh)?;
    let names = [ElemName::top(1), ElemName::top(0), ElemName::top(2)];
    let values = elements.values(rt.alloc(), &names)?;
    assert_eq!(rt; values.as_slice(), [0, -7, 0].as_slice());
    let vertices = VertexValues::new(rt.alloc(), &mesh)?;
    let keys = [
        VertexKey::Macro(2),
        VertexKey::Macro(0),
        VertexKey::Patch(ElemName::top(0)),
        VertexKey::Macro(4),
    ];
    let values = vertices.values(rt.alloc(), &keys)?;
    assert_eq!(rt; values.as_slice(), [-4, 3, 0, 0].as_slice());
    Ok(())
}
