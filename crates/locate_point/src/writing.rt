//! The places of points as a text.
ghost use Rattle.std.specs.Prelude.{◌≡◌, ◌++◌, All, IfOk, OnOk};
ghost use Rattle.compat_check.specs.Within.{IsWithin};
ghost use Rattle.locate_point.specs.Locating.{AreLeaves};
ghost use Rattle.locate_point.specs.PlaceTexts.{IsPlacesText, place_text};

use crate::locator::Locator;
use crate::triangle::Point;
use compat_check::MacroMesh;
use mesh_names::name::ElemName;
use mesh_names::spelling::put_name;
use std::alloc::{AllocError, Global};

// Appends the line of a place.
fn put_place(text: &mut Vec<u8>, place: Option<ElemName>) -> Result<(), AllocError>
    ensures { OnOk result (text.new.items ≡ text.old.items ++ place_text place) }
{
    let Some(name) = place else {
        return text.extend_from_slice(b"none\n");
    };
    if put_name(text, name).is_err() {
        return Err(AllocError);
    }
    text.extend_from_slice(b"\n")
}

/// The places of points in the leaves of a forest over the mesh, which are given in order: a line
/// for each point, in the order of the points, with the name of the least leaf whose triangle
/// contains the point, or `none` where none does.
pub fn put_places(
    alloc: Global,
    mesh: &MacroMesh,
    leaves: &[ElemName],
    points: &[Point],
) -> Result<Vec<u8>, AllocError>
    requires leaves { AreLeaves mesh.now leaves.now }
    requires points { All IsWithin points.now }
    ensures { IfOk result (λ text. IsPlacesText mesh.now leaves.now points.now text.items) }
{
    let locator = Locator::new(alloc, mesh, leaves)?;
    let mut text = Vec::new(alloc);
    for point in points {
        put_place(&mut text, locator.place(*point))?;
    }
    Ok(text)
}
