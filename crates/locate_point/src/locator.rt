//! Point location for many points.
use crate::axis::Axis;
use compat_check::MacroMesh;
use mesh_names::name::ElemName;

/// The leaves of a forest over a mesh, in which points are located: answers what `find` answers where
/// the coordinates of the mesh are exact, and else what `find_plain` does.
///
/// Where they are exact the macro triangles stand in the cells of a grid, and else the leaves.
#[derive(Drop)]
pub struct Locator<'m> {
    pub(crate) mesh: &'m MacroMesh,
    pub(crate) leaves: &'m [ElemName],
    pub(crate) exact: bool,
    pub(crate) columns: Axis,
    pub(crate) rows: Axis,
    pub(crate) entries: Vec<(u32, ElemName)>,
}
