//! How a locator is made, and what it answers.
ghost use Rattle.std.specs.Prelude.{◌≡◌, ◌↔◌, IfOk, None, true, false};
ghost use Rattle.mesh_names.specs.Leaves.{tops};
ghost use Rattle.mesh_names.specs.Triangles.{size};
ghost use Rattle.compat_check.specs.Meshes.{shape_of};
ghost use Rattle.compat_check.specs.Points.{AreTenths};
ghost use Rattle.compat_check.specs.Within.{IsWithin};
ghost use Rattle.locate_point.specs.Grids.{IsGrid};
ghost use Rattle.locate_point.specs.Locating.{AreLeaves, IsPlace};
ghost use Rattle.locate_point.specs.Locators.{IsLocator, names_of};

use crate::downward::leaf_below;
use crate::exact::is_exact;
use crate::grid::first_in;
use crate::laws::contains_by_children;
use crate::locator::Locator;
use crate::making::{Grid, grid_of, macro_names};
use crate::triangle::Point;
use compat_check::MacroMesh;
use mesh_names::name::ElemName;
use std::alloc::{AllocError, Global};

// The grid of the macro elements.
fn macro_grid(alloc: Global, mesh: &MacroMesh) -> Result<Grid, AllocError>
    ensures { IfOk result (λ grid. IsGrid mesh.now grid.columns grid.rows (tops (size (shape_of mesh.now))) grid.entries.items) }
{
    let names = macro_names(alloc, mesh)?;
    grid_of(alloc, mesh, &names)
}

// The grid of the leaves.
fn leaf_grid(alloc: Global, mesh: &MacroMesh, leaves: &[ElemName]) -> Result<Grid, AllocError>
    requires { AreLeaves mesh.now leaves.now }
    ensures { IfOk result (λ grid. IsGrid mesh.now grid.columns grid.rows leaves.now grid.entries.items) }
{
    grid_of(alloc, mesh, leaves)
}

// The grid of the macro elements where coordinates are exact, and else that of the leaves.
fn grid_by(
    alloc: Global,
    mesh: &MacroMesh,
    leaves: &[ElemName],
    exact: bool,
) -> Result<Grid, AllocError>
    requires { AreLeaves mesh.now leaves.now }
    ensures { IfOk result (λ grid. IsGrid mesh.now grid.columns grid.rows (names_of exact mesh.now leaves.now) grid.entries.items) }
{
    if exact {
        macro_grid(alloc, mesh)
    } else {
        leaf_grid(alloc, mesh, leaves)
    }
}

impl<'m> Locator<'m> {
    /// A locator for these leaves, which are those of a forest over the mesh, in order. Takes memory
    /// for each macro element where coordinates are exact, and else for each leaf.
    pub fn new(
        alloc: Global,
        mesh: &'m MacroMesh,
        leaves: &'m [ElemName],
    ) -> Result<Locator<'m>, AllocError>
        requires { AreLeaves mesh.now leaves.now }
        ensures { IfOk result (IsLocator mesh.entry.now leaves.entry.now) }
    {
        let exact = is_exact(mesh);
        let grid = grid_by(alloc, mesh, leaves, exact)?;
        Ok(Locator {
            mesh,
            leaves,
            exact,
            columns: grid.columns,
            rows: grid.rows,
            entries: grid.entries,
        })
    }

    // The least leaf around a point, where coordinates are exact.
    fn below_macro(&self, point: Point) -> Option<ElemName>
        requires exact { self.now.exact ≡ true }
        requires ready { IsLocator self.now.mesh.now self.now.leaves.now self.now }
        requires point { IsWithin point }
        ensures { IsPlace self.now.mesh.now self.now.leaves.now point result }
    {
        contains_by_children();
        match first_in(self.mesh, self.columns, self.rows, &self.entries, point) {
            None => None,
            Some(top) => Some(leaf_below(self.mesh, self.leaves, top, point)),
        }
    }

    // The least leaf around a point, where they are not.
    fn among_leaves(&self, point: Point) -> Option<ElemName>
        requires exact { self.now.exact ≡ false }
        requires ready { IsLocator self.now.mesh.now self.now.leaves.now self.now }
        requires point { IsWithin point }
        ensures { IsPlace self.now.mesh.now self.now.leaves.now point result }
    {
        first_in(self.mesh, self.columns, self.rows, &self.entries, point)
    }

    /// The least leaf whose triangle contains the point, x and y in fine units; `None` exactly where
    /// none does. Takes no memory.
    pub fn place(&self, point: Point) -> Option<ElemName>
        requires ready { IsLocator self.now.mesh.now self.now.leaves.now self.now }
        requires point { IsWithin point }
        ensures { IsPlace self.now.mesh.now self.now.leaves.now point result }
    {
        if self.exact {
            self.below_macro(point)
        } else {
            self.among_leaves(point)
        }
    }
}
