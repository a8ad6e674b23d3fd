//! One walk over the leaves, which finds the corners and labels of each from those of its parent.
ghost use Rattle.std.specs.Prelude.{◌≡◌, ◌<◌, [], All, IfOk, OnOk, IfSome};
ghost use Rattle.mesh_names.specs.Forests.{IsInMesh};
ghost use Rattle.mesh_names.specs.Triangles.{level, triangle};
ghost use Rattle.compat_check.specs.Meshes.{shape_of};
ghost use Rattle.compat_check.specs.Points.{labels};
ghost use Rattle.compat_check.specs.Steps.{IsStep, child_of, name_of};
ghost use Rattle.mesh_writer.specs.Slots.{Grows, HoldCorners};
ghost use Rattle.mesh_writer.specs.Walks.{AreMet, IsAt, IsWalk, OnEntered, child_slots};

use crate::slots::Slots;
use compat_check::mesh::MacroMesh;
use compat_check::steps::Step;
use mesh_names::laws;
use mesh_names::name::ElemName;
use std::alloc::{AllocError, Global};

/// A bisected name, with the slots of its corners and of the midpoint of its refinement edge.
#[derive(Clone, Copy)]
pub(crate) struct Frame {
    name: ElemName,
    step: Step,
    corners: [u32; 3],
    middle: u32,
}

/// The vertices that were met, and the last frame of each depth: for leaves in order these are the
/// names above the last leaf, so that the next leaf's walk is short.
#[derive(Drop)]
pub(crate) struct Walk {
    pub(crate) slots: Slots,
    last: Vec<Frame>,
}

// The slots of a child's corners.
fn child_slots(corners: [u32; 3], middle: u32, side: bool) -> [u32; 3]
    ensures { result ≡ child_slots corners middle side }
{
    let [first, second, apex] = corners;
    if side {
        [second, apex, middle]
    } else {
        [apex, first, middle]
    }
}

impl Walk {
    fn new(alloc: Global, mesh: &MacroMesh) -> Result<Walk, AllocError>
        ensures { IfOk result (IsWalk mesh.now) }
    {
        let slots = Slots::of_macro(alloc, mesh)?;
        let last = Vec::new(alloc);
        Ok(Walk { slots, last })
    }

    // Makes the frame of a name with this step and these corners the last of its depth, and tells where
    // it stands.
    fn put(
        &mut self,
        mesh: &MacroMesh,
        name: ElemName,
        step: Step,
        corners: [u32; 3],
    ) -> Result<usize, AllocError>
        requires walk { IsWalk mesh.now self.old }
        requires step { IsStep mesh.now step }
        requires name { name_of step ≡ name }
        requires corners { HoldCorners (shape_of mesh.now) self.old.slots.keys.items (triangle (shape_of mesh.now) name) corners }
        ensures { OnEntered mesh.now name self.old self.new result }
    {
        laws::partner_is_only();
        laws::partners_pair();
        let _count = mesh.element_count();
        let middle = self.slots.slot(mesh.middle_key(&step), mesh.middle(&step))?;
        let frame = Frame {
            name,
            step,
            corners,
            middle,
        };
        let depth = usize::from(name.depth());
        if self.last.get(depth).is_some() {
            self.last[depth] = frame;
            return Ok(depth);
        }
        let place = self.last.len();
        self.last.push(frame)?;
        Ok(place)
    }

    // Where the frame of a name stands, if it is the last of its depth.
    fn known(&self, name: ElemName) -> Option<usize>
        ensures { IfSome result (IsAt self.now name) }
    {
        let depth = usize::from(name.depth());
        if depth < self.last.len() && self.last[depth].name == name {
            Some(depth)
        } else {
            None
        }
    }

    // Where the frame of a bisected name stands. The recursion is as deep as the word is long.
    fn enter(&mut self, mesh: &MacroMesh, name: ElemName) -> Result<usize, AllocError>
        requires walk { IsWalk mesh.now self.old }
        requires name { IsInMesh (shape_of mesh.now) name }
        requires low { level (shape_of mesh.now) name < 24 }
        ensures { OnEntered mesh.now name self.old self.new result }
    {
        if let Some(place) = self.known(name) {
            return Ok(place);
        }
        let Some((parent, side)) = name.split() else {
            return self.enter_top(mesh, name);
        };
        let above = self.enter(mesh, parent)?;
        self.enter_child(mesh, name, parent, above, side)
    }

    // The frame of a macro element.
    fn enter_top(&mut self, mesh: &MacroMesh, name: ElemName) -> Result<usize, AllocError>
        requires walk { IsWalk mesh.now self.old }
        requires name { IsInMesh (shape_of mesh.now) name }
        requires top { name.1 ≡ [] }
        ensures { OnEntered mesh.now name self.old self.new result }
    {
        let _count = mesh.element_count();
        self.put(mesh, name, mesh.step(name), mesh.triangle(name.root()))
    }

    // The frame of a child, from its parent's, which stands at this place.
    fn enter_child(
        &mut self,
        mesh: &MacroMesh,
        name: ElemName,
        parent: ElemName,
        above: usize,
        side: bool,
    ) -> Result<usize, AllocError>
        requires walk { IsWalk mesh.now self.old }
        requires above { IsAt self.old parent above }
        requires low { level (shape_of mesh.now) parent < 24 }
        requires name { name ≡ child_of parent side }
        ensures { OnEntered mesh.now name self.old self.new result }
    {
        let above = &self.last[above];
        let step = mesh.child_step(&above.step, side);
        let corners = child_slots(above.corners, above.middle, side);
        self.put(mesh, name, step, corners)
    }

    // The slots of a leaf's corners, and the labels of its edges.
    fn leaf(&mut self, mesh: &MacroMesh, name: ElemName) -> Result<([u32; 3], [i8; 3]), AllocError>
        requires walk { IsWalk mesh.now self.old }
        requires name { IsInMesh (shape_of mesh.now) name }
        ensures walk { OnOk result (IsWalk mesh.now self.new) }
        ensures grows { OnOk result (Grows self.old.slots.keys.items self.new.slots.keys.items) }
        ensures corners { IfOk result (λ r. HoldCorners (shape_of mesh.now) self.new.slots.keys.items (triangle (shape_of mesh.now) name) r.0) }
        ensures labels { IfOk result (λ r. r.1 ≡ labels mesh.now name) }
    {
        let _count = mesh.element_count();
        let Some((parent, side)) = name.split() else {
            return Ok((mesh.triangle(name.root()), mesh.labels(name)));
        };
        let above = self.enter(mesh, parent)?;
        let above = &self.last[above];
        let corners = child_slots(above.corners, above.middle, side);
        Ok((corners, mesh.child_labels(&above.step, side)))
    }
}

/// What was met: the vertices by slot, and the leaves by the slots of their corners and by the labels
/// of their edges.
#[derive(Drop)]
pub(crate) struct Met {
    pub(crate) slots: Slots,
    pub(crate) corners: Vec<[u32; 3]>,
    pub(crate) labels: Vec<[i8; 3]>,
}

/// Walks over the leaves. Where they come in order, each name above them is visited once.
pub(crate) fn visit(alloc: Global, mesh: &MacroMesh, leaves: &[ElemName]) -> Result<Met, AllocError>
    requires { All (IsInMesh (shape_of mesh.now)) leaves.now }
    ensures { IfOk result (AreMet mesh.now leaves.now) }
{
    let mut walk = Walk::new(alloc, mesh)?;
    let mut corners = Vec::new(alloc);
    corners.try_reserve(leaves.len())?;
    let mut labels = Vec::new(alloc);
    labels.try_reserve(leaves.len())?;
    for leaf in leaves {
        let (slots, row) = walk.leaf(mesh, *leaf)?;
        corners.push(slots)?;
        labels.push(row)?;
    }
    Ok(Met {
        slots: walk.slots,
        corners,
        labels,
    })
}
