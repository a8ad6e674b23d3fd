//! Steps of a walk down from a macro element, each in constant time.
ghost use Rattle.std.specs.Prelude.{◌≡◌, ◌<◌, ◌≤◌};
ghost use Rattle.mesh_names.specs.Triangles.{level, midpoint, size, triangle};
ghost use Rattle.mesh_names.specs.Patches.{vertex_of, IsKey};
ghost use Rattle.compat_check.specs.Around.{IsAround};
ghost use Rattle.compat_check.specs.Corners.{IsOfMesh};
ghost use Rattle.compat_check.specs.Meshes.{Mesh, across_in, shape_of};
ghost use Rattle.compat_check.specs.Points.{labels, point};
ghost use Rattle.compat_check.specs.Steps.{IsStep, around_by, child_of, name_of, partner_above};

use crate::around::{Above, Around};
use crate::mesh::MacroMesh;
use crate::points::{child_labels, child_points, middle_point};
use mesh_names::name::ElemName;
use mesh_names::patch::VertexKey;

/// A name that a walk down from a macro element has come to, with what a step to a child needs: the
/// partners of the name and of its parent, where its corners lie, and the labels of its edges.
#[derive(Clone, Copy)]
pub struct Step {
    name: ElemName,
    partner: Option<(ElemName, bool)>,
    parent_partner: Option<(ElemName, bool)>,
    points: [(i64, i64); 3],
    labels: [i8; 3],
}

// The partner of the parent.
fn parent_partner(around: &Around) -> Option<(ElemName, bool)>
    ensures { result ≡ partner_above around.now.above }
{
    match around.above {
        None => None,
        Some(above) => above.partner,
    }
}

impl Step {
    /// The name.
    pub fn name(&self) -> ElemName
        ensures { result ≡ name_of self.now }
    {
        self.name
    }

    // The name with its partner, and with its parent.
    fn around(&self) -> Around
        ensures name { result.name ≡ name_of self.now }
        ensures around { (mesh : Mesh) → IsStep mesh self.now → IsAround mesh result }
    {
        match self.name.split() {
            None => self.under(None),
            Some(parent) => self.under(Some(Above {
                name: parent.0,
                side: parent.1,
                partner: self.parent_partner,
            })),
        }
    }

    fn under(&self, above: Option<Above>) -> Around
        ensures { result ≡ around_by self.now above }
    {
        Around {
            name: self.name,
            partner: self.partner,
            above,
        }
    }
}

impl MacroMesh {
    /// The step at a name, by a walk from its macro element.
    pub fn step(&self, name: ElemName) -> Step
        requires root { name.0 < size (shape_of self.now) }
        requires level { level (shape_of self.now) name ≤ 24 }
        ensures name { name_of result ≡ name }
        ensures step { IsStep self.now result }
    {
        let around = self.around(name);
        Step {
            name,
            partner: around.partner,
            parent_partner: parent_partner(&around),
            points: self.points(name),
            labels: self.labels(name),
        }
    }

    /// The step to the child on this side.
    pub fn child_step(&self, step: &Step, side: bool) -> Step
        requires step { IsStep self.now step.now }
        requires level { level (shape_of self.now) (name_of step.now) < 24 }
        ensures name { name_of result ≡ child_of (name_of step.now) side }
        ensures step { IsStep self.now result }
    {
        let child = self.around_child(&step.around(), side);
        Step {
            name: child.name,
            partner: child.partner,
            parent_partner: step.partner,
            points: child_points(step.points, side),
            labels: child_labels(step.labels, side),
        }
    }

    /// The labels of the child on this side.
    pub fn child_labels(&self, step: &Step, side: bool) -> [i8; 3]
        requires { IsStep self.now step.now }
        ensures { result ≡ labels self.now (child_of (name_of step.now) side) }
    {
        let _ = &self.sides;
        child_labels(step.labels, side)
    }

    /// The key of the midpoint of the refinement edge: it names the owner of the patch.
    pub fn middle_key(&self, step: &Step) -> VertexKey
        requires { IsStep self.now step.now }
        ensures stands { vertex_of (shape_of self.now) result ≡ midpoint (triangle (shape_of self.now) (name_of step.now)) }
        ensures key { IsKey (across_in self.now) result }
        ensures mesh { IsOfMesh (shape_of self.now) result }
    {
        self.midpoint_key(&step.around())
    }

    /// Where the midpoint of the refinement edge lies.
    pub fn middle(&self, step: &Step) -> (i64, i64)
        requires { IsStep self.now step.now }
        ensures { result ≡ point self.now.vertices (midpoint (triangle (shape_of self.now) (name_of step.now))) }
    {
        let _ = &self.sides;
        middle_point(step.points)
    }
}
