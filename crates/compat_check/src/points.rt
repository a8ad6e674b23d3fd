//! Where the corners of names lie, and the labels of their edges.
ghost use Rattle.std.specs.Prelude.{◌≡◌, ◌<◌, [], length};
ghost use Rattle.mesh_names.specs.Patches.{vertex_of};
ghost use Rattle.mesh_names.specs.Triangles.{size};
ghost use Rattle.compat_check.specs.Faults.{point_at};
ghost use Rattle.compat_check.specs.Meshes.{shape_of};
ghost use Rattle.compat_check.specs.Points.{IsVertexOf, between, labels, point, points};
ghost use Rattle.compat_check.specs.Within.{IsWithin, child_points, corner, labels_by};

use crate::climbing::letter_after;
use crate::mesh::MacroMesh;
use mesh_names::name::ElemName;
use mesh_names::patch::VertexKey;

// The point halfway between two, each coordinate rounded down.
fn between(first: (i64, i64), second: (i64, i64)) -> (i64, i64)
    requires first { IsWithin first }
    requires second { IsWithin second }
    ensures { result ≡ between first second }
{
    ((first.0 + second.0) >> 1, (first.1 + second.1) >> 1)
}

// Where the corners of a child lie.
pub(crate) fn child_points(corners: [(i64, i64); 3], side: bool) -> [(i64, i64); 3]
    requires first { IsWithin (corner corners 0) }
    requires second { IsWithin (corner corners 1) }
    ensures { result ≡ child_points corners side }
{
    let [first, second, apex] = corners;
    let middle = middle_point(corners);
    if side {
        [second, apex, middle]
    } else {
        [apex, first, middle]
    }
}

// Where the middle of the refinement edge lies.
pub(crate) fn middle_point(corners: [(i64, i64); 3]) -> (i64, i64)
    requires first { IsWithin (corner corners 0) }
    requires second { IsWithin (corner corners 1) }
    ensures { result ≡ between (corner corners 0) (corner corners 1) }
{
    let [first, second, _] = corners;
    between(first, second)
}

// The labels of a child.
pub(crate) fn child_labels(labels: [i8; 3], side: bool) -> [i8; 3]
    ensures { result ≡ labels_by labels side }
{
    let [first, second, third] = labels;
    if side {
        [0, third, first]
    } else {
        [third, 0, second]
    }
}

impl MacroMesh {
    // Where a macro vertex lies.
    fn macro_point(&self, vertex: u32) -> (i64, i64)
        requires { vertex < length self.now.vertices }
        ensures { result ≡ point_at self.now.vertices vertex }
    {
        let vertex = &self.vertices[vertex as usize];
        (vertex.x, vertex.y)
    }

    // Where the corners of a macro element lie.
    fn macro_points(&self, name: ElemName) -> [(i64, i64); 3]
        requires root { name.0 < size (shape_of self.now) }
        requires top { name.1 ≡ [] }
        ensures { result ≡ points self.now name }
    {
        let [first, second, third] = self.triples[name.root() as usize];
        [
            self.macro_point(first),
            self.macro_point(second),
            self.macro_point(third),
        ]
    }

    /// Where the corners of a name lie, x and y in fine units. A new vertex lies halfway between the
    /// ends of the refinement edge that it bisects, rounded down. Takes no memory.
    pub fn points(&self, name: ElemName) -> [(i64, i64); 3]
        requires { name.0 < size (shape_of self.now) }
        ensures { result ≡ points self.now name }
    {
        let _few = self.element_count();
        let [one, two, three] = self.macro_points(ElemName::top(name.root()));
        let (mut first, mut second, mut apex) = (one, two, three);
        for letters in 0..name.depth() {
            let [one, two, three] = child_points(
                [first, second, apex],
                letter_after(name, letters),
            );
            first = one;
            second = two;
            apex = three;
        }
        [first, second, apex]
    }

    /// Where a vertex lies, by its key, x and y in fine units. Takes no memory.
    pub fn point(&self, key: VertexKey) -> (i64, i64)
        requires { IsVertexOf self.now key }
        ensures { result ≡ point self.now.vertices (vertex_of (shape_of self.now) key) }
    {
        match key {
            VertexKey::Macro(vertex) => self.macro_point(vertex),
            VertexKey::Patch(owner) => middle_point(self.points(owner)),
        }
    }

    /// The labels of a name's edges 0, 1 and 2: a part of a macro edge has its label, and an edge
    /// inside of a macro element has 0. Takes no memory; the recursion is as deep as the word is long.
    pub fn labels(&self, name: ElemName) -> [i8; 3]
        requires { name.0 < size (shape_of self.now) }
        ensures { result ≡ labels self.now name }
    {
        let Some((parent, side)) = name.split() else {
            let root = name.root();
            return [
                self.label(root, 0),
                self.label(root, 1),
                self.label(root, 2),
            ];
        };
        child_labels(self.labels(parent), side)
    }
}
