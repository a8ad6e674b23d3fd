//! Checked macro meshes.
ghost use Rattle.std.specs.Prelude.{◌≡◌, ℕ, IfSome, ◌<◌, ◌≤◌, ◌+◌, ◌^◌, length, slice_get, slice_index_or, option_map, Some};
ghost use Rattle.macro_file.specs.Limits.{AtMost};
ghost use Rattle.mesh_names.specs.Triangles.{size, level, triple_of, grade_of};
ghost use Rattle.mesh_names.specs.Partners.{Tells, partner, top_partner, edge_word};
ghost use Rattle.compat_check.specs.Partnership.{IsNeighbour};
ghost use Rattle.compat_check.specs.Meshes.{IsChecked, across_in, edge_of, label_of, shape_of};

use macro_file::MacroVertex;
use mesh_names::name::ElemName;
use std::marker::Model;

/// The other element at an edge of a macro element, which of its edges it is, and whether it runs
/// the other way there.
#[derive(Clone, Copy, Debug)]
pub struct Side {
    pub(crate) element: u32,
    pub(crate) edge: u8,
    pub(crate) turned: bool,
}

/// A macro mesh that passed the check.
///
/// Edge i of an element lies opposite its corner i, and edge 2 is its refinement edge.
#[derive(Drop)]
pub struct MacroMesh {
    pub(crate) vertices: Vec<MacroVertex>,
    pub(crate) triples: Vec<[u32; 3]>,
    pub(crate) grades: Vec<u8>,
    pub(crate) labels: Vec<[i8; 3]>,
    pub(crate) values: Vec<i64>,
    pub(crate) sides: Vec<Option<Side>>,
}

impl Model for MacroMesh {
    ghost use Rattle.compat_check.specs.Meshes.{Mesh};

    ghost Value = { Mesh };

    ghost use Rattle.compat_check.specs.Sides.{IsStored};

    ghost view = { λ m. record { vertices = m.vertices.items; shape = record { triples = m.triples.items; grades = m.grades.items }; labels = m.labels.items; values = m.values.items } };

    ghost invariant = { λ m. IsStored (record { vertices = m.vertices.items; shape = record { triples = m.triples.items; grades = m.grades.items }; labels = m.labels.items; values = m.values.items }) m.sides.items };
}

impl MacroMesh {
    /// How many elements there are, 1 to 65,535.
    pub fn element_count(&self) -> u32
        ensures count { result ≡ size (shape_of self.now) }
        ensures few { result ≤ 65535 }
        ensures tells { Tells (shape_of self.now) (across_in self.now) }
        ensures checked { IsChecked self.now }
    {
        self.triples.len() as u32
    }

    /// How many vertices there are, 1 to 65,535; some may be in no element.
    pub fn vertex_count(&self) -> u32
        ensures { result ≡ length self.now.vertices }
    {
        self.vertices.len() as u32
    }

    /// The three vertices of an element.
    pub fn triangle(&self, element: u32) -> [u32; 3]
        requires { element < size (shape_of self.now) }
        ensures { result ≡ triple_of (shape_of self.now) element }
    {
        self.triples[element as usize]
    }

    /// The other element with this edge's two vertices; `None` exactly where there is none.
    pub fn neighbour(&self, element: u32, edge: u8) -> Option<u32>
        requires element { element < size (shape_of self.now) }
        requires edge { edge < 3 }
        ensures across { result ≡ option_map (λ a. a.0) (across_in self.now element (edge_of edge)) }
        ensures shares { IfSome result (IsNeighbour (shape_of self.now) element (edge_of edge)) }
        ensures only { (s : ℕ) → IsNeighbour (shape_of self.now) element (edge_of edge) s → result ≡ Some s }
    {
        match self.sides[element as usize * 3 + edge as usize] {
            None => None,
            Some(side) => Some(side.element),
        }
    }

    /// The label of an edge of an element.
    pub fn label(&self, element: u32, edge: u8) -> i8
        requires element { element < size (shape_of self.now) }
        requires edge { edge < 3 }
        ensures { result ≡ label_of self.now element edge }
    {
        self.labels[element as usize][edge as usize]
    }

    /// The value of an element, at most 2^55 in size.
    pub fn element_value(&self, element: u32) -> i64
        requires { element < size (shape_of self.now) }
        ensures value { slice_get self.now.values element ≡ Some result }
        ensures small { AtMost (2 ^ 55) result }
    {
        self.values[element as usize]
    }

    /// A vertex: its coordinates in fine units, and its value.
    pub fn vertex(&self, vertex: u32) -> MacroVertex
        requires { vertex < length self.now.vertices }
        ensures { slice_get self.now.vertices vertex ≡ Some result }
    {
        let vertex = &self.vertices[vertex as usize];
        MacroVertex {
            x: vertex.x,
            y: vertex.y,
            value: vertex.value,
        }
    }

    /// The grade of an element, at most 24.
    pub fn grade(&self, element: u32) -> u8
        requires { element < size (shape_of self.now) }
        ensures grade { result ≡ grade_of (shape_of self.now) element }
        ensures low { result ≤ 24 }
    {
        self.grades[element as usize]
    }

    /// The level of a name: the grade of its macro element and the number of its letters.
    pub fn level(&self, name: ElemName) -> u32
        requires { name.0 < size (shape_of self.now) }
        ensures level { result ≡ level (shape_of self.now) name }
        ensures small { result ≤ 48 }
    {
        u32::from(self.grades[name.root() as usize]) + u32::from(name.depth())
    }
}
