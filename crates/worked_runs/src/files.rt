//! The files of the runs.

/// The square of two triangles that share their refinement edges.
pub const SQUARE: &str = "DIM: 2
DIM_OF_WORLD: 2
number of vertices: 4
number of elements: 2
vertex coordinates:
0 0
1 0
1 1
0 1
element vertices:
2 0 1
0 2 3
";

/// The square with element 1 turned, so that element 0 has grade 1.
pub const TURNED_SQUARE: &str = "number of vertices: 4
number of elements: 2
vertex coordinates:
0 0
1 0
1 1
0 1
element vertices:
2 0 1
2 3 0
";

/// A square of four triangles around a point, in ALBERTA's spelling.
pub const FOUR_TRIANGLES: &str = "DIM: 2
DIM_OF_WORLD: 2

number of vertices: 5
number of elements: 4

vertex coordinates:
  0.0e+00 0.0e+00
  1.0e+00 0.0e+00
  1.0e+00 1.0e+00
  0.0e+00 1.0e+00
  0.33333333333333331 5.0e-01

element vertices:
  0 1 4
  1 2 4
  2 3 4
  3 0 4

element boundaries:
  0 0 1
  0 0 1
  0 0 1
  0 0 1

element neighbours:
  1 3 -1
  2 0 -1
  3 1 -1
  0 2 -1
";

/// One triangle.
pub const TRIANGLE: &str = "number of vertices: 3
number of elements: 1
vertex coordinates: 0 0 1 0 0 1
element vertices: 0 1 2
";

/// The square with values.
pub const VALUED_SQUARE: &str = "number of vertices: 4
number of elements: 2
vertex coordinates: 0 0 1 0 1 1 0 1
element vertices: 2 0 1 0 2 3
vertex values: 3 0 -4 0
element values: -7 0
";

/// One triangle with values, and a vertex that it does not have.
pub const VALUED_TRIANGLE: &str = "number of vertices: 4
number of elements: 1
vertex coordinates: 0 0 1 0 5 5 0 1
element vertices: 0 1 3
vertex values: 1 2 3 4
element values: 36028797018963968
";

/// The turned square with values.
pub const VALUED_TURNED_SQUARE: &str = "number of vertices: 4
number of elements: 2
vertex coordinates: 0 0 1 0 1 1 0 1
element vertices: 2 0 1 2 3 0
vertex values: 1 10 100 1000
element values: 11 -5
";
