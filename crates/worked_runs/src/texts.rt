//! What runs on other meshes write, worked out from the definitions by a model of its own.

/// The turned square after mark 1 on element 0.
pub const TURNED_BISECTED: &str = "DIM: 2
DIM_OF_WORLD: 2

number of vertices: 6
number of elements: 5

vertex coordinates:
0 0
1 0
1 1
0 1
0.5 0.5
0.5 1

element vertices:
1 2 4
0 1 4
5 0 4
2 5 4
3 0 5

element boundaries:
0 0 1
0 0 1
0 0 0
0 0 1
0 1 1

element neighbours:
3 1 -1
0 2 -1
1 3 4
2 0 -1
2 -1 -1

vertex values:
0
0
0
0
0
0

element values:
0
0
0
0
0
";

/// The triangle bisected.
pub const TRIANGLE_BISECTED: &str = "DIM: 2
DIM_OF_WORLD: 2

number of vertices: 4
number of elements: 2

vertex coordinates:
0 0
1 0
0 1
0.5 0

element vertices:
2 0 3
1 2 3

element boundaries:
1 0 1
0 1 1

element neighbours:
-1 1 -1
0 -1 -1

vertex values:
0
0
0
0

element values:
0
0
";

/// The four triangles after mark 1 on element 0.
pub const FOUR_MARKED_ONCE: &str = "DIM: 2
DIM_OF_WORLD: 2

number of vertices: 6
number of elements: 5

vertex coordinates:
0 0
1 0
1 1
0 1
0.3333333333333251953125 0.5
0.5 0

element vertices:
4 0 5
1 4 5
1 2 4
2 3 4
3 0 4

element boundaries:
1 0 0
0 1 0
0 0 1
0 0 1
0 0 1

element neighbours:
-1 1 4
0 -1 2
3 1 -1
4 2 -1
0 3 -1

vertex values:
0
0
0
0
0
0

element values:
0
0
0
0
0
";

/// The four triangles after mark 1 on each.
pub const FOUR_BISECTED: &str = "DIM: 2
DIM_OF_WORLD: 2

number of vertices: 9
number of elements: 8

vertex coordinates:
0 0
1 0
1 1
0 1
0.3333333333333251953125 0.5
0.5 0
1 0.5
0.5 1
0 0.5

element vertices:
4 0 5
1 4 5
4 1 6
2 4 6
4 2 7
3 4 7
4 3 8
0 4 8

element boundaries:
1 0 0
0 1 0
1 0 0
0 1 0
1 0 0
0 1 0
1 0 0
0 1 0

element neighbours:
-1 1 7
0 -1 2
-1 3 1
2 -1 4
-1 5 3
4 -1 6
-1 7 5
6 -1 0

vertex values:
0
0
0
0
0
0
0
0
0

element values:
0
0
0
0
0
0
0
0
";
