//! What runs on the square write, worked out from the definitions by a model of its own.

/// The square as it is.
pub const SQUARE_ALONE: &str = "DIM: 2
DIM_OF_WORLD: 2

number of vertices: 4
number of elements: 2

vertex coordinates:
0 0
1 0
1 1
0 1

element vertices:
2 0 1
0 2 3

element boundaries:
1 1 0
1 1 0

element neighbours:
-1 -1 1
-1 -1 0

vertex values:
0
0
0
0

element values:
0
0
";

/// The square with its one patch bisected.
pub const SQUARE_BISECTED: &str = "DIM: 2
DIM_OF_WORLD: 2

number of vertices: 5
number of elements: 4

vertex coordinates:
0 0
1 0
1 1
0 1
0.5 0.5

element vertices:
1 2 4
0 1 4
3 0 4
2 3 4

element boundaries:
0 0 1
0 0 1
0 0 1
0 0 1

element neighbours:
3 1 -1
0 2 -1
1 3 -1
2 0 -1

vertex values:
0
0
0
0
0

element values:
0
0
0
0
";

/// The square after mark 2 on element 0.
pub const SQUARE_OF_SIX: &str = "DIM: 2
DIM_OF_WORLD: 2

number of vertices: 7
number of elements: 6

vertex coordinates:
0 0
1 0
1 1
0 1
0.5 0.5
1 0.5
0.5 0

element vertices:
4 1 5
2 4 5
4 0 6
1 4 6
3 0 4
2 3 4

element boundaries:
1 0 0
0 1 0
1 0 0
0 1 0
0 0 1
0 0 1

element neighbours:
-1 1 3
0 -1 5
-1 3 4
2 -1 0
2 5 -1
4 1 -1

vertex values:
0
0
0
0
0
0
0

element values:
0
0
0
0
0
0
";

/// The square after mark 1 on element 0 and then mark 2 on its child 0.
pub const SQUARE_OF_ELEVEN: &str = "DIM: 2
DIM_OF_WORLD: 2

number of vertices: 10
number of elements: 11

vertex coordinates:
0 0
1 0
1 1
0 1
1 0.5
0.5 0.5
0.75 0.25
0.75 0.75
0.5 0
0.5 1

element vertices:
4 5 6
1 4 6
4 2 7
5 4 7
5 0 8
8 1 6
5 8 6
3 0 5
9 5 7
2 9 7
3 5 9

element boundaries:
0 0 0
0 0 1
0 0 1
0 0 0
1 0 0
0 0 1
0 0 0
0 0 1
0 0 0
0 0 1
0 1 0

element neighbours:
6 1 3
0 5 -1
9 3 -1
2 8 0
-1 6 7
1 6 -1
5 0 4
4 10 -1
3 9 10
8 2 -1
8 -1 7

vertex values:
0
0
0
0
0
0
0
0
0
0

element values:
0
0
0
0
0
0
0
0
0
0
0
";

/// The square after mark 1 on element 0 and then mark 2 on its child 1.
pub const SQUARE_OF_OTHER_ELEVEN: &str = "DIM: 2
DIM_OF_WORLD: 2

number of vertices: 10
number of elements: 11

vertex coordinates:
0 0
1 0
1 1
0 1
1 0.5
0.5 0.5
0.75 0.25
0.5 0
0.25 0.25
0 0.5

element vertices:
4 5 6
1 4 6
2 5 4
7 5 8
0 7 8
7 1 6
5 7 6
5 3 9
9 0 8
5 9 8
2 3 5

element boundaries:
0 0 0
0 0 1
0 1 0
0 0 0
0 0 1
0 0 1
0 0 0
1 0 0
0 0 1
0 0 0
0 0 1

element neighbours:
6 1 2
0 5 -1
0 -1 10
9 4 6
3 8 -1
1 6 -1
5 0 3
-1 9 10
4 9 -1
8 3 7
7 2 -1

vertex values:
0
0
0
0
0
0
0
0
0
0

element values:
0
0
0
0
0
0
0
0
0
0
0
";
