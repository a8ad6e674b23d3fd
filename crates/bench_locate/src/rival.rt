//! A plain program that looks up points: the leaves stand in the cells of a grid, by the boxes around
//! their triangles.
use crate::lookup::Tally;
use compat_check::MacroMesh;
use locate_point::Point;
use mesh_names::name::ElemName;
use std::alloc::{AllocError, Global};

// A leaf and its corners.
#[derive(Clone, Copy)]
struct Leaf {
    name: ElemName,
    corners: [(i64, i64); 3],
}

// Twice the area of a triangle.
fn area(first: Point, second: Point, third: Point) -> i128 {
    let across = i128::from(second.0.wrapping_sub(first.0));
    let up = i128::from(third.1.wrapping_sub(first.1));
    let over = i128::from(third.0.wrapping_sub(first.0));
    let high = i128::from(second.1.wrapping_sub(first.1));
    across
        .wrapping_mul(up)
        .wrapping_sub(over.wrapping_mul(high))
}

impl Leaf {
    fn contains(&self, point: Point) -> bool {
        let [first, second, apex] = self.corners;
        let a = area(second, apex, point);
        let b = area(apex, first, point);
        let c = area(first, second, point);
        (a >= 0 && b >= 0 && c >= 0) || (a <= 0 && b <= 0 && c <= 0)
    }

    // The lower left and the upper right corner of the box around the triangle.
    fn around(&self) -> (Point, Point) {
        let [a, b, c] = self.corners;
        let low = (a.0.min(b.0).min(c.0), a.1.min(b.1).min(c.1));
        let high = (a.0.max(b.0).max(c.0), a.1.max(b.1).max(c.1));
        (low, high)
    }
}

// How many cells there are in a row, and how wide they are; the first begins at 0.
#[derive(Clone, Copy)]
struct Cells {
    across: usize,
    width: u64,
}

impl Cells {
    // About one cell for each of so many leaves, in a square that ends at this coordinate.
    fn for_leaves(count: usize, end: i64) -> Cells {
        let mut across: usize = 1;
        while across < 4_096 && across.saturating_mul(across) < count {
            across = across.saturating_mul(2);
        }
        let width = end.max(0) as u64 / across.max(1) as u64;
        Cells {
            across,
            width: width.saturating_add(1),
        }
    }

    // The column or row of a coordinate.
    fn step(self, z: i64) -> usize {
        let step = z.max(0) as u64 / self.width.max(1);
        (step as usize).min(self.across.saturating_sub(1))
    }

    fn number(self, column: usize, row: usize) -> usize {
        row.wrapping_mul(self.across).wrapping_add(column)
    }

    // The cell of a point.
    fn of_point(self, point: Point) -> usize {
        self.number(self.step(point.0), self.step(point.1))
    }

    // Puts a leaf into each cell of its box: counts it there, and where a list is given writes its
    // number to the place that the count tells.
    fn put(self, leaf: &Leaf, number: u32, counts: &mut Vec<u32>, list: &mut Vec<u32>) {
        let (low, high) = leaf.around();
        for row in self.step(low.1)..=self.step(high.1) {
            for column in self.step(low.0)..=self.step(high.0) {
                let place = count_one(counts, self.number(column, row)) as usize;
                if place < list.len() {
                    list[place] = number;
                }
            }
        }
    }
}

// Counts one more in a cell, and answers how many there were.
fn count_one(counts: &mut Vec<u32>, cell: usize) -> u32 {
    if cell >= counts.len() {
        return 0;
    }
    let count = counts[cell];
    counts[cell] = count.wrapping_add(1);
    count
}

fn zeros(alloc: Global, count: usize) -> Result<Vec<u32>, AllocError> {
    let mut zeros = Vec::new(alloc);
    for _ in 0..count {
        zeros.push(0)?;
    }
    Ok(zeros)
}

// The sum of the counts before each, and of all.
fn sums(alloc: Global, counts: &[u32]) -> Result<Vec<u32>, AllocError> {
    let mut sums = Vec::new(alloc);
    let mut sum = 0_u32;
    for count in counts {
        sums.push(sum)?;
        sum = sum.wrapping_add(*count);
    }
    sums.push(sum)?;
    Ok(sums)
}

// The leaves of a mesh with their corners.
fn with_corners(
    alloc: Global,
    mesh: &MacroMesh,
    leaves: &[ElemName],
) -> Result<Vec<Leaf>, AllocError> {
    let count = mesh.element_count();
    let mut made = Vec::new(alloc);
    for name in leaves {
        if name.root() < count {
            made.push(Leaf {
                name: *name,
                corners: mesh.points(*name),
            })?;
        }
    }
    Ok(made)
}

/// The leaves in the cells of a grid: the numbers of those of a cell stand one after another, from
/// its start up to that of the next.
#[derive(Drop)]
pub struct CellGrid {
    cells: Cells,
    starts: Vec<u32>,
    numbers: Vec<u32>,
    leaves: Vec<Leaf>,
}

impl CellGrid {
    /// The grid of these leaves of a square mesh that ends at this coordinate.
    pub fn new(
        alloc: Global,
        mesh: &MacroMesh,
        leaves: &[ElemName],
        end: i64,
    ) -> Result<CellGrid, AllocError> {
        let cells = Cells::for_leaves(leaves.len(), end);
        let leaves = with_corners(alloc, mesh, leaves)?;
        let mut counts = zeros(alloc, cells.across.saturating_mul(cells.across))?;
        let mut nothing = Vec::new(alloc);
        for leaf in &leaves {
            cells.put(leaf, 0, &mut counts, &mut nothing);
        }
        let starts = sums(alloc, &counts)?;
        let mut next = sums(alloc, &counts)?;
        let mut numbers = zeros(alloc, starts.last().copied().unwrap_or(0) as usize)?;
        let mut number = 0_u32;
        for leaf in &leaves {
            cells.put(leaf, number, &mut next, &mut numbers);
            number = number.wrapping_add(1);
        }
        Ok(CellGrid {
            cells,
            starts,
            numbers,
            leaves,
        })
    }

    // The numbers of the leaves in the cell of a point.
    fn near(&self, point: Point) -> Option<&[u32]> {
        let cell = self.cells.of_point(point);
        let from = *self.starts.get(cell)? as usize;
        let to = *self.starts.get(cell.saturating_add(1))? as usize;
        self.numbers.as_slice().get(from..to)
    }

    // The least leaf whose triangle contains the point.
    fn place(&self, point: Point) -> Option<ElemName> {
        for number in self.near(point)? {
            let leaf = self.leaves.get(*number as usize)?;
            if leaf.contains(point) {
                return Some(leaf.name);
            }
        }
        None
    }

    /// Looks up the points.
    pub fn look_up(&self, points: &[Point]) -> Tally {
        let mut tally = Tally::none();
        for point in points {
            tally = tally.with(self.place(*point));
        }
        tally
    }
}
