use std::alloc::{AllocError, Global};
use std::fmt::Write;

/// Squares in one column.
const HEIGHT: u32 = 12;

/// How the refinement edges lie.
#[derive(Clone, Copy, PartialEq, Eq)]
pub enum Kind {
    /// Every one is a diagonal, so that all grades are 0.
    Even,
    /// That of each upper triangle is at the top, so that grades fall by two from square to square.
    Graded,
    /// As `Graded`, but for one triangle that is turned, so that there are no grades.
    Turned,
}

/// A mesh of squares in columns, each of two triangles.
#[derive(Clone, Copy)]
pub struct Sample {
    /// How many triangles there are.
    pub count: u32,
    pub kind: Kind,
    /// Whether the elements are out of order.
    pub scrambled: bool,
}

fn vertex(column: u32, row: u32) -> u32 {
    column.wrapping_mul(HEIGHT + 1).wrapping_add(row)
}

impl Sample {
    // The columns are mirrored in turn, so that equal triangles meet between them.
    fn triangle(self, place: u32) -> [u32; 3] {
        let column = place / (2 * HEIGHT);
        let row = place / 2 % HEIGHT;
        let left = column + column % 2;
        let right = column + 1 - column % 2;
        let low = vertex(left, row);
        let high = vertex(right, row + 1);
        if place % 2 == 0 {
            [high, low, vertex(right, row)]
        } else if self.kind == Kind::Even {
            [low, high, vertex(left, row + 1)]
        } else {
            [high, vertex(left, row + 1), low]
        }
    }

    fn element(self, index: u32) -> [u32; 3] {
        let place = if self.scrambled {
            (u64::from(index) * 32_771 % u64::from(self.count.max(1))) as u32
        } else {
            index
        };
        let [first, second, third] = self.triangle(place);
        if self.kind == Kind::Turned && place.wrapping_add(2) == self.count {
            [second, third, first]
        } else {
            [first, second, third]
        }
    }

    /// The mesh as a macro file.
    pub fn file(self, alloc: Global) -> Result<String, AllocError> {
        let columns = self.count.div_ceil(2 * HEIGHT) + 1;
        let vertices = vertex(columns, 0);
        let elements = self.count;
        let mut text = String::new(alloc);
        write!(
            text,
            "number of vertices: {vertices}\nnumber of elements: {elements}\nvertex coordinates:\n"
        )?;
        for column in 0..columns {
            for row in 0..HEIGHT + 1 {
                write!(text, "{column} {row}\n")?;
            }
        }
        text.push_str("element vertices:\n")?;
        for index in 0..elements {
            let [first, second, third] = self.element(index);
            write!(text, "{first} {second} {third}\n")?;
        }
        Ok(text)
    }
}
