use std::alloc::{AllocError, Global};
use std::fmt::Write;

/// Whether the opposite sides of a square mesh are apart or joined.
#[derive(Clone, Copy, PartialEq, Eq)]
pub enum Ends {
    Apart,
    Joined,
}

/// A mesh of squares in rows, each of two triangles, of which each is turned as a generator says.
#[derive(Clone, Copy)]
pub struct Sample {
    /// How many squares there are in a row, 3 to 181.
    pub side: u32,
    pub ends: Ends,
    /// Whether the elements are out of order.
    pub scrambled: bool,
}

// A number after another one; they look random.
fn next(state: u32) -> u32 {
    state.wrapping_mul(1_664_525).wrapping_add(1_013_904_223)
}

impl Sample {
    // How many vertices there are in a row.
    fn across(self) -> u32 {
        match self.ends {
            Ends::Apart => self.side.wrapping_add(1),
            Ends::Joined => self.side,
        }
    }

    fn vertex(self, column: u32, row: u32) -> u32 {
        let across = self.across().max(1);
        (row % across)
            .wrapping_mul(across)
            .wrapping_add(column % across)
    }

    fn triangle(self, place: u32) -> [u32; 3] {
        let square = place / 2;
        let column = square % self.side.max(1);
        let row = square / self.side.max(1);
        let right = column.wrapping_add(1);
        let above = row.wrapping_add(1);
        let low = self.vertex(column, row);
        let high = self.vertex(right, above);
        if place % 2 == 0 {
            [high, low, self.vertex(right, row)]
        } else {
            [low, high, self.vertex(column, above)]
        }
    }

    fn element(self, index: u32, count: u32, state: u32) -> [u32; 3] {
        let place = if self.scrambled {
            (u64::from(index) * 32_771 % u64::from(count.max(1))) as u32
        } else {
            index
        };
        let [first, second, third] = self.triangle(place);
        match (state >> 16) % 3 {
            0 => [first, second, third],
            1 => [second, third, first],
            _ => [third, first, second],
        }
    }

    /// The mesh as a macro file.
    pub fn file(self, alloc: Global) -> Result<String, AllocError> {
        let across = self.across();
        let vertices = across.wrapping_mul(across);
        let elements = self.side.wrapping_mul(self.side).wrapping_mul(2);
        let mut text = String::new(alloc);
        write!(
            text,
            "number of vertices: {vertices}\nnumber of elements: {elements}\nvertex coordinates:\n"
        )?;
        for row in 0..across {
            for column in 0..across {
                write!(text, "{column} {row}\n")?;
            }
        }
        text.push_str("element vertices:\n")?;
        let mut state = 1;
        for index in 0..elements {
            state = next(state);
            let [first, second, third] = self.element(index, elements, state);
            write!(text, "{first} {second} {third}\n")?;
        }
        Ok(text)
    }
}
