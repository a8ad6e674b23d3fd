//! As many numbers as a text has, printed by the same calls in one loop.
ghost use Rattle.std.specs.Prelude.{All};
ghost use Rattle.mesh_names.specs.Forests.{IsInMesh};
ghost use Rattle.compat_check.specs.Meshes.{shape_of};

use compat_check::mesh::MacroMesh;
use mesh_io::{put_decimal, put_whole};
use mesh_names::name::ElemName;
use std::alloc::{AllocError, Global};

/// The numbers of a text.
#[derive(Drop)]
pub struct Numbers {
    units: Vec<i64>,
    wholes: Vec<i64>,
}

impl Numbers {
    /// For each leaf one coordinate, which is two for each vertex or a few less, nine whole numbers
    /// and a value, which is 0, and for every second leaf the value of a vertex.
    pub fn of(alloc: Global, mesh: &MacroMesh, leaves: &[ElemName]) -> Result<Numbers, AllocError>
        requires { All (IsInMesh (shape_of mesh.now)) leaves.now }
    {
        let mut units = Vec::new(alloc);
        for leaf in leaves {
            let [first, _, _] = mesh.points(*leaf);
            units.push(first.0)?;
        }
        let mut wholes = Vec::new(alloc);
        let count = leaves.len().min(4_000_000) as u32;
        for _ in 0..9 {
            for place in 0..count {
                wholes.push(i64::from(place))?;
            }
        }
        for place in 0..count {
            wholes.push(0)?;
            if place % 2 == 0 {
                wholes.push(0)?;
            }
        }
        Ok(Numbers { units, wholes })
    }
}

/// The text of all numbers, one after another.
pub fn print_all(alloc: Global, numbers: &Numbers) -> Result<Vec<u8>, AllocError> {
    let mut text = Vec::new(alloc);
    for units in &numbers.units {
        put_decimal(&mut text, *units).map_err(|_| AllocError)?;
        text.push(b' ')?;
    }
    for whole in &numbers.wholes {
        put_whole(&mut text, *whole).map_err(|_| AllocError)?;
        text.push(b' ')?;
    }
    Ok(text)
}
