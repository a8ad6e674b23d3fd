//! Where files come from.
ghost use Rattle.std.specs.Prelude.{◌≡◌, ℕ, Bool, true, Option};
ghost use Rattle.mesh_io.specs.Shelves.{Files, Loads};

use std::alloc::Global;

/// Why a load gives no bytes.
#[derive(Debug, PartialEq, Eq, Drop)]
pub enum LoadRefusal {
    /// Reading failed, or there is no such file.
    Failed,
    /// More bytes stand under the name than the limit. `read` is how many had been read then.
    TooLong { read: u64 },
    /// No memory was left.
    Memory,
}

/// Files by name, with a count of the faults that reading them met.
pub trait Shelf {
    // The files, where the shelf tells them.
    ghost files: { Self → Option Files };

    ghost faults: { Self → ℕ };

    // No fault is to come but for a missing file.
    ghost steady: { Self → Bool };

    /// The bytes under the name, of which at most `limit` may be there.
    fn load(&mut self, alloc: Global, name: &str, limit: u64) -> Result<Vec<u8>, LoadRefusal>
        ensures loads { Loads (files self.old) (steady self.old) name.now limit (faults self.old) (faults self.new) result }
        ensures same { files self.new ≡ files self.old }
        ensures stays { steady self.old ≡ true → steady self.new ≡ true };
}
