//! A shelf of real files.
ghost use Rattle.std.specs.Prelude.{◌≡◌, ◌+◌, ◌≤◌, IfOk, length};

use crate::shelf::{LoadRefusal, Shelf};
use std::alloc::Global;
use std::fs;
use std::io::Read;
use std::rt::Files;

/// Real files by their paths. It tells nothing of their content.
#[derive(Drop)]
pub struct FileShelf<R: Files + Drop> {
    rt: R,
    faults: u64,
}

impl<R: Files + Drop> FileShelf<R> {
    /// The files that the runtime reaches.
    pub fn new(rt: R) -> FileShelf<R>
        ensures { result.faults ≡ 0 }
    {
        FileShelf { rt, faults: 0 }
    }
}

// Why reading stopped early.
enum Stop {
    Failed,
    Memory,
}

// Appends what the source gives, until its end or one byte past the limit. Each turn takes at least
// one byte.
fn read_up_to<T: Read>(source: &mut T, to: &mut Vec<u8>, limit: usize) -> Result<(), Stop>
    requires { length to.old.items ≤ limit }
    ensures { IfOk result (λ _. length to.new.items ≤ limit + 1) }
{
    let mut buffer = [0u8; 4096];
    while to.len() <= limit {
        let room = (limit - to.len()).min(4095) + 1;
        let Ok(count) = source.read(&mut buffer[..room]) else {
            return Err(Stop::Failed);
        };
        if count == 0 {
            return Ok(());
        }
        if to.extend_from_slice(&buffer[..count]).is_err() {
            return Err(Stop::Memory);
        }
    }
    Ok(())
}

impl<R: Files + Drop> Shelf for FileShelf<R> {
    ghost use Rattle.std.specs.Prelude.{None, false};

    ghost files = { λ _. None };

    ghost faults = { λ s. s.faults };

    ghost steady = { λ _. false };

    fn load(&mut self, alloc: Global, name: &str, limit: u64) -> Result<Vec<u8>, LoadRefusal> {
        let mut bytes = Vec::new(alloc);
        // Far beyond what memory can hold, so that one byte more can still be counted.
        let most = (limit as usize).min(1 << 40);
        let Ok(mut file) = fs::open(&self.rt, name) else {
            self.faults = self.faults.saturating_add(1);
            return Err(LoadRefusal::Failed);
        };
        match read_up_to(&mut file, &mut bytes, most) {
            Ok(()) if bytes.len() as u64 > limit => Err(LoadRefusal::TooLong {
                read: bytes.len() as u64,
            }),
            Ok(()) if bytes.len() > most => Err(LoadRefusal::Memory),
            Ok(()) => Ok(bytes),
            Err(Stop::Memory) => Err(LoadRefusal::Memory),
            Err(Stop::Failed) => {
                self.faults = self.faults.saturating_add(1);
                Err(LoadRefusal::Failed)
            }
        }
    }
}
