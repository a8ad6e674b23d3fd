//! A shelf in memory.
ghost use Rattle.std.specs.Prelude.{◌≡◌, ◌≤◌, ◌<◌, ◌⊎◌, ◌↔◌, true, Some, Ok, Err, IfOk, IfErr, map, length, option_map, if◌then◌else◌, None};
ghost use Rattle.std.specs.FinMap.{get};
ghost use Rattle.mesh_io.specs.Faults.{fails_next, is_over, after_call};
ghost use Rattle.mesh_io.specs.Shelves.{Loads, Lacks, IsCopyCause, has_failed, files_of, entry_of, stocked_shelf};

use crate::plan::FaultPlan;
use crate::shelf::{LoadRefusal, Shelf};
use std::alloc::Global;
use std::marker::Model;

/// Files in memory, of which listed loads fail.
#[derive(Drop)]
pub struct MemShelf {
    files: Vec<(String, Vec<u8>)>,
    plan: FaultPlan,
}

impl Model for MemShelf {
    ghost use Rattle.std.specs.Prelude.{map};
    ghost use Rattle.mesh_io.specs.Shelves.{MemFiles, entry_of};

    ghost Value = { MemFiles };

    ghost view = { λ s. record { entries = map entry_of s.files.items; plan = s.plan } };
}

impl MemShelf {
    /// A shelf of these files; of two equal names the first counts. `faults` lists the loads that
    /// are to fail, counted from 1.
    pub fn new(files: Vec<(String, Vec<u8>)>, faults: Vec<u64>) -> MemShelf
        ensures { result ≡ stocked_shelf files.items faults.items }
    {
        MemShelf {
            files,
            plan: FaultPlan::new(faults),
        }
    }
}

// The bytes of the first file of this name.
fn find<'a>(files: &'a [(String, Vec<u8>)], name: &str) -> Option<&'a [u8]>
    ensures { option_map (λ bytes. bytes.now) result ≡ get (files_of (map entry_of files.now)) name.now }
{
    for file in files {
        if name == file.0.as_str() {
            return Some(file.1.as_slice());
        }
    }
    None
}

// The same, but nothing where the load is to fail.
fn find_unless<'a>(fails: bool, files: &'a [(String, Vec<u8>)], name: &str) -> Option<&'a [u8]>
    ensures { option_map (λ bytes. bytes.now) result ≡ (if fails then None else get (files_of (map entry_of files.now)) name.now) }
{
    if fails { None } else { find(files, name) }
}

// A copy of the bytes, of which at most `limit` may be there.
fn copy(alloc: Global, bytes: &[u8], limit: u64) -> Result<Vec<u8>, LoadRefusal>
    ensures ok { IfOk result (λ copy. (copy.items ≡ bytes.now) × (length bytes.now ≤ limit)) }
    ensures err { IfErr result (IsCopyCause bytes.now limit) }
{
    if bytes.len() as u64 > limit {
        return Err(LoadRefusal::TooLong {
            read: bytes.len() as u64,
        });
    }
    let mut copy = Vec::new(alloc);
    match copy.extend_from_slice(bytes) {
        Ok(()) => Ok(copy),
        Err(_) => Err(LoadRefusal::Memory),
    }
}

impl Shelf for MemShelf {
    ghost use Rattle.std.specs.Prelude.{Some};
    ghost use Rattle.mesh_io.specs.Faults.{is_over};
    ghost use Rattle.mesh_io.specs.Shelves.{files_of};

    ghost files = { λ s. Some (files_of s.entries) };

    ghost faults = { λ s. s.plan.faults };

    ghost steady = { λ s. is_over s.plan };

    fn load(&mut self, alloc: Global, name: &str, limit: u64) -> Result<Vec<u8>, LoadRefusal>
        ensures loads { Loads (Some (files_of self.old.entries)) (is_over self.old.plan) name.now limit self.old.plan.faults self.new.plan.faults result }
        ensures stays { is_over self.old.plan ≡ true → is_over self.new.plan ≡ true }
        ensures failed { (result ≡ Err LoadRefusal.Failed) ↔ ((fails_next self.old.plan ≡ true) ⊎ Lacks (files_of self.old.entries) name.now) }
        ensures counted { self.new ≡ record self.old { plan = after_call (has_failed result) self.old.plan } }
    {
        let found = find_unless(self.plan.fails_next(), &self.files, name);
        self.plan.count_call(found.is_none());
        let Some(bytes) = found else {
            return Err(LoadRefusal::Failed);
        };
        copy(alloc, bytes, limit)
    }
}
