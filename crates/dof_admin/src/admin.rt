//! The administration.
ghost use Rattle.std.specs.Prelude.{◌≡◌, ◌+◌, ◌-◌, ◌^◌, ◌<◌, ◌≤◌, IsTrue, OnErr, OnOk, IfOk, [], false, true, length, replicate, slice_set};
ghost use Rattle.dof_admin.specs.Administration.{Administration, IsLeastUnused, IsRenumbering, used_at, used_count, with_used};

use crate::refusal::DofRefusal;
use crate::renumber::renumbered;
use std::alloc::Global;
use std::cmp::Reverse;
use std::collections::BinaryHeap;
use std::marker::Model;

/// Indices with holes. The used ones and the holes lie below its size.
///
/// The holes are kept in a heap, the least on top, with room for as many as there can be: so
/// getting an index and giving one back take no memory, and logarithmic time at most.
#[derive(Drop)]
pub struct DofAdmin {
    alloc: Global,
    flags: Vec<bool>,
    holes: BinaryHeap<Reverse<u32>>,
    // How many indices can be below the size before memory is needed.
    room: u32,
}

impl Model for DofAdmin {
    ghost use Rattle.std.specs.Prelude.{◌-◌, vec_capacity};
    ghost use Rattle.std.specs.BinaryHeap.{heap_items, heap_capacity};
    ghost use Rattle.dof_admin.specs.Administration.{Administration, used_count};
    ghost use Rattle.dof_admin.specs.Holes.{AreHoles, HasRoom};
    ghost use Rattle.std.specs.Prelude.{length};

    ghost Value = { Administration };

    ghost view = { λ a. record { flags = a.flags.items; spare = a.room - used_count a.flags.items } };

    ghost invariant = { λ a. AreHoles a.flags.items (heap_items a.holes) × HasRoom a.room (length a.flags.items) (vec_capacity a.flags) (heap_capacity a.holes) };
}

impl DofAdmin {
    /// No index. Takes no memory.
    pub fn new(alloc: Global) -> DofAdmin
        ensures { result ≡ record { flags = []; spare = 0 } }
    {
        DofAdmin {
            alloc,
            flags: Vec::new(alloc),
            holes: BinaryHeap::new(alloc),
            room: 0,
        }
    }

    /// Takes the memory for `more` further indices.
    pub fn reserve(&mut self, more: u32) -> Result<(), DofRefusal>
        requires { length self.old.flags + more < 2 ^ 31 }
        ensures flags { self.new.flags ≡ self.old.flags }
        ensures room { OnOk result (more ≤ self.new.spare) }
        ensures kept { OnOk result (self.old.spare ≤ self.new.spare) }
        ensures err { OnErr result (self.new ≡ self.old) }
    {
        let size = self.flags.len();
        self.flags.reserve(more as usize)?;
        self.holes.reserve(size - self.holes.len() + more as usize)?;
        self.room = self.room.max(size as u32 + more);
        Ok(())
    }

    /// Uses the least index that is not used: the least hole, else the size, which grows by one.
    /// Takes no memory.
    pub fn get(&mut self) -> u32
        requires { 1 ≤ self.old.spare }
        ensures least { IsLeastUnused self.old.flags result }
        ensures flags { self.new.flags ≡ with_used self.old.flags result }
        ensures spare { self.old.spare ≤ self.new.spare + 1 }
    {
        match self.holes.pop() {
            Some(Reverse(hole)) => {
                self.flags[hole as usize] = true;
                hole
            }
            None => {
                let size = self.flags.len() as u32;
                self.flags.push_reserved(true);
                size
            }
        }
    }

    /// Gives an index back, which leaves a hole. Takes no memory.
    pub fn free(&mut self, index: u32)
        requires { IsTrue (used_at self.old.flags index) }
        ensures flags { self.new.flags ≡ slice_set self.old.flags index false }
        ensures spare { self.old.spare + 1 ≤ self.new.spare }
    {
        self.flags[index as usize] = false;
        self.holes.push(Reverse(index)).unwrap();
    }

    /// Whether the index is used; none is at and above the size.
    pub fn is_used(&self, index: u32) -> bool
        ensures { result ≡ used_at self.now.flags index }
    {
        match self.flags.get(index as usize) {
            Some(used) => *used,
            None => false,
        }
    }

    /// How many indices are used.
    pub fn used(&self) -> u32
        ensures { result ≡ used_count self.now.flags }
    {
        self.size_used() - self.holes()
    }

    /// How many indices below the size are not used.
    pub fn holes(&self) -> u32
        ensures { result + used_count self.now.flags ≡ length self.now.flags }
    {
        self.holes.len() as u32
    }

    /// All used indices are below this.
    pub fn size_used(&self) -> u32
        ensures { result ≡ length self.now.flags }
    {
        self.flags.len() as u32
    }

    /// Renumbers the used indices from 0 on, in their order, and answers the new index of each old
    /// one: `u32::MAX` for a hole.
    pub fn compress(&mut self) -> Result<Vec<u32>, DofRefusal>
        ensures moved { IfOk result (λ moved. IsRenumbering self.old.flags moved.items) }
        ensures flags { OnOk result (self.new.flags ≡ replicate (used_count self.old.flags) true) }
        ensures spare { OnOk result (self.old.spare ≤ self.new.spare) }
        ensures err { OnErr result (self.new ≡ self.old) }
    {
        let moved = renumbered(self.alloc, self.flags.as_slice())?;
        let used = self.flags.len() - self.holes.len();
        self.holes.clear();
        self.flags.truncate(used);
        self.flags.fill(true);
        Ok(moved)
    }
}
