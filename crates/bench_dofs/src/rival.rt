//! The rival: a list of used flags and a set of holes.
use std::alloc::{AllocError, Global};
use std::collections::BTreeSet;

#[derive(Drop)]
pub struct SetAdmin {
    flags: Vec<bool>,
    holes: BTreeSet<u32>,
}

impl SetAdmin {
    pub fn new(alloc: Global) -> SetAdmin {
        SetAdmin {
            flags: Vec::new(alloc),
            holes: BTreeSet::new(alloc),
        }
    }

    /// The least index that is not used.
    pub fn get(&mut self) -> Result<u32, AllocError> {
        match self.holes.pop_first() {
            Some(hole) => {
                if let Some(flag) = self.flags.get_mut(hole as usize) {
                    *flag = true;
                }
                Ok(hole)
            }
            None => {
                let size = self.size();
                self.flags.push(true)?;
                Ok(size)
            }
        }
    }

    pub fn free(&mut self, index: u32) -> Result<(), AllocError> {
        if let Some(flag) = self.flags.get_mut(index as usize) {
            *flag = false;
        }
        self.holes.insert(index)?;
        Ok(())
    }

    pub fn is_used(&self, index: u32) -> bool {
        match self.flags.get(index as usize) {
            Some(used) => *used,
            None => false,
        }
    }

    pub fn size(&self) -> u32 {
        (self.flags.len() & 0xffff_ffff) as u32
    }

    pub fn holes(&self) -> u32 {
        (self.holes.len() & 0xffff_ffff) as u32
    }
}
