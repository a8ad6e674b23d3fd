//! A plain pass over bytes, a copy of them, and a merge of two sorted lists of numbers.
use mesh_names::name::ElemName;
use std::alloc::{AllocError, Global};

/// What a plain pass finds.
#[derive(Clone, Copy)]
pub struct Tally {
    pub lines: u32,
    pub ones: u32,
    pub open: u32,
}

/// Goes over the bytes, and counts lines, members, and the elements that are still to come.
pub fn pass(bytes: &[u8]) -> Tally {
    let mut tally = Tally {
        lines: 0,
        ones: 0,
        open: 1,
    };
    for byte in bytes {
        match *byte {
            b'1' => {
                tally.ones = tally.ones.wrapping_add(1);
                tally.open = tally.open.wrapping_add(1);
            }
            b'0' => tally.open = tally.open.wrapping_sub(1),
            b'\n' => tally.lines = tally.lines.wrapping_add(1),
            _ => {}
        }
    }
    tally
}

/// Copies the bytes, one after another.
pub fn copy(alloc: Global, bytes: &[u8]) -> Result<Vec<u8>, AllocError> {
    let mut copy = Vec::new(alloc);
    for byte in bytes {
        copy.push(*byte)?;
    }
    Ok(copy)
}

// A number for a name, in the order of names.
fn number_of(name: ElemName) -> u64 {
    let word = u64::from(name.bits()) << (24 - name.depth());
    u64::from(name.root()) << 32 | word << 5 | u64::from(name.depth())
}

/// A number for each name, in order.
pub fn numbers(alloc: Global, names: &[ElemName]) -> Result<Vec<u64>, AllocError> {
    let mut numbers = Vec::new(alloc);
    for name in names {
        numbers.push(number_of(*name))?;
    }
    Ok(numbers)
}

/// The numbers of two sorted lists, each once, in order.
pub fn merge(alloc: Global, first: &[u64], second: &[u64]) -> Result<Vec<u64>, AllocError> {
    let mut both = Vec::new(alloc);
    both.try_reserve(first.len().max(second.len()))?;
    let mut i = 0;
    let mut j = 0;
    while i < first.len() && j < second.len() {
        let one = first[i];
        let other = second[j];
        both.push(if other < one { other } else { one })?;
        i += (one <= other) as usize;
        j += (other <= one) as usize;
    }
    both.extend_from_slice(&first[i..])?;
    both.extend_from_slice(&second[j..])?;
    Ok(both)
}
