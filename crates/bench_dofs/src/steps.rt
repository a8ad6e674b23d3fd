//! The steps: gets and give-backs in a random order.
use crate::rival::SetAdmin;
use std::alloc::{AllocError, Global};

/// A step that gets an index. Any other number is an index that is given back.
pub const GET: u32 = u32::MAX;

// A pseudorandom number from the one before (Marsaglia's xorshift).
fn next(state: u64) -> u64 {
    let mut x = state;
    x ^= x << 13;
    x ^= x >> 7;
    x ^= x << 17;
    x
}

/// So many steps. In the first half three of four are gets, in the second half one of four; what is
/// given back is any of the indices in use.
pub fn steps(alloc: Global, count: u32) -> Result<Vec<u32>, AllocError> {
    let mut admin = SetAdmin::new(alloc);
    let mut held = Vec::new(alloc);
    let mut steps = Vec::new(alloc);
    let mut random = 0x9e37_79b9_7f4a_7c15;
    for step in 0..count {
        random = next(random);
        let quarter = (random >> 60) % 4;
        let is_get = if step < count / 2 {
            quarter != 0
        } else {
            quarter == 0
        };
        if is_get || held.is_empty() {
            held.push(admin.get()?)?;
            steps.push(GET)?;
        } else {
            let at = ((random & 0xffff_ffff) as usize) % held.len();
            let index = held.swap_remove(at);
            admin.free(index)?;
            steps.push(index)?;
        }
    }
    Ok(steps)
}
