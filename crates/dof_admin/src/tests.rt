//! The worked steps, and a long run against a plain list of flags.
use super::DofAdmin;
use std::alloc::Global;
use std::test::Fail;

// An administration, and a plain list of used flags that takes the same steps.
#[derive(Drop)]
struct Pair {
    alloc: Global,
    admin: DofAdmin,
    flags: Vec<bool>,
}

impl Pair {
    fn get(&mut self) -> Result<bool, Fail> {
        if self.admin.size_used() > 1000 {
            return Ok(false);
        }
        self.admin.reserve(1)?;
        let index = self.admin.get() as usize;
        let mut least = self.flags.len();
        for (at, used) in self.flags.iter().enumerate() {
            if !*used && at < least {
                least = at;
            }
        }
        match self.flags.get_mut(least) {
            Some(used) => *used = true,
            None => self.flags.push(true)?,
        }
        Ok(index == least)
    }

    fn free(&mut self, index: u32) {
        if self.admin.is_used(index) {
            self.admin.free(index);
        }
        if let Some(used) = self.flags.get_mut(index as usize) {
            *used = false;
        }
    }

    fn compress(&mut self) -> Result<bool, Fail> {
        let moved = self.admin.compress()?;
        let mut wanted = Vec::new(self.alloc);
        let mut packed = Vec::new(self.alloc);
        for used in &self.flags {
            if *used {
                wanted.push(u32::try_from(packed.len())?)?;
                packed.push(true)?;
            } else {
                wanted.push(u32::MAX)?;
            }
        }
        self.flags = packed;
        Ok(moved.as_slice() == wanted.as_slice())
    }

    fn agree(&self) -> bool {
        let used = self.flags.iter().filter(|used| **used).count();
        used == self.admin.used() as usize
            && self.flags.len() == self.admin.size_used() as usize
            && self.flags.len() == used.saturating_add(self.admin.holes() as usize)
    }
}

#[test]
fn the_least_hole_first(rt: HostRuntime) -> Result<(), Fail> {
    let mut admin = DofAdmin::new(rt.alloc());
    admin.reserve(3)?;
    let first = [admin.get(), admin.get(), admin.get()];
    assert_eq!(rt; first, [0, 1, 2]);
    assert!(rt; admin.is_used(1) && !admin.is_used(3));
    admin.free(1);
    assert_eq!(rt; admin.holes(), 1);
    assert_eq!(rt; admin.get(), 1);
    assert!(rt; admin.is_used(0));
    admin.free(0);
    let moved = admin.compress()?;
    assert_eq!(rt; moved.as_slice(), [4_294_967_295, 0, 1].as_slice());
    assert_eq!(rt; admin.size_used(), 2);
    assert_eq!(rt; admin.used(), 2);
    Ok(())
}

#[test]
fn a_long_run_goes_as_with_a_list_of_flags(rt: HostRuntime) -> Result<(), Fail> {
    let mut pair = Pair {
        alloc: rt.alloc(),
        admin: DofAdmin::new(rt.alloc()),
        flags: Vec::new(rt.alloc()),
    };
    let mut state: u32 = 1;
    for step in 0..4000 {
        state = state.wrapping_mul(1_664_525).wrapping_add(1_013_904_223);
        if state >> 31 == 0 {
            assert!(rt; pair.get()?, "get at step {step}");
        } else {
            pair.free((state >> 8) % 97);
        }
        if step % 500 == 499 {
            assert!(rt; pair.compress()?, "compress at step {step}");
        }
        assert!(rt; pair.agree(), "counts at step {step}");
    }
    Ok(())
}
