//! Which calls of an object in memory are to fail.
ghost use Rattle.std.specs.Prelude.{◌≡◌, ◌<◌, ◌^◌};
ghost use Rattle.mesh_io.specs.Faults.{fails_next, first_plan, after_call};

use std::marker::Model;

/// The calls that are to fail, counted from 1, and how many faults there were.
#[derive(Drop)]
pub(crate) struct FaultPlan {
    listed: Vec<u64>,
    // None once all numbers of calls are used up.
    next: Option<u64>,
    faults: u64,
}

impl Model for FaultPlan {
    ghost use Rattle.mesh_io.specs.Faults.{Plan};

    ghost Value = { Plan };

    ghost view = { λ p. record { listed = p.listed.items; next = p.next; faults = p.faults } };
}

impl FaultPlan {
    pub(crate) fn new(listed: Vec<u64>) -> FaultPlan
        ensures { result ≡ first_plan listed.items }
    {
        FaultPlan {
            listed,
            next: Some(1),
            faults: 0,
        }
    }

    pub(crate) fn fails_next(&self) -> bool
        ensures { result ≡ fails_next self.now }
    {
        match self.next {
            Some(number) => self.listed.contains(&number),
            None => false,
        }
    }

    /// Counts a call, and a fault where it failed.
    pub(crate) fn count_call(&mut self, failed: bool)
        ensures counted { self.new ≡ after_call failed self.old }
        ensures fits { self.old.faults < 2 ^ 64 }
    {
        self.next = match self.next {
            Some(number) => number.checked_add(1),
            None => None,
        };
        self.faults = self.faults.saturating_add(u64::from(failed));
    }
}
