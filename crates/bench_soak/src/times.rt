//! How long the phases of a soak take.
use anyhow::Result;
use std::io::Write;

/// The time of each phase, in microseconds. Those of rounds are summed over all rounds.
#[derive(Drop)]
pub struct Times {
    pub grid: u128,
    pub check: u128,
    pub first_values: u128,
    pub leaves: u128,
    pub drawing: u128,
    pub rounds: u128,
    /// The rounds of the same marks on a forest without values.
    pub forest: u128,
    pub last_leaves: u128,
    pub text: u128,
}

impl Times {
    /// No time yet.
    pub fn new() -> Times {
        Times {
            grid: 0,
            check: 0,
            first_values: 0,
            leaves: 0,
            drawing: 0,
            rounds: 0,
            forest: 0,
            last_leaves: 0,
            text: 0,
        }
    }

    // Prints the time of a phase, beside that of writing the text.
    fn tell_phase(&self, rt: &HostRuntime, name: &str, micros: u128) -> Result<()> {
        let percent = micros.saturating_mul(100) / self.text.max(1);
        println!(rt; "{name} {micros} us: {percent} %")?;
        Ok(())
    }

    /// Prints the time of each phase, beside that of writing the text.
    pub fn tell(&self, rt: &HostRuntime) -> Result<()> {
        self.tell_phase(rt, "grid", self.grid)?;
        self.tell_phase(rt, "check", self.check)?;
        self.tell_phase(rt, "first values", self.first_values)?;
        self.tell_phase(rt, "leaves of rounds", self.leaves)?;
        self.tell_phase(rt, "drawing", self.drawing)?;
        self.tell_phase(rt, "rounds of the forest", self.forest)?;
        let values = self.rounds.saturating_sub(self.forest);
        self.tell_phase(rt, "values of rounds", values)?;
        self.tell_phase(rt, "last leaves", self.last_leaves)?;
        self.tell_phase(rt, "text", self.text)
    }
}
