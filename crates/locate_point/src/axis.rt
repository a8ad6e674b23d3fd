//! A coordinate axis that is cut into steps.
ghost use Rattle.std.specs.Prelude.{◌<◌};
ghost use Rattle.macro_file.specs.Limits.{AtMost};

// A start, the width of the steps in fine units, and the number of the last of them.
#[derive(Clone, Copy)]
pub struct Axis {
    pub from: i64,
    pub width: u64,
    pub last: u32,
    ghost start: { AtMost 4096000000000000000 from },
    ghost positive: { 0 < width },
    ghost few: { last < 32768 },
}
