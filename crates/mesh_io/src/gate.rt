//! Where concurrent work can be held for a while.

/// A step that a worker has made.
#[derive(Clone, Copy, Debug, PartialEq, Eq)]
pub enum GatePoint {
    /// A patch was claimed.
    Claimed,
    /// The children of a patch were published.
    Published,
    /// The children of a patch were retired.
    Retired,
    /// A reader has pinned a round, and has not begun its traversal.
    Pinned,
}

/// Told of steps by the worker that made them. A gate tells its caller nothing.
pub trait Gate {
    /// `worker` is the number of the pass: workers are numbered from 1, and the caller who finishes
    /// a round is worker 0.
    fn at(&self, point: GatePoint, worker: u32);
}

/// A gate that holds nobody.
#[derive(Clone, Copy, Debug)]
pub struct NoGate;

impl Gate for NoGate {
    fn at(&self, _point: GatePoint, _worker: u32) {}
}
