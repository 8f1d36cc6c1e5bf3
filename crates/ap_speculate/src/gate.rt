use std::sync::Wait;

/// Where a worker passes a gate.
#[derive(Clone, Copy, Debug, PartialEq, Eq)]
pub enum Place {
    Begin,
    Done,
}

/// What a worker passes before and after a job, with the printed name of the job's goal. A test's gate may wait. It
/// tells nothing.
pub trait Gate {
    fn pass<R: Wait>(&self, rt: &R, worker: u32, goal: &[u8], place: Place);
}

/// The shipped gate: it does nothing.
pub struct NoGate;

impl Gate for NoGate {
    fn pass<R: Wait>(&self, _rt: &R, _worker: u32, _goal: &[u8], _place: Place) {}
}
