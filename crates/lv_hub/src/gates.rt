/// A point that a worker passes between claiming a job and computing it. No lock is held there.
pub trait Gate {
    /// Called in each turn that claimed a job, with the number of the turn from 0. It may wait, for example in a test.
    fn hold(&self, turn: u64);
}

/// A gate that never waits.
#[derive(Clone, Copy)]
pub struct OpenGate;

impl Gate for OpenGate {
    fn hold(&self, _turn: u64) {}
}
