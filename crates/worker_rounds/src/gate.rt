/// What a worker passes between a claim and its return, outside of the lock.
pub trait Gate {
    /// The worker with that number passes, for the time with that number, which counts from 0.
    fn pass(&self, worker: u32, turn: u64);
}

/// A gate that lets everyone pass.
#[derive(Clone, Copy)]
pub struct NoGate;

impl Gate for NoGate {
    fn pass(&self, _worker: u32, _turn: u64) {}
}
