//! The gate that each worker passes before it adds; `Open` never holds one up.

/// What a worker passes while it holds its `Local`, before it adds its first number. A gate at
/// which workers wait for one another shows that they run at the same time.
pub trait Gate {
    /// Lets the worker with this number through.
    fn pass(&self, worker: usize);
}

/// A gate at which nobody waits.
#[derive(Clone, Copy)]
pub struct Open;

impl Gate for Open {
    fn pass(&self, _worker: usize) {}
}
