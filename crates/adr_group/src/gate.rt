//! What workers pass.

/// What each worker passes before each piece of its work, with its number: of a repair before each job, of many readers
/// before each answer. It decides nothing.
pub trait Gate {
    /// The worker comes to the gate, and may be held up there.
    fn pass(&self, worker: usize);
}

/// A gate that is always open.
#[derive(Clone, Copy)]
pub struct NoGate;

impl Gate for NoGate {
    fn pass(&self, _worker: usize) {}
}
