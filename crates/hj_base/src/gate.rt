use crate::CoreNo;

/// Where a core waits before a step, so that a test can choose the order of steps.
pub trait Gate {
    /// Lets a core make its next step; `call` is the number of calls that it made before. It always returns.
    fn pass(&self, core: CoreNo, call: u64);
}

/// A gate that returns at once.
#[derive(Clone, Copy, Debug)]
pub struct OpenGate;

impl Gate for OpenGate {
    fn pass(&self, _core: CoreNo, _call: u64) {}
}
