/// What each worker of a run on threads passes once, before its first event.
pub trait Gate {
    /// Called by worker `t` while it holds no lock.
    fn pass(&self, t: u8);
}

/// A gate that holds nobody back.
#[derive(Clone, Copy)]
pub struct OpenGate;

impl Gate for OpenGate {
    fn pass(&self, _t: u8) {}
}
