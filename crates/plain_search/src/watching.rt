//! Who is told how far a search has come.

/// Who is told how far a search has come.
pub trait Watch {
    /// There are so many states, of so many of which the steps are still to be tried.
    fn tell(&mut self, states: usize, left: usize);

    /// The search has ended.
    fn end(&mut self);
}

/// Nobody is told.
#[derive(Clone, Copy, Debug)]
pub struct Unwatched;

impl Watch for Unwatched {
    fn tell(&mut self, _states: usize, _left: usize) {}

    fn end(&mut self) {}
}
