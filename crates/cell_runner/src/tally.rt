//! What workers came to, while their cell goes on.

/// The numbers of one worker or of several.
#[derive(Clone, Copy)]
pub(crate) struct Tally {
    /// How many of their tries at a write wrote.
    pub(crate) writes: u64,
    /// How many of their reads were `Got`.
    pub(crate) reads: u64,
    /// How many of them stopped before their last round.
    pub(crate) stopped: u8,
}
