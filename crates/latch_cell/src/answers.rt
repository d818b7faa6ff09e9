//! What a read of a latch cell answers. What a write answers is `solero_cell::CellWrite`.

/// What a read came to.
#[derive(Clone, Copy, Debug, PartialEq, Eq)]
pub enum LatchRead {
    /// The values are those of this count.
    Got(u64),
    /// In each of two attempts one after another a whole write ended: the counts at the begin and
    /// at the end of the second one.
    Changed { noted: u64, found: u64 },
}
