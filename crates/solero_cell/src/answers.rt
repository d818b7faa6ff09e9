//! What a read and a write of a cell answer.

/// What a read came to.
#[derive(Clone, Copy, Debug, PartialEq, Eq)]
pub enum CellRead {
    /// The values are those of this count.
    Got(u64),
    /// A write is under way: the lock word that was found.
    NotFree(u64),
    /// In two attempts one after another a write came between: the lock words at the begin and at
    /// the end of the second one.
    Changed { noted: u64, found: u64 },
}

/// What a write came to. After every answer but `Wrote` nothing was written.
#[derive(Clone, Copy, Debug, PartialEq, Eq)]
pub enum CellWrite {
    /// The values stand in the cell, under this count.
    Wrote(u64),
    /// Another write is under way: the lock word that was found.
    NotFree(u64),
    /// Another write came first: the lock word that was expected, and the one that was found.
    Lost { expected: u64, found: u64 },
    /// The cell has its last count, 2^62 - 1.
    Full,
}
