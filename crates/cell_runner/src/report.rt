//! What a run of a cell comes to.

use solero_cell::CellEnd;

/// What the workers of a cell came to.
#[derive(Drop)]
pub struct CellReport {
    /// How many writes there were, which is the cell's last count.
    pub writes: u64,
    /// How many reads were `Got`.
    pub reads: u64,
    /// How many workers stopped before their last round.
    pub stopped: u8,
    /// That the cell has ended. The numbers are those of the seat that ended it.
    pub end: CellEnd,
}
