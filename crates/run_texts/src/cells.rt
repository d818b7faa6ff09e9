//! The report of a run of a cell.

ghost use Rattle.std.specs.Prelude.{◌≡◌, IfOk};
ghost use Rattle.run_texts.specs.CellText.{cell_text};

use jvm_types::Bytes;
use std::alloc::{AllocError, Global};

/// What was asked for of a run of a cell, and what it came to.
#[derive(Clone, Copy, Debug, PartialEq, Eq)]
pub struct CellCounts {
    /// The workers.
    pub threads: u8,
    /// The rounds of each.
    pub size: u32,
    /// The writes, which is the cell's last count.
    pub writes: u64,
    /// The reads that were whole.
    pub reads: u64,
    /// The workers that stopped before their last round.
    pub stopped: u8,
}

/// The report of a run of a cell, in four lines: `cell threads N size S`, `writes W`, `reads R` and
/// `stopped K`.
pub fn cell_report(alloc: Global, counts: CellCounts) -> Result<Bytes, AllocError>
    ensures { IfOk result (λ text. text ≡ cell_text counts) }
{
    let CellCounts {
        threads,
        size,
        writes,
        reads,
        stopped,
    } = counts;
    let mut text = String::new(alloc);
    writeln!(text, "cell threads {threads} size {size}")?;
    writeln!(text, "writes {writes}")?;
    writeln!(text, "reads {reads}")?;
    writeln!(text, "stopped {stopped}")?;
    Bytes::from_slice(alloc, text.as_bytes())
}
