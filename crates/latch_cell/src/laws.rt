//! What the rule of a latch cell's table says of each step, whatever body makes it.

ghost use Rattle.latch_cell.specs.LatchLooks.{AddedLatchLooksAreTrue};

/// Where a step keeps the rule and adds one look to what its seat tells, no look had its place
/// before, and the lock word and the count behind the step are those of the look.
pub fn added_latch_looks_are_true()
    ensures { AddedLatchLooksAreTrue }
{}
