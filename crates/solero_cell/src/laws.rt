//! What the rule of a cell's table says of each step, whatever body makes it.

ghost use Rattle.solero_cell.specs.Looks.{AddedLooksAreTrue};

/// Where a step keeps the rule and adds one look to what its seat tells, no look had its place
/// before, and the lock word behind the step is that of the look: the step itself has found it.
pub fn added_looks_are_true()
    ensures { AddedLooksAreTrue }
{}
