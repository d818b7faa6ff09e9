//! Prints.

ghost use Rattle.laws_simulation.specs.OutcomeLaws.{NextKeepsPrints, PrintsAreKept, StartHasPrints};

use machine_types::instructions_change_memory;

/// Outside attempts the ticket of a print is the number of prints that the plain state has, and the
/// plain steps of an event print what the event prints.
pub fn prints_are_kept()
    ensures { PrintsAreKept }
{
    instructions_change_memory();
}

/// Where a part of the run begins, nothing is printed.
pub fn next_keeps_prints()
    ensures { NextKeepsPrints }
{}

/// At the start nothing is printed.
pub fn start_has_prints()
    ensures { StartHasPrints }
{}
