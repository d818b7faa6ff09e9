//! Counts along plain runs.

ghost use Rattle.laws_simulation.specs.OutcomeLaws.{CountsAppend, EventsAreCounted};
ghost use Rattle.laws_simulation.specs.OutcomeLaws.{OthersAreNotCounted};

/// What a run counts is the sum of what its parts count.
pub fn counts_append()
    ensures { CountsAppend }
{}

/// What a thread does counts for no other one.
pub fn others_are_not_counted()
    ensures { OthersAreNotCounted }
{}

/// Outside attempts a thread counts, by an event, the instructions and the sections that the plain
/// steps of the event begin and take.
pub fn events_are_counted()
    ensures { EventsAreCounted }
{}
