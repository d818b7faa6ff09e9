//! The begin of a part of the run.

ghost use Rattle.laws_threads.specs.PartLaws.{EventsFitParts, NextFitsParts, NextKeepsStructure};
ghost use Rattle.laws_threads.specs.PartLaws.{StartFitsParts};

/// At the start of a run the workers wait for their part.
pub fn start_fits_parts()
    ensures { StartFitsParts }
{}

/// An event leaves who waits for a part, as it leaves each thread its part.
pub fn events_fit_parts()
    ensures { EventsFitParts }
{}

/// Where a part begins, those that wait for a later one wait still: the workers are idle until
/// theirs begins, and then thread 0 has returned until `done` begins.
pub fn next_fits_parts()
    ensures { NextFitsParts }
{}

/// So the locking of all threads stays structured: none of those that begin has a frame or holds a
/// monitor.
pub fn next_keeps_structure()
    ensures { NextKeepsStructure }
{}
