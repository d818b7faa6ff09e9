//! Objects that are not finished yet.

ghost use Rattle.laws_objects.specs.ConstructionLaws.{EventsKeepConstruction};
ghost use Rattle.laws_objects.specs.ConstructionLaws.{NextKeepsConstruction, StartHasConstruction};

use laws_threads::{next_keeps_structure, structure_is_kept};
use machine_types::start_lies_apart;

/// At the start of a run no object is unfinished.
pub fn start_has_construction()
    ensures { StartHasConstruction }
{}

/// Whatever event happens, there is a world behind it, to which its thread alone may have changed
/// the one before, in which each unfinished object stays with the frame that builds it.
pub fn events_keep_construction()
    ensures { EventsKeepConstruction }
{
    start_lies_apart();
    structure_is_kept();
}

/// Where a part of the run begins, each unfinished object stays with the frame that builds it.
pub fn next_keeps_construction()
    ensures { NextKeepsConstruction }
{
    next_keeps_structure();
}
