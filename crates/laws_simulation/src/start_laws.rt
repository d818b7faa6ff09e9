//! The start of a run, and where a part of it begins.

ghost use Rattle.laws_simulation.specs.StepsBeside.{NextStandsBeside, StartStandsBesidePlain};

use laws_programs::run_stands;
use machine_types::{start_agrees, start_lies_apart};

/// At the start the objects and the threads are those of the plain machine.
pub fn start_stands_beside()
    ensures { StartStandsBesidePlain }
{
    start_agrees();
    start_lies_apart();
}

/// Where the workers' part begins or `done`, the plain machine makes no step: its threads may begin
/// by themselves.
pub fn next_stands_beside()
    ensures { NextStandsBeside }
{
    run_stands();
}
