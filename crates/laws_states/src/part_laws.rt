//! How far the parts of a run have come.

ghost use Rattle.laws_states.specs.PartsLaws.{ClassInitsRunAlone, EventsKeepParts};
ghost use Rattle.laws_states.specs.PartsLaws.{EventsPutInitsFirst, NextKeepsParts};
ghost use Rattle.laws_states.specs.PartsLaws.{NextPutsInitsFirst};
ghost use Rattle.laws_states.specs.PartsLaws.{StartPutsInitsFirst, StartStandsInParts};
ghost use Rattle.laws_states.specs.StateLaws.{ProgramsKeepThreads};

use laws_programs::one_method;
use laws_threads::{given_is_kept, roots_are_kept};

/// The threads of the start, and of each part that begins, are those of the program, and lawful.
pub fn parts_keep_threads()
    ensures { ProgramsKeepThreads }
{}

/// At the start thread 0 is in `init`, and the workers wait.
pub fn start_stands_in_parts()
    ensures { StartStandsInParts }
{}

/// Whatever an event does, a thread that has returned has run all of its roots, and when `done` has
/// begun the workers have finished.
pub fn events_keep_parts()
    ensures { EventsKeepParts }
{
    one_method();
    given_is_kept();
    roots_are_kept();
}

/// So it is where a part begins: behind `init` thread 0 keeps that it returned.
pub fn next_keeps_parts()
    ensures { NextKeepsParts }
{}

/// At the start no thread has a frame.
pub fn start_puts_inits_first()
    ensures { StartPutsInitsFirst }
{}

/// Whatever an event does, no worker has a frame of a `<clinit>`, and thread 0 has none in `done`:
/// no instruction calls one (JVMS 2.9).
pub fn events_put_inits_first()
    ensures { EventsPutInitsFirst }
{
    given_is_kept();
}

/// So it is where a part begins.
pub fn next_puts_inits_first()
    ensures { NextPutsInitsFirst }
{}

/// So while an instruction of a `<clinit>` begins, no worker has begun.
pub fn class_inits_run_alone()
    ensures { ClassInitsRunAlone }
{}
