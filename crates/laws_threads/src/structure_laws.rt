//! Structured locking (JVMS 2.11.10).

ghost use Rattle.laws_threads.specs.StateLaws.{EventsKeepStructure};
ghost use Rattle.laws_threads.specs.StructureLaws.{StructureIsKept};

use crate::{attempt_begins, enters_inside};

/// Whatever an event makes of a thread, what it holds, its phase and its attempt agree with what
/// its frames show.
pub fn structure_is_kept()
    ensures { StructureIsKept }
{
    attempt_begins();
    enters_inside();
}

/// So an event keeps the locking of all threads structured.
pub fn events_keep_structure()
    ensures { EventsKeepStructure }
{
    attempt_begins();
    enters_inside();
}
