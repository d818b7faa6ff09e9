//! The state of a thread as a whole.

ghost use Rattle.laws_threads.specs.LawfulLaws.{LawfulIsKept};

use crate::bound_laws::bounds_are_kept;
use crate::root_laws::roots_are_kept;
use crate::{structure_is_kept, types_are_kept};

/// An event keeps the state of a thread lawful: its locking structured, its values of their types,
/// its numbers within their bounds and its roots those of its part.
pub fn lawful_is_kept()
    ensures { LawfulIsKept }
{
    structure_is_kept();
    types_are_kept();
    bounds_are_kept();
    roots_are_kept();
}
