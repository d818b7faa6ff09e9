//! What a thread does inside an attempt, and that the attempt stands as it does so.

ghost use Rattle.laws_threads.specs.InsideEffects.{InsideMayDo};
ghost use Rattle.laws_threads.specs.InsideMoves.{BeginsAttempt, EntersInside, LeavesInside};
ghost use Rattle.laws_threads.specs.InsideMoves.{ElementsInside, StepsInside, ThrowsInside};

use machine_types::marked_has_mark;

/// An instruction inside writes nothing, reads what stays while the monitor is free, and enters and
/// leaves that monitor alone.
pub fn inside_may_do()
    ensures { InsideMayDo }
{}

/// The attempt stands behind an instruction.
pub fn steps_inside()
    ensures { StepsInside }
{}

/// A thread that is at an element of an array inside an attempt reads it, and the monitor's object
/// owns the array.
pub fn elements_inside()
    ensures { ElementsInside }
{}

/// It stands where an exception goes to a handler, or to the calling frame.
pub fn throws_inside()
    ensures { ThrowsInside }
{}

/// It stands behind an exit that is not the last one.
pub fn leaves_inside()
    ensures { LeavesInside }
{}

/// It stands behind an entry of its monitor inside.
pub fn enters_inside()
    ensures { EntersInside }
{}

/// It stands as it begins, at the entry of a marked section.
pub fn attempt_begins()
    ensures { BeginsAttempt }
{
    marked_has_mark();
}
