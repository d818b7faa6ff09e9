//! Laws of the marks of a program, each the contract of a function that does nothing.

ghost use Rattle.machine_types.specs.MarkLaws.{HasFrozenTest, HasOwnedTest, MarkedHasMark};

/// A test tells some frozen classes, among them each with a frozen or a guarded field.
pub fn frozen_classes_are_told()
    ensures { HasFrozenTest }
{}

/// A test tells the owned array fields.
pub fn owned_fields_are_told()
    ensures { HasOwnedTest }
{}

/// A section that the machine takes as marked has the mark 0: no rule forbids that it runs without
/// its lock.
pub fn marked_has_mark()
    ensures { MarkedHasMark }
{}
