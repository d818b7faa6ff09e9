//! Objects that are not finished yet.

ghost use Rattle.checked_program.specs.ObjectLaws.{FrozenLaw};

/// An instruction of an `<init>` of a frozen class puts `this` in no place and no local, gives it
/// to no method and no caller, throws it not, locks it not, and compares it with no other value.
pub fn frozen_hides_this()
    ensures { FrozenLaw }
{}
