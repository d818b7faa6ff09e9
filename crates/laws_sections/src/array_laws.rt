//! Where the arrays may be that owned array fields have.

ghost use Rattle.checked_program.specs.SectionLaws.{ArrayLaw, ElementWriteLaw, OneColouring};
ghost use Rattle.checked_program.specs.SectionLaws.{OwnedIsDecided};

/// A method has one colouring for a field at most, on the instructions that are reached.
pub fn colourings_are_one()
    ensures { OneColouring }
{}

/// A value that was read from an owned array field stays on the stack of the method that read it:
/// no place, no local and no other method gets it.
pub fn arrays_stay()
    ensures { ArrayLaw }
{}

/// An element of an array that `this` owns is written in an `<init>`, or with the monitor of `this`
/// entered.
pub fn elements_written_locked()
    ensures { ElementWriteLaw }
{}

/// Whether a value on the stack was read from an owned array field is decided.
pub fn owned_is_decided()
    ensures { OwnedIsDecided }
{}
