//! A program and its tags have one answer of marking.

ghost use Rattle.laws_sections.specs.MarkLaws.{OneMark, OneUse};

/// Each field may be read in one way, and each element either may or may not.
pub fn one_use()
    ensures { OneUse }
{}

/// The sections of a program have one list of marks.
pub fn one_mark()
    ensures { OneMark }
{}
