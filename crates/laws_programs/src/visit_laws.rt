//! Laws of the visits of a method, for all programs: each function only states one.

ghost use Rattle.laws_programs.specs.VisitLaws.{OneRefusal, OneTyping, OneTypingOf};
ghost use Rattle.laws_programs.specs.VisitLaws.{TypedNotRefused, TypedOrRefused};

/// A method has at most one list of frames.
pub fn one_typing()
    ensures { OneTyping }
{}

/// A method has at most one typing.
pub fn one_typing_of()
    ensures { OneTypingOf }
{}

/// No method that has a typing is refused.
pub fn typed_is_not_refused()
    ensures { TypedNotRefused }
{}

/// A method is refused by at most one rule, at one pc.
pub fn one_refusal()
    ensures { OneRefusal }
{}

/// A method whose instructions follow one another, each with a target, has a typing or is refused.
pub fn typed_or_refused()
    ensures { TypedOrRefused }
{}
