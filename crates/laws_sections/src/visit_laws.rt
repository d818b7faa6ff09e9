//! Laws of the visits that tag a method: each function only states one.

ghost use Rattle.checked_program.specs.TagLaws.{OneTagging, OneTagRefusal, TaggedNotRefused};
ghost use Rattle.checked_program.specs.TagLaws.{TaggedOrRefused};

/// A method has at most one tagging.
pub fn one_tagging()
    ensures { OneTagging }
{}

/// No method that has a tagging is refused.
pub fn tagged_is_not_refused()
    ensures { TaggedNotRefused }
{}

/// A method is refused by at most one rule, at one pc.
pub fn one_tag_refusal()
    ensures { OneTagRefusal }
{}

/// A method whose instructions follow one another, each with a target, has a tagging or is refused.
pub fn tagged_or_refused()
    ensures { TaggedOrRefused }
{}
