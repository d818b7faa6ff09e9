//! Laws of the instructions that tagging reaches: each function only states one.

ghost use Rattle.laws_sections.specs.ReachLaws.{OwnTagIsFree, TaggedIsTyped};

/// Typing reaches each instruction that tagging reaches.
pub fn tagged_is_typed()
    ensures { TaggedIsTyped }
{}

/// No instruction holds the tag that a `dup` there would make. So no tag is made again while it is
/// held.
pub fn own_tag_is_free()
    ensures { OwnTagIsFree }
{}
