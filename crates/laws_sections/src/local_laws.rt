//! What holds of a tagging at each instruction. What runs code rests on this law.

ghost use Rattle.checked_program.specs.TagLaws.{TagLocalLaw};

/// Under a tagging of a method that has a typing no instruction breaks a rule of locking, and the
/// frame that each edge brings has the held list and the tags of its target.
pub fn tagging_is_local()
    ensures { TagLocalLaw }
{}
