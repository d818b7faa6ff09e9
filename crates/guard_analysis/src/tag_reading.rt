//! The tags of a frame, place by place.

ghost use Rattle.std.specs.Prelude.{◌≡◌, slice_index_or};
ghost use Rattle.checked_program.specs.LockTags.{is_this};
ghost use Rattle.checked_program.specs.declared.tag.Tag.TheVariants.{Untagged as untagged};

use checked_program::{Tag, TagFrame};

/// The tag at a place, counted from the top of the stack on from 0.
pub(crate) fn stack_tag(frame: &TagFrame, place: usize) -> Tag
    ensures { result ≡ slice_index_or frame.now.stack place untagged }
{
    if place >= frame.stack().len() {
        return Tag::Untagged;
    }
    match frame.stack().get(place) {
        Some(t) => *t,
        None => unreachable!(),
    }
}

pub(crate) fn is_this(tag: Tag) -> bool
    ensures { result ≡ is_this tag }
{
    matches!(tag, Tag::This)
}
