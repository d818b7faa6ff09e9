//! What two tags have in common.

ghost use Rattle.std.specs.Prelude.{◌≡◌, if◌then◌else◌};
ghost use Rattle.checked_program.specs.LockTags.{same_tag};
ghost use Rattle.checked_program.specs.declared.tag.Tag.TheVariants.{Untagged, At};

use crate::tag::Tag;

pub fn same_tag(t: Tag, u: Tag) -> bool
    ensures { result ≡ same_tag t u }
{
    match (t, u) {
        (Tag::Untagged, Tag::Untagged) | (Tag::This, Tag::This) => true,
        (Tag::At(pc), Tag::At(at)) => pc == at,
        _ => false,
    }
}

/// The tag of a place that two edges bring these tags to.
pub fn meet_tag(t: Tag, u: Tag) -> Tag
    ensures { result ≡ (if same_tag t u then t else Untagged) }
{
    if same_tag(t, u) { t } else { Tag::Untagged }
}

/// A tag where that of the `dup` at a pc is taken away.
pub fn without_tag(t: Tag, pc: u32) -> Tag
    ensures { result ≡ (if same_tag t (At pc) then Untagged else t) }
{
    if same_tag(t, Tag::At(pc)) {
        Tag::Untagged
    } else {
        t
    }
}
