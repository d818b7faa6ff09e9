//! The places between the lines of a listing.

ghost use Rattle.std.specs.Prelude.{◌≡◌};
ghost use Rattle.asm_text.specs.Places.{place_after, class_rank, code_rank, in_class, in_code};
ghost use Rattle.asm_text.specs.Places.{is_end, part_of};

use crate::items::{Item, MemberKind};

/// The parts of a class behind its first line, in their order.
#[derive(Clone, Copy, Debug, PartialEq, Eq)]
pub enum ClassPart {
    Constants,
    Interfaces,
    Fields,
    Methods,
    Attributes,
}

/// The parts of a code behind its first line, in their order.
#[derive(Clone, Copy, Debug, PartialEq, Eq)]
pub enum CodePart {
    Start,
    Instructions,
    Rows,
    Attributes,
}

/// Where a listing stands between two lines.
#[derive(Clone, Copy, Debug, PartialEq, Eq)]
pub enum ListingPlace {
    Start,
    Class(ClassPart),
    Member(MemberKind),
    Code(MemberKind, CodePart),
}

fn class_rank(part: ClassPart) -> u8
    ensures { result ≡ class_rank part }
{
    match part {
        ClassPart::Constants => 0,
        ClassPart::Interfaces => 1,
        ClassPart::Fields => 2,
        ClassPart::Methods => 3,
        ClassPart::Attributes => 4,
    }
}

fn code_rank(part: CodePart) -> u8
    ensures { result ≡ code_rank part }
{
    match part {
        CodePart::Start => 0,
        CodePart::Instructions => 1,
        CodePart::Rows => 2,
        CodePart::Attributes => 3,
    }
}

fn part_of(kind: MemberKind) -> ClassPart
    ensures { result ≡ part_of kind }
{
    match kind {
        MemberKind::Field => ClassPart::Fields,
        MemberKind::Method => ClassPart::Methods,
    }
}

fn in_class(own: ClassPart, part: ClassPart, next: ListingPlace) -> Option<ListingPlace>
    ensures { result ≡ in_class own part next }
{
    if class_rank(own) < class_rank(part) {
        None
    } else {
        Some(next)
    }
}

fn in_code(own: CodePart, part: CodePart, next: ListingPlace) -> Option<ListingPlace>
    ensures { result ≡ in_code own part next }
{
    if code_rank(own) < code_rank(part) {
        None
    } else {
        Some(next)
    }
}

fn after_in_class(part: ClassPart, item: &Item) -> Option<ListingPlace>
    ensures { result ≡ place_after (ListingPlace.Class part) item.now }
{
    match item {
        Item::Entry(_) => in_class(
            ClassPart::Constants,
            part,
            ListingPlace::Class(ClassPart::Constants),
        ),
        Item::Interface(_) => in_class(
            ClassPart::Interfaces,
            part,
            ListingPlace::Class(ClassPart::Interfaces),
        ),
        Item::MemberHead(kind, _, _, _) => in_class(
            part_of(*kind),
            part,
            ListingPlace::Member(*kind),
        ),
        Item::Attribute(_) => in_class(
            ClassPart::Attributes,
            part,
            ListingPlace::Class(ClassPart::Attributes),
        ),
        _ => None,
    }
}

fn after_in_member(kind: MemberKind, item: &Item) -> Option<ListingPlace>
    ensures { result ≡ place_after (ListingPlace.Member kind) item.now }
{
    match item {
        Item::Attribute(_) | Item::InitialValue(_, _) => Some(ListingPlace::Member(kind)),
        Item::CodeHead(_, _, _) => Some(ListingPlace::Code(kind, CodePart::Start)),
        Item::End => Some(ListingPlace::Class(part_of(kind))),
        _ => None,
    }
}

fn after_in_code(kind: MemberKind, part: CodePart, item: &Item) -> Option<ListingPlace>
    ensures { result ≡ place_after (ListingPlace.Code kind part) item.now }
{
    match item {
        Item::CodeBytes(_) => in_code(
            CodePart::Start,
            part,
            ListingPlace::Code(kind, CodePart::Rows),
        ),
        Item::Instruction(_, _) => in_code(
            CodePart::Instructions,
            part,
            ListingPlace::Code(kind, CodePart::Instructions),
        ),
        Item::Row(_) => in_code(
            CodePart::Rows,
            part,
            ListingPlace::Code(kind, CodePart::Rows),
        ),
        Item::Attribute(_) => in_code(
            CodePart::Attributes,
            part,
            ListingPlace::Code(kind, CodePart::Attributes),
        ),
        Item::End => Some(ListingPlace::Member(kind)),
        _ => None,
    }
}

/// The place behind a line, or `None` where it may not stand there.
pub fn after(place: ListingPlace, item: &Item) -> Option<ListingPlace>
    ensures { result ≡ place_after place item.now }
{
    match place {
        ListingPlace::Start => match item {
            Item::FileHead(_, _, _, _, _) => Some(ListingPlace::Class(ClassPart::Constants)),
            _ => None,
        },
        ListingPlace::Class(part) => after_in_class(part, item),
        ListingPlace::Member(kind) => after_in_member(kind, item),
        ListingPlace::Code(kind, part) => after_in_code(kind, part, item),
    }
}

/// Whether a text may end here.
pub fn is_end(place: ListingPlace) -> bool
    ensures { result ≡ is_end place }
{
    matches!(place, ListingPlace::Class(_))
}
