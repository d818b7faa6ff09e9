//! Fields and methods (JVMS 4.5, 4.6).

ghost use Rattle.std.specs.Prelude.{◌≡◌, count_by};
ghost use Rattle.jvm_types.specs.ReadingClass.{member_at, field_at, has_body, method_at};
ghost use Rattle.class_reader.specs.Giving.{Gives, is_code};

use crate::attributes::{FieldAttrStep, MethodAttrStep};
use crate::indices::read_index;
use crate::items::{Stop, check, read_u2};
use crate::list_reading::{Step, read_list};
use jvm_types::flags::{ABSTRACT, NATIVE, has_flag};
use jvm_types::{CRule, Constant, IndexKind, Member, MemberAttr, Rows};
use std::alloc::Global;

/// A field or a method, with a step for its attributes.
#[tactic(auto, unfolding(jvm_types::specs::ReadingClass::member_at))]
fn read_member<'a, S: Step<Item = MemberAttr>>(
    alloc: Global,
    pool: &Rows<Constant>,
    bytes: &'a [u8],
) -> Result<(Member, &'a [u8]), Stop>
    ensures { Gives (λ x. (x.0, x.1.now)) result
        (member_at (S.item_at pool.now) pool.now bytes.now) }
{
    let (flags, rest) = read_u2(bytes)?;
    let (name, rest) = read_index(IndexKind::Utf8, pool, rest)?;
    let (descriptor, rest) = read_index(IndexKind::Utf8, pool, rest)?;
    let (attrs, rest) = read_list::<S>(alloc, pool, rest)?;
    let member = Member {
        flags,
        name,
        descriptor,
        attrs,
    };
    Ok((member, rest))
}

/// A field.
pub struct FieldStep;

impl Step for FieldStep {
    type Item = Member;

    ghost item_at = { field_at };

    #[tactic(auto, unfolding(jvm_types::specs::ReadingClass::field_at))]
    fn read<'a>(
        alloc: Global,
        pool: &Rows<Constant>,
        bytes: &'a [u8],
    ) -> Result<(Member, &'a [u8]), Stop> {
        read_member::<FieldAttrStep>(alloc, pool, bytes)
    }
}

/// How many of the attributes are a Code.
fn count_codes(attrs: &[MemberAttr]) -> usize
    ensures { result ≡ count_by is_code attrs.now }
{
    attrs
        .iter()
        .filter(|attr| matches!(attr, MemberAttr::Code(_)))
        .count()
}

/// Whether a method has one Code, and is neither NATIVE nor ABSTRACT (JVMS 4.7.3).
#[tactic(auto, using(crate::proofs::CodeCount::codes_counted))]
fn has_body(method: &Member) -> bool
    ensures { result ≡ has_body method.now }
{
    count_codes(method.attrs.as_slice()) == 1
        && !has_flag(NATIVE, method.flags)
        && !has_flag(ABSTRACT, method.flags)
}

/// A method.
pub struct MethodStep;

impl Step for MethodStep {
    type Item = Member;

    ghost item_at = { method_at };

    #[tactic(auto, unfolding(jvm_types::specs::ReadingClass::method_at))]
    fn read<'a>(
        alloc: Global,
        pool: &Rows<Constant>,
        bytes: &'a [u8],
    ) -> Result<(Member, &'a [u8]), Stop> {
        let (method, rest) = read_member::<MethodAttrStep>(alloc, pool, bytes)?;
        check(has_body(&method), CRule::C9, bytes.len())?;
        Ok((method, rest))
    }
}
