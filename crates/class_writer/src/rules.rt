//! Tests of the rules of a class file (JVMS 4.1, 4.5 to 4.7), where its numbers and lengths fit
//! their fields.

ghost use Rattle.std.specs.Prelude.{◌≡◌, length};
ghost use Rattle.std.specs.List.{list_all};
ghost use Rattle.jvm_types.specs.ClassGrammar.{codes_of};
ghost use Rattle.jvm_types.specs.ReadingClass.{has_body};
ghost use Rattle.jvm_types.specs.ReadingPool.{names};
ghost use Rattle.jvm_types.specs.declared.index_kind.IndexKind.TheVariants.{Class};
ghost use Rattle.class_writer.specs.Testing.{is_attr, is_handler, is_pool_code, is_field_attr};
ghost use Rattle.class_writer.specs.Testing.{is_method_attr, has_names, is_field, is_code_attr};
ghost use Rattle.class_writer.specs.Testing.{is_method, has_version, has_classes};
ghost use Rattle.class_writer.specs.Testing.{has_members, keeps_rules};

use crate::pool_rules::is_pool;
use constant_pools::index_kinds::{is_named, names};
use jvm_types::flags::{ABSTRACT, NATIVE, has_flag};
use jvm_types::limits::{FIRST_VERSION, LAST_VERSION};
use jvm_types::{Attr, ClassFile, Code, Constant, Handler, IndexKind, Member, MemberAttr, Rows};

fn is_attr(pool: &Rows<Constant>, attr: &Attr) -> bool
    ensures { result ≡ is_attr pool.now attr.now }
{
    names(IndexKind::Utf8, pool, attr.name)
}

fn are_attrs(pool: &Rows<Constant>, items: &Rows<Attr>) -> bool
    ensures { result ≡ list_all (is_attr pool.now) items.now }
{
    items.as_slice().iter().all(|item| is_attr(pool, item))
}

fn is_handler(pool: &Rows<Constant>, row: &Handler) -> bool
    ensures { result ≡ is_handler pool.now row.now }
{
    names(IndexKind::CatchType, pool, row.catch_type)
}

fn are_handlers(pool: &Rows<Constant>, items: &Rows<Handler>) -> bool
    ensures { result ≡ list_all (is_handler pool.now) items.now }
{
    items.as_slice().iter().all(|item| is_handler(pool, item))
}

fn is_code(pool: &Rows<Constant>, code: &Code) -> bool
    ensures { result ≡ is_pool_code pool.now code.now }
{
    is_named(pool, code.name, b"Code")
        && are_handlers(pool, &code.rows)
        && are_attrs(pool, &code.attrs)
}

/// Whether an attribute of a field is one, and a `ConstantValue` exactly where it is named so.
fn is_field_attr(pool: &Rows<Constant>, attr: &MemberAttr) -> bool
    ensures { result ≡ is_field_attr pool.now attr.now }
{
    match attr {
        MemberAttr::Code(_) => false,
        MemberAttr::ConstantValue { name, constant } => {
            is_named(pool, *name, b"ConstantValue") && names(IndexKind::Value, pool, *constant)
        }
        MemberAttr::Other(attr) => {
            is_attr(pool, attr) && !is_named(pool, attr.name, b"ConstantValue")
        }
    }
}

/// Whether an attribute of a method is one, and a `Code` exactly where it is named so.
fn is_method_attr(pool: &Rows<Constant>, attr: &MemberAttr) -> bool
    ensures { result ≡ is_method_attr pool.now attr.now }
{
    match attr {
        MemberAttr::Code(code) => is_code(pool, code),
        MemberAttr::ConstantValue { .. } => false,
        MemberAttr::Other(attr) => is_attr(pool, attr) && !is_named(pool, attr.name, b"Code"),
    }
}

fn are_field_attrs(pool: &Rows<Constant>, items: &Rows<MemberAttr>) -> bool
    ensures { result ≡ list_all (is_field_attr pool.now) items.now }
{
    items
        .as_slice()
        .iter()
        .all(|item| is_field_attr(pool, item))
}

fn are_method_attrs(pool: &Rows<Constant>, items: &Rows<MemberAttr>) -> bool
    ensures { result ≡ list_all (is_method_attr pool.now) items.now }
{
    items
        .as_slice()
        .iter()
        .all(|item| is_method_attr(pool, item))
}

fn has_names(pool: &Rows<Constant>, member: &Member) -> bool
    ensures { result ≡ has_names pool.now member.now }
{
    names(IndexKind::Utf8, pool, member.name) && names(IndexKind::Utf8, pool, member.descriptor)
}

fn is_field(pool: &Rows<Constant>, field: &Member) -> bool
    ensures { result ≡ is_field pool.now field.now }
{
    has_names(pool, field) && are_field_attrs(pool, &field.attrs)
}

fn is_code_attr(attr: &MemberAttr) -> bool
    ensures { result ≡ is_code_attr attr.now }
{
    matches!(attr, MemberAttr::Code(_))
}

// How many of them are a `Code`.
#[tactic(auto, using(crate::proofs::TestProofs::codes_counted))]
fn code_count(attrs: &Rows<MemberAttr>) -> usize
    ensures { result ≡ length (codes_of attrs.now) }
{
    attrs
        .as_slice()
        .iter()
        .filter(|attr| is_code_attr(attr))
        .count()
}

/// Whether a method has one `Code`, and is neither `NATIVE` nor `ABSTRACT` (JVMS 4.7.3).
fn has_body(method: &Member) -> bool
    ensures { result ≡ has_body method.now }
{
    code_count(&method.attrs) == 1
        && !has_flag(NATIVE, method.flags)
        && !has_flag(ABSTRACT, method.flags)
}

fn is_method(pool: &Rows<Constant>, method: &Member) -> bool
    ensures { result ≡ is_method pool.now method.now }
{
    has_names(pool, method) && are_method_attrs(pool, &method.attrs) && has_body(method)
}

fn are_fields(pool: &Rows<Constant>, items: &Rows<Member>) -> bool
    ensures { result ≡ list_all (is_field pool.now) items.now }
{
    items.as_slice().iter().all(|item| is_field(pool, item))
}

fn are_methods(pool: &Rows<Constant>, items: &Rows<Member>) -> bool
    ensures { result ≡ list_all (is_method pool.now) items.now }
{
    items.as_slice().iter().all(|item| is_method(pool, item))
}

fn are_classes(pool: &Rows<Constant>, indices: &Rows<u16>) -> bool
    ensures { result ≡ list_all (names Class pool.now) indices.now }
{
    indices
        .as_slice()
        .iter()
        .all(|index| names(IndexKind::Class, pool, *index))
}

fn has_version(c: &ClassFile) -> bool
    ensures { result ≡ has_version c.now }
{
    FIRST_VERSION <= c.major && c.major <= LAST_VERSION
}

fn has_classes(c: &ClassFile) -> bool
    ensures { result ≡ has_classes c.now }
{
    let pool = &c.constants;
    names(IndexKind::Class, pool, c.this_class)
        && names(IndexKind::Class, pool, c.super_class)
        && are_classes(pool, &c.interfaces)
}

fn has_members(c: &ClassFile) -> bool
    ensures { result ≡ has_members c.now }
{
    let pool = &c.constants;
    are_fields(pool, &c.fields) && are_methods(pool, &c.methods) && are_attrs(pool, &c.attrs)
}

/// Whether a class keeps the rules that the bytes of no class break.
pub fn keeps_rules(c: &ClassFile) -> bool
    ensures { result ≡ keeps_rules c.now }
{
    has_version(c) && is_pool(&c.constants) && has_classes(c) && has_members(c)
}
