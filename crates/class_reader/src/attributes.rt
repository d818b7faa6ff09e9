//! Attributes (JVMS 4.7): Code of a method, ConstantValue of a field, and those that are kept
//! unread.

ghost use Rattle.std.specs.Prelude.{◌≡◌, ◌+◌, ◌<◌, ◌^◌, length, IfOk};
ghost use Rattle.jvm_types.specs.ReadingSteps.{whole};
ghost use Rattle.jvm_types.specs.ReadingPool.{index_at};
ghost use Rattle.jvm_types.specs.ReadingClass.{attr_at, table_row_at, code_at, code_attr};
ghost use Rattle.jvm_types.specs.ReadingClass.{value_attr, field_attr_at, method_attr_at};
ghost use Rattle.jvm_types.specs.declared.index_kind.IndexKind.TheVariants.{Value as OfValue};
ghost use Rattle.class_reader.specs.Giving.{Gives, attr_of, moved_stop, HasPlaceInFile};

use crate::indices::read_index;
use crate::items::{Stop, read_run, read_u2, read_u4};
use crate::list_reading::{Step, read_list};
use constant_pools::index_kinds::is_named;
use jvm_types::{Attr, Bytes, CRule, Code, Constant, Handler, IndexKind, MemberAttr, Rows};
use std::alloc::Global;

/// The name of an attribute, its body, which is cut out by its length, and the bytes after it.
#[tactic(auto, unfolding(jvm_types::specs::ReadingClass::attr_at))]
fn cut_attr<'a>(pool: &Rows<Constant>, bytes: &'a [u8]) -> Result<(u16, &'a [u8], &'a [u8]), Stop>
    ensures gives { Gives (λ x. (attr_of x.0 x.1.now, x.2.now)) result
        (attr_at pool.now bytes.now) }
    ensures room { IfOk result (λ x. length x.1.now + length x.2.now < 2 ^ 63) }
{
    let (name, rest) = read_index(IndexKind::Utf8, pool, bytes)?;
    let (len, rest) = read_u4(rest)?;
    let (body, rest) = read_run(len as usize, rest)?;
    Ok((name, body, rest))
}

/// An attribute that is kept unread.
pub struct AttrStep;

impl Step for AttrStep {
    type Item = Attr;

    ghost item_at = { attr_at };

    fn read<'a>(
        alloc: Global,
        pool: &Rows<Constant>,
        bytes: &'a [u8],
    ) -> Result<(Attr, &'a [u8]), Stop> {
        let (name, body, rest) = cut_attr(pool, bytes)?;
        let body = Bytes::from_slice(alloc, body)?;
        Ok((Attr { name, body }, rest))
    }
}

/// A row of an exception table (JVMS 4.7.3).
pub struct HandlerStep;

impl Step for HandlerStep {
    type Item = Handler;

    ghost item_at = { table_row_at };

    #[tactic(auto, unfolding(jvm_types::specs::ReadingClass::table_row_at))]
    fn read<'a>(
        _alloc: Global,
        pool: &Rows<Constant>,
        bytes: &'a [u8],
    ) -> Result<(Handler, &'a [u8]), Stop> {
        let (start, rest) = read_u2(bytes)?;
        let (end, rest) = read_u2(rest)?;
        let (handler, rest) = read_u2(rest)?;
        let (catch_type, rest) = read_index(IndexKind::CatchType, pool, rest)?;
        let row = Handler {
            start,
            end,
            handler,
            catch_type,
        };
        Ok((row, rest))
    }
}

/// The parts of a Code of this name (JVMS 4.7.3).
#[tactic(auto, unfolding(jvm_types::specs::ReadingClass::code_at))]
fn read_code<'a>(
    alloc: Global,
    pool: &Rows<Constant>,
    name: u16,
    bytes: &'a [u8],
) -> Result<(Code, &'a [u8]), Stop>
    ensures { Gives (λ x. (x.0, x.1.now)) result (code_at pool.now name bytes.now) }
{
    let (max_stack, rest) = read_u2(bytes)?;
    let (max_locals, rest) = read_u2(rest)?;
    let (len, rest) = read_u4(rest)?;
    let (code, rest) = read_run(len as usize, rest)?;
    let (rows, rest) = read_list::<HandlerStep>(alloc, pool, rest)?;
    let (attrs, rest) = read_list::<AttrStep>(alloc, pool, rest)?;
    let code = Code {
        max_stack,
        max_locals,
        bytes: Bytes::from_slice(alloc, code)?,
        rows,
        attrs,
        name,
    };
    Ok((code, rest))
}

/// A Code that takes the whole body.
#[tactic(auto, unfolding(jvm_types::specs::ReadingSteps::whole))]
fn read_whole_code(
    alloc: Global,
    pool: &Rows<Constant>,
    name: u16,
    body: &[u8],
) -> Result<Code, Stop>
    ensures { Gives (λ x. x) result (whole (code_at pool.now name body.now)) }
{
    let (code, rest) = read_code(alloc, pool, name, body)?;
    match rest {
        [] => Ok(code),
        [_, ..] => Err(Stop::At(CRule::C8, rest.len())),
    }
}

/// The index of a constant that takes the whole body (JVMS 4.7.2).
#[tactic(auto, unfolding(jvm_types::specs::ReadingSteps::whole))]
fn read_whole_value(pool: &Rows<Constant>, body: &[u8]) -> Result<u16, Stop>
    ensures { Gives (λ x. x) result (whole (index_at OfValue pool.now body.now)) }
{
    let (index, rest) = read_index(IndexKind::Value, pool, body)?;
    match rest {
        [] => Ok(index),
        [_, ..] => Err(Stop::At(CRule::C8, rest.len())),
    }
}

/// A stop in a body that was cut out, as one of the file: where the parts want more or fewer bytes
/// than the length says, that is C7 at the length. Behind the body `behind` bytes are left.
fn moved(stop: Stop, at_length: usize, behind: usize) -> Stop
    requires { HasPlaceInFile behind stop }
    ensures { result ≡ moved_stop at_length behind stop }
{
    match stop {
        Stop::Memory => Stop::Memory,
        Stop::At(CRule::C3 | CRule::C8, _) => Stop::At(CRule::C7, at_length),
        Stop::At(rule, left) => Stop::At(rule, left + behind),
    }
}

/// The body of an attribute, read as a Code. Behind it `behind` bytes are left.
#[tactic(auto, unfolding(jvm_types::specs::ReadingClass::code_attr, jvm_types::specs::ReadingSteps::in_body))]
fn read_code_attr(
    alloc: Global,
    pool: &Rows<Constant>,
    name: u16,
    body: &[u8],
    behind: usize,
) -> Result<MemberAttr, Stop>
    requires { length body.now + behind < 2 ^ 63 }
    ensures { Gives (λ x. x) result (code_attr pool.now (attr_of name body.now) behind) }
{
    match read_whole_code(alloc, pool, name, body) {
        Ok(code) => Ok(MemberAttr::Code(code)),
        Err(stop) => Err(moved(stop, 4 + body.len() + behind, behind)),
    }
}

/// The body of an attribute, read as the index of a constant. Behind it `behind` bytes are left.
#[tactic(auto, unfolding(jvm_types::specs::ReadingClass::value_attr, jvm_types::specs::ReadingSteps::in_body))]
fn read_value_attr(
    pool: &Rows<Constant>,
    name: u16,
    body: &[u8],
    behind: usize,
) -> Result<MemberAttr, Stop>
    requires { length body.now + behind < 2 ^ 63 }
    ensures { Gives (λ x. x) result (value_attr pool.now (attr_of name body.now) behind) }
{
    match read_whole_value(pool, body) {
        Ok(constant) => Ok(MemberAttr::ConstantValue { name, constant }),
        Err(stop) => Err(moved(stop, 4 + body.len() + behind, behind)),
    }
}

/// An attribute of a field.
pub struct FieldAttrStep;

impl Step for FieldAttrStep {
    type Item = MemberAttr;

    ghost item_at = { field_attr_at };

    #[tactic(auto, unfolding(jvm_types::specs::ReadingClass::field_attr_at))]
    fn read<'a>(
        alloc: Global,
        pool: &Rows<Constant>,
        bytes: &'a [u8],
    ) -> Result<(MemberAttr, &'a [u8]), Stop> {
        let (name, body, rest) = cut_attr(pool, bytes)?;
        if is_named(pool, name, b"ConstantValue") {
            let value = read_value_attr(pool, name, body, rest.len())?;
            return Ok((value, rest));
        }
        let body = Bytes::from_slice(alloc, body)?;
        Ok((MemberAttr::Other(Attr { name, body }), rest))
    }
}

/// An attribute of a method.
pub struct MethodAttrStep;

impl Step for MethodAttrStep {
    type Item = MemberAttr;

    ghost item_at = { method_attr_at };

    #[tactic(auto, unfolding(jvm_types::specs::ReadingClass::method_attr_at))]
    fn read<'a>(
        alloc: Global,
        pool: &Rows<Constant>,
        bytes: &'a [u8],
    ) -> Result<(MemberAttr, &'a [u8]), Stop> {
        let (name, body, rest) = cut_attr(pool, bytes)?;
        if is_named(pool, name, b"Code") {
            let code = read_code_attr(alloc, pool, name, body, rest.len())?;
            return Ok((code, rest));
        }
        let body = Bytes::from_slice(alloc, body)?;
        Ok((MemberAttr::Other(Attr { name, body }), rest))
    }
}
