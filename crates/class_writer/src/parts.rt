//! The parts of a class file, field by field (JVMS 4.1 to 4.7).

ghost use Rattle.std.specs.Prelude.{◌≡◌, ◌<◌, ◌^◌, ◌++◌, length, OnOk};
ghost use Rattle.jvm_types.specs.Numbers.{u1, u2, u4, u8};
ghost use Rattle.jvm_types.specs.Spelling.{code_body, member_attr, class_file};
ghost use Rattle.jvm_types.specs.ClassGrammar.{IsCounted};
ghost use Rattle.jvm_types.specs.Counts.{TextFits, CodeFits, ClassCountsFit};
ghost use Rattle.class_writer.specs.Writing.{Writes, IsKnown, CodePartsFit, IsClassWritten};
ghost use Rattle.class_writer.specs.Writing.{head_bytes};

use crate::error::WriteError;
use crate::list_writing::{Part, write_list};
use crate::numbers::{write_len_u2, write_run, write_s4, write_u1, write_u2, write_u4, write_u8};
use jvm_types::class_file::MAGIC;
use jvm_types::{Attr, Bytes, ClassFile, Code, Constant, Handler, Member, MemberAttr};
use std::alloc::{AllocError, Global};

impl Part for u16 {
    ghost use Rattle.jvm_types.specs.Numbers.{u2};

    ghost spelling = { u2 };

    ghost fits = { λ n. Unit {0} };

    ghost known = { λ n. Unit {0} };

    fn write(&self, _alloc: Global, out: &mut Bytes) -> Result<(), WriteError> {
        Ok(write_u2(*self, out)?)
    }
}

impl Part for Handler {
    ghost use Rattle.jvm_types.specs.Spelling.{handler};

    ghost spelling = { handler };

    ghost fits = { λ h. Unit {0} };

    ghost known = { λ h. Unit {0} };

    fn write(&self, _alloc: Global, out: &mut Bytes) -> Result<(), WriteError> {
        write_u2(self.start, out)?;
        write_u2(self.end, out)?;
        write_u2(self.handler, out)?;
        Ok(write_u2(self.catch_type, out)?)
    }
}

impl Part for Attr {
    ghost use Rattle.jvm_types.specs.Spelling.{attr};
    ghost use Rattle.jvm_types.specs.Counts.{BodyFits};

    ghost spelling = { attr };

    ghost fits = { BodyFits };

    ghost known = { BodyFits };

    fn write(&self, _alloc: Global, out: &mut Bytes) -> Result<(), WriteError> {
        write_u2(self.name, out)?;
        write_run(&self.body, out)
    }
}

/// Writes a tag and an index.
fn write_index(tag: u8, index: u16, out: &mut Bytes) -> Result<(), AllocError>
    ensures { OnOk result (out.new ≡ out.old ++ (u1 tag ++ u2 index)) }
{
    write_u1(tag, out)?;
    write_u2(index, out)
}

/// Writes a tag and two indices.
fn write_pair(tag: u8, first: u16, second: u16, out: &mut Bytes) -> Result<(), AllocError>
    ensures { OnOk result (out.new ≡ out.old ++ (u1 tag ++ u2 first ++ u2 second)) }
{
    write_u1(tag, out)?;
    write_u2(first, out)?;
    write_u2(second, out)
}

/// Writes a tag and eight bytes.
fn write_wide(tag: u8, number: u64, out: &mut Bytes) -> Result<(), AllocError>
    ensures { OnOk result (out.new ≡ out.old ++ (u1 tag ++ u8 number)) }
{
    write_u1(tag, out)?;
    write_u8(number, out)
}

/// Writes the tag and the bytes of a text.
fn write_text(text: &Bytes, out: &mut Bytes) -> Result<(), WriteError>
    ensures { Writes (length text.now < 2 ^ 16) (length text.now < 2 ^ 16)
        (u1 1 ++ u2 (length text.now) ++ text.now) out.old out.new result }
{
    write_u1(1, out)?;
    write_len_u2(text.len(), out)?;
    Ok(out.extend_from_slice(text.as_slice())?)
}

impl Part for Constant {
    ghost use Rattle.jvm_types.specs.Spelling.{constant};
    ghost use Rattle.jvm_types.specs.Counts.{TextFits};
    ghost use Rattle.class_writer.specs.Writing.{IsKnown};

    ghost spelling = { constant };

    ghost fits = { TextFits };

    ghost known = { IsKnown };

    fn write(&self, _alloc: Global, out: &mut Bytes) -> Result<(), WriteError> {
        match self {
            Constant::Gap => {}
            Constant::Utf8(text) => write_text(text, out)?,
            Constant::Integer(number) => {
                write_u1(3, out)?;
                write_s4(*number, out)?;
            }
            Constant::Float(bits) => {
                write_u1(4, out)?;
                write_u4(*bits, out)?;
            }
            Constant::Long(number) => write_wide(5, *number, out)?,
            Constant::Double(bits) => write_wide(6, *bits, out)?,
            Constant::Class(name) => write_index(7, *name, out)?,
            Constant::Text(string) => write_index(8, *string, out)?,
            Constant::Field(class, member) => write_pair(9, *class, *member, out)?,
            Constant::Method(class, member) => write_pair(10, *class, *member, out)?,
            Constant::InterfaceMethod(class, member) => write_pair(11, *class, *member, out)?,
            Constant::NameAndType(name, descriptor) => write_pair(12, *name, *descriptor, out)?,
        }
        Ok(())
    }
}

/// Writes what stands behind the length of a `Code` attribute.
fn write_code_body(alloc: Global, code: &Code, out: &mut Bytes) -> Result<(), WriteError>
    ensures { Writes (CodePartsFit code.now) (CodePartsFit code.now) (code_body code.now) out.old
        out.new result }
{
    write_u2(code.max_stack, out)?;
    write_u2(code.max_locals, out)?;
    write_run(&code.bytes, out)?;
    write_list(alloc, &code.rows, out)?;
    write_list(alloc, &code.attrs, out)
}

/// Writes a `Code` attribute.
fn write_code(alloc: Global, code: &Code, out: &mut Bytes) -> Result<(), WriteError>
    ensures { Writes (CodeFits code.now) (CodeFits code.now)
        (member_attr (MemberAttr.Code code.now)) out.old out.new result }
{
    let mut body = Bytes::new(alloc);
    write_code_body(alloc, code, &mut body)?;
    write_u2(code.name, out)?;
    write_run(&body, out)
}

impl Part for MemberAttr {
    ghost use Rattle.jvm_types.specs.Spelling.{member_attr};
    ghost use Rattle.jvm_types.specs.Counts.{MemberAttrFits};

    ghost spelling = { member_attr };

    ghost fits = { MemberAttrFits };

    ghost known = { MemberAttrFits };

    fn write(&self, alloc: Global, out: &mut Bytes) -> Result<(), WriteError> {
        match self {
            MemberAttr::Code(code) => write_code(alloc, code, out),
            MemberAttr::ConstantValue { name, constant } => {
                write_u2(*name, out)?;
                write_u4(2, out)?;
                Ok(write_u2(*constant, out)?)
            }
            MemberAttr::Other(attr) => attr.write(alloc, out),
        }
    }
}

impl Part for Member {
    ghost use Rattle.jvm_types.specs.Spelling.{member};
    ghost use Rattle.jvm_types.specs.Counts.{MemberFits};

    ghost spelling = { member };

    ghost fits = { MemberFits };

    ghost known = { MemberFits };

    fn write(&self, alloc: Global, out: &mut Bytes) -> Result<(), WriteError> {
        write_u2(self.flags, out)?;
        write_u2(self.name, out)?;
        write_u2(self.descriptor, out)?;
        write_list(alloc, &self.attrs, out)
    }
}

/// Writes what stands in front of the interfaces of a class.
fn write_head(alloc: Global, c: &ClassFile, out: &mut Bytes) -> Result<(), WriteError>
    ensures { Writes (IsCounted TextFits c.now.constants) (IsCounted IsKnown c.now.constants)
        (head_bytes c.now) out.old out.new result }
{
    write_u4(MAGIC, out)?;
    write_u2(c.minor, out)?;
    write_u2(c.major, out)?;
    write_list(alloc, &c.constants, out)?;
    write_u2(c.flags, out)?;
    write_u2(c.this_class, out)?;
    Ok(write_u2(c.super_class, out)?)
}

/// Writes all parts of a class.
pub fn write_parts(alloc: Global, c: &ClassFile, out: &mut Bytes) -> Result<(), WriteError>
    ensures { Writes (ClassCountsFit c.now) (IsClassWritten c.now) (class_file c.now) out.old
        out.new result }
{
    write_head(alloc, c, out)?;
    write_list(alloc, &c.interfaces, out)?;
    write_list(alloc, &c.fields, out)?;
    write_list(alloc, &c.methods, out)?;
    write_list(alloc, &c.attrs, out)
}
