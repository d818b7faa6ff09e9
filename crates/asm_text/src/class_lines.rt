//! The lines of a class.

ghost use Rattle.std.specs.Prelude.{◌≡◌, ◌++◌, ◌∷◌, [], ℕ, List, map, codes, drop, IfOk, OnOk};
ghost use Rattle.std.specs.Prelude.{string_bytes};
ghost use Rattle.std.specs.List.{flat_map};
ghost use Rattle.jvm_types.specs.ClassGrammar.{IsClass};
ghost use Rattle.asm_text.specs.Lines.{line_text, text_of};
ghost use Rattle.asm_text.specs.ClassLines.{attr_line, class_lines, code_attr_lines, code_line};
ghost use Rattle.asm_text.specs.ClassLines.{constant_line, end_line, file_line, head_line};
ghost use Rattle.asm_text.specs.ClassLines.{interface_line, Lists, member_attr_lines};
ghost use Rattle.asm_text.specs.ClassLines.{member_line, member_lines, row_line};

use crate::code_lines::write_code;
use crate::lines::{write_hex, write_one, write_three, write_two};
use crate::pool_lines::write_constants;
use jvm_types::{Attr, Bytes, ClassFile, Code, Constant, Handler, Member, MemberAttr};
use std::alloc::{AllocError, Global};

pub fn write_attr(text: &mut String, attr: &Attr) -> Result<(), AllocError>
    ensures { OnOk result
        (string_bytes text.new ≡ string_bytes text.old ++ line_text (attr_line attr.now)) }
{
    let name = attr.name;
    write!(text, "attr {name}")?;
    write_hex(text, attr.body.as_slice())?;
    text.push_str("\n")
}

fn write_attrs(text: &mut String, attrs: &[Attr]) -> Result<(), AllocError>
    ensures { OnOk result
        (string_bytes text.new ≡ string_bytes text.old ++ text_of (map attr_line attrs.now)) }
{
    for attr in attrs {
        write_attr(text, attr)?;
    }
    Ok(())
}

fn write_rows(text: &mut String, rows: &[Handler]) -> Result<(), AllocError>
    ensures { OnOk result
        (string_bytes text.new ≡ string_bytes text.old ++ text_of (map row_line rows.now)) }
{
    for row in rows {
        write_row(text, *row)?;
    }
    Ok(())
}

pub fn write_row(text: &mut String, row: Handler) -> Result<(), AllocError>
    ensures { OnOk result
        (string_bytes text.new ≡ string_bytes text.old ++ line_text (row_line row)) }
{
    let Handler {
        start,
        end,
        handler,
        catch_type,
    } = row;
    writeln!(text, "row {start} {end} {handler} {catch_type}")
}

fn write_code_attr(text: &mut String, alloc: Global, code: &Code) -> Result<(), AllocError>
    ensures { OnOk result
        (string_bytes text.new ≡ string_bytes text.old ++ text_of (code_attr_lines code.now)) }
{
    let name = code.name;
    let stack = code.max_stack;
    let locals = code.max_locals;
    write_three(text, "code", name, stack, locals)?;
    write_code(text, alloc, &code.bytes)?;
    write_rows(text, code.rows.as_slice())?;
    write_attrs(text, code.attrs.as_slice())?;
    text.push_str("end\n")
}

fn write_member_attr(text: &mut String, alloc: Global, attr: &MemberAttr) -> Result<(), AllocError>
    ensures { OnOk result
        (string_bytes text.new ≡ string_bytes text.old ++ text_of (member_attr_lines attr.now)) }
{
    match attr {
        MemberAttr::Code(code) => write_code_attr(text, alloc, code),
        MemberAttr::ConstantValue { name, constant } => write_two(text, "value", *name, *constant),
        MemberAttr::Other(attr) => write_attr(text, attr),
    }
}

fn write_member_attrs(
    text: &mut String,
    alloc: Global,
    attrs: &[MemberAttr],
) -> Result<(), AllocError>
    ensures { OnOk result (string_bytes text.new
        ≡ string_bytes text.old ++ text_of (flat_map member_attr_lines attrs.now)) }
{
    for attr in attrs {
        write_member_attr(text, alloc, attr)?;
    }
    Ok(())
}

/// The lines of a field or a method, the first of which begins with this word.
fn write_member(
    text: &mut String,
    alloc: Global,
    kind: &str,
    member: &Member,
) -> Result<(), AllocError>
    ensures { OnOk result (string_bytes text.new
        ≡ string_bytes text.old ++ text_of (member_lines kind.now member.now)) }
{
    let flags = member.flags;
    let name = member.name;
    let descriptor = member.descriptor;
    write_three(text, kind, flags, name, descriptor)?;
    write_member_attrs(text, alloc, member.attrs.as_slice())?;
    text.push_str("end\n")
}

fn write_members(
    text: &mut String,
    alloc: Global,
    kind: &str,
    members: &[Member],
) -> Result<(), AllocError>
    ensures { OnOk result (string_bytes text.new
        ≡ string_bytes text.old ++ text_of (flat_map (member_lines kind.now) members.now)) }
{
    for member in members {
        write_member(text, alloc, kind, member)?;
    }
    Ok(())
}

fn write_interfaces(text: &mut String, interfaces: &[u16]) -> Result<(), AllocError>
    ensures { OnOk result (string_bytes text.new
        ≡ string_bytes text.old ++ text_of (map interface_line interfaces.now)) }
{
    for interface in interfaces {
        write_one(text, "interface", u64::from(*interface))?;
    }
    Ok(())
}

/// The first line, by the numbers that it has.
pub fn write_head(
    text: &mut String,
    minor: u16,
    major: u16,
    flags: u16,
    class: u16,
    superclass: u16,
) -> Result<(), AllocError>
    ensures { OnOk result (string_bytes text.new ≡ string_bytes text.old
        ++ line_text (head_line minor major flags class superclass)) }
{
    writeln!(text, "file {minor} {major} {flags} {class} {superclass}")
}

fn write_class(text: &mut String, alloc: Global, c: &ClassFile) -> Result<(), AllocError>
    ensures { OnOk result
        (string_bytes text.new ≡ string_bytes text.old ++ text_of (class_lines c.now)) }
{
    write_head(text, c.minor, c.major, c.flags, c.this_class, c.super_class)?;
    write_entries(text, c.constants.as_slice())?;
    write_interfaces(text, c.interfaces.as_slice())?;
    write_members(text, alloc, "fmember", c.fields.as_slice())?;
    write_members(text, alloc, "mmember", c.methods.as_slice())?;
    write_attrs(text, c.attrs.as_slice())
}

/// The constants from index 1 on.
fn write_entries(text: &mut String, constants: &[Constant]) -> Result<(), AllocError>
    ensures { OnOk result (string_bytes text.new
        ≡ string_bytes text.old ++ text_of (map constant_line (drop 1 constants.now))) }
{
    match constants.split_first() {
        Some((_, entries)) => write_constants(text, entries),
        None => Ok(()),
    }
}

/// The listing of a class that some bytes spell (JVMS 4): a text of lines, each ended by a newline,
/// with one for each part of the class, in the order of the class file, and one for each
/// instruction of its methods (JVMS 6.5).
pub fn listing(alloc: Global, c: &ClassFile) -> Result<Bytes, AllocError>
    requires { IsClass c.now }
    ensures { IfOk result (λ text. Lists text c.now) }
{
    let mut text = String::new(alloc);
    write_class(&mut text, alloc, c)?;
    Bytes::from_slice(alloc, text.as_bytes())
}
