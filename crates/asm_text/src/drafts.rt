//! The class that lines say, line by line.

ghost use Rattle.std.specs.Prelude.{◌≡◌, IfOk, OnOk};
ghost use Rattle.asm_text.specs.Drafting.{line_added, attr_added, started_code, draft_ended};
ghost use Rattle.asm_text.specs.Drafting.{member_of, new_draft, no_class, with_member};

use crate::encoding::encode;
use crate::items::{Item, MemberKind};
use crate::places::ListingPlace;
use jvm_types::{Attr, Bytes, ClassFile, Code, Constant, Member, MemberAttr, Rows};
use std::alloc::{AllocError, Global};
use std::mem::replace;

/// A class whose lines are being read: its parts so far, and the member and the code that have no
/// `end` yet.
#[derive(Debug, Drop)]
pub struct Draft {
    pub class: ClassFile,
    pub member: Member,
    pub code: Code,
}

fn member_of(alloc: Global, flags: u16, name: u16, descriptor: u16) -> Member
    ensures { result ≡ member_of flags name descriptor }
{
    Member {
        flags,
        name,
        descriptor,
        attrs: Rows::new(alloc),
    }
}

fn code_of(alloc: Global, name: u16, max_stack: u16, max_locals: u16) -> Code
    ensures { result ≡ started_code name max_stack max_locals }
{
    Code {
        max_stack,
        max_locals,
        bytes: Bytes::new(alloc),
        rows: Rows::new(alloc),
        attrs: Rows::new(alloc),
        name,
    }
}

fn no_class(alloc: Global) -> Result<ClassFile, AllocError>
    ensures { IfOk result (λ c. c ≡ no_class) }
{
    let mut constants = Rows::new(alloc);
    constants.push(Constant::Gap)?;
    Ok(ClassFile {
        minor: 0,
        major: 0,
        constants,
        flags: 0,
        this_class: 0,
        super_class: 0,
        interfaces: Rows::new(alloc),
        fields: Rows::new(alloc),
        methods: Rows::new(alloc),
        attrs: Rows::new(alloc),
    })
}

/// No line was read.
pub fn new_draft(alloc: Global) -> Result<Draft, AllocError>
    ensures { IfOk result (λ d. d ≡ new_draft) }
{
    let class = no_class(alloc)?;
    Ok(Draft {
        class,
        member: member_of(alloc, 0, 0, 0),
        code: code_of(alloc, 0, 0, 0),
    })
}

fn add_attr(d: &mut Draft, place: ListingPlace, attr: Attr) -> Result<(), AllocError>
    ensures { OnOk result (d.new ≡ attr_added place d.old attr) }
{
    match place {
        ListingPlace::Code(_, _) => d.code.attrs.push(attr),
        ListingPlace::Member(_) => d.member.attrs.push(MemberAttr::Other(attr)),
        _ => d.class.attrs.push(attr),
    }
}

fn add_member(c: &mut ClassFile, kind: MemberKind, member: Member) -> Result<(), AllocError>
    ensures { OnOk result (c.new ≡ with_member kind c.old member) }
{
    match kind {
        MemberKind::Field => c.fields.push(member),
        MemberKind::Method => c.methods.push(member),
    }
}

fn end(d: &mut Draft, alloc: Global, place: ListingPlace) -> Result<(), AllocError>
    ensures { OnOk result (d.new ≡ draft_ended place d.old) }
{
    match place {
        ListingPlace::Code(_, _) => {
            let code = replace(&mut d.code, code_of(alloc, 0, 0, 0));
            d.member.attrs.push(MemberAttr::Code(code))
        }
        ListingPlace::Member(kind) => {
            let member = replace(&mut d.member, member_of(alloc, 0, 0, 0));
            add_member(&mut d.class, kind, member)
        }
        _ => Ok(()),
    }
}

/// Adds a line at its place.
pub fn add(d: &mut Draft, alloc: Global, place: ListingPlace, item: Item) -> Result<(), AllocError>
    ensures { OnOk result (d.new ≡ line_added place d.old item) }
{
    match item {
        Item::FileHead(minor, major, flags, this_class, super_class) => {
            d.class.minor = minor;
            d.class.major = major;
            d.class.flags = flags;
            d.class.this_class = this_class;
            d.class.super_class = super_class;
            Ok(())
        }
        Item::Entry(constant) => d.class.constants.push(constant),
        Item::Interface(class) => d.class.interfaces.push(class),
        Item::MemberHead(_, flags, name, descriptor) => {
            d.member = member_of(alloc, flags, name, descriptor);
            Ok(())
        }
        Item::Attribute(attr) => add_attr(d, place, attr),
        Item::InitialValue(name, constant) => d
            .member
            .attrs
            .push(MemberAttr::ConstantValue { name, constant }),
        Item::CodeHead(name, stack, locals) => {
            d.code = code_of(alloc, name, stack, locals);
            Ok(())
        }
        Item::CodeBytes(bytes) => d.code.bytes.extend_from_slice(bytes.as_slice()),
        Item::Instruction(opcode, operands) => {
            encode(&mut d.code.bytes, opcode, operands.as_slice())
        }
        Item::Row(row) => d.code.rows.push(row),
        Item::End => end(d, alloc, place),
    }
}
