//! Classes that are built and written, and one that a Java compiler wrote, which is read and
//! written back.

use class_reader::read_class;
use class_writer::{BuildError, Builder, WriteError, new_builder, write_class};
use jvm_types::{Attr, Bytes, ClassFile, Code, Constant, Handler, Member, MemberAttr, Rows};
use std::alloc::{AllocError, Global};
use std::test::*;
use test_classes::{bytes_of, kinds, pair, tally};

fn add(builder: &mut Builder, constant: Constant) -> Result<u16, BuildError> {
    let len = builder.parts.constants.len();
    if len < 1 || 65_535 < len {
        return Err(BuildError::Full);
    }
    builder.constant(constant)
}

fn add_text(alloc: Global, builder: &mut Builder, text: &[u8]) -> Result<u16, BuildError> {
    let text = Bytes::from_slice(alloc, text)?;
    add(builder, Constant::Utf8(text))
}

/// Adds each text.
fn add_texts(alloc: Global, builder: &mut Builder, texts: &[&[u8]]) -> Result<(), BuildError> {
    for text in texts {
        add_text(alloc, builder, text)?;
    }
    Ok(())
}

/// The constants 1 to 10.
fn add_values(alloc: Global, builder: &mut Builder) -> Result<(), BuildError> {
    add_text(alloc, builder, b"A")?;
    add(builder, Constant::Class(1))?;
    add_texts(alloc, builder, &[b"ConstantValue", b"Code"])?;
    add(builder, Constant::Integer(-2))?;
    add(builder, Constant::Float(0x3F80_0000))?;
    add(builder, Constant::Long(0x1_0000_0002))?;
    add(builder, Constant::Double(0x3FF0_0000_0000_0000))?;
    Ok(())
}

/// The constants 11 to 20, before which the text at 1 is found again.
fn add_members(alloc: Global, builder: &mut Builder) -> Result<(), BuildError> {
    let text = add_text(alloc, builder, b"A")?;
    add(builder, Constant::Text(text))?;
    add(builder, Constant::NameAndType(text, text))?;
    add(builder, Constant::Field(2, 12))?;
    add(builder, Constant::Method(2, 12))?;
    add(builder, Constant::InterfaceMethod(2, 12))?;
    add_texts(alloc, builder, &[b"B", b"C", b"D", b"E", b"F"])
}

fn only<T: Drop>(alloc: Global, item: T) -> Result<Rows<T>, AllocError> {
    let mut items = Rows::new(alloc);
    items.push(item)?;
    Ok(items)
}

fn attr(alloc: Global, body: &[u8]) -> Result<Attr, AllocError> {
    let body = Bytes::from_slice(alloc, body)?;
    Ok(Attr { name: 18, body })
}

fn field_of_kinds(alloc: Global) -> Result<Member, AllocError> {
    let value = MemberAttr::ConstantValue {
        name: 3,
        constant: 7,
    };
    let mut attrs = only(alloc, value)?;
    attrs.push(MemberAttr::Other(attr(alloc, &[9])?))?;
    Ok(Member {
        flags: 8,
        name: 16,
        descriptor: 17,
        attrs,
    })
}

fn code_of_kinds(alloc: Global) -> Result<Code, AllocError> {
    let row = Handler {
        start: 0,
        end: 1,
        handler: 0,
        catch_type: 2,
    };
    Ok(Code {
        max_stack: 1,
        max_locals: 2,
        bytes: Bytes::from_slice(alloc, &[177])?,
        rows: only(alloc, row)?,
        attrs: only(alloc, attr(alloc, &[7])?)?,
        name: 4,
    })
}

fn method_of_kinds(alloc: Global) -> Result<Member, AllocError> {
    Ok(Member {
        flags: 1,
        name: 19,
        descriptor: 20,
        attrs: only(alloc, MemberAttr::Code(code_of_kinds(alloc)?))?,
    })
}

/// The class with each kind of part, with a pool that a builder makes.
fn built_kinds(alloc: Global) -> Result<ClassFile, BuildError> {
    let mut builder = new_builder(alloc)?;
    add_values(alloc, &mut builder)?;
    add_members(alloc, &mut builder)?;
    Ok(ClassFile {
        minor: 3,
        major: 45,
        flags: 33,
        this_class: 2,
        super_class: 2,
        interfaces: only(alloc, 2)?,
        fields: only(alloc, field_of_kinds(alloc)?)?,
        methods: only(alloc, method_of_kinds(alloc)?)?,
        attrs: only(alloc, attr(alloc, &[])?)?,
        ..builder.parts
    })
}

/// Whether the bytes are read as a class, and written back as they are.
fn is_written_back(alloc: Global, hex: &str) -> Result<bool, Fail> {
    let bytes = bytes_of(alloc, hex)?;
    let class = read_class(alloc, &bytes)?;
    let again = write_class(alloc, &class)?;
    Ok(again.as_slice() == bytes.as_slice())
}

#[test]
fn writes_each_kind_of_part_and_what_was_read(rt: HostRuntime) -> Result<(), Fail> {
    let class = built_kinds(rt.alloc())?;
    let bytes = write_class(rt.alloc(), &class)?;
    assert!(rt; bytes.as_slice() == bytes_of(rt.alloc(), kinds())?.as_slice());
    assert!(rt; is_written_back(rt.alloc(), tally())?);
    assert!(rt; is_written_back(rt.alloc(), pair())?);
    Ok(())
}

/// A pool of so many gaps.
fn gaps(alloc: Global, count: usize) -> Result<Rows<Constant>, AllocError> {
    let mut pool = Rows::new(alloc);
    for _ in 0..count {
        pool.push(Constant::Gap)?;
    }
    Ok(pool)
}

#[test]
fn refuses_what_has_no_spelling(rt: HostRuntime) -> Result<(), Fail> {
    let alloc = rt.alloc();
    let class = ClassFile {
        this_class: 1,
        ..built_kinds(alloc)?
    };
    let refused = write_class(alloc, &class);
    assert!(rt; matches!(refused, Err(WriteError::NoSpelling)));
    let class = ClassFile {
        constants: gaps(alloc, 65_536)?,
        ..class
    };
    let refused = write_class(alloc, &class);
    assert!(rt; matches!(refused, Err(WriteError::TooLarge)));
    Ok(())
}

#[test]
fn fills_a_pool(rt: HostRuntime) -> Result<(), Fail> {
    let alloc = rt.alloc();
    let mut builder = new_builder(alloc)?;
    builder.parts.constants = gaps(alloc, 65_534)?;
    let refused = add(&mut builder, Constant::Double(1));
    assert!(rt; matches!(refused, Err(BuildError::Full)));
    assert_eq!(rt; add_text(alloc, &mut builder, b"A")?, 65_534);
    let refused = add_text(alloc, &mut builder, b"B");
    assert!(rt; matches!(refused, Err(BuildError::Full)));
    assert_eq!(rt; add_text(alloc, &mut builder, b"A")?, 65_534);
    Ok(())
}
