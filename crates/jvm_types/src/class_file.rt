//! A class file as data: the structures of the class-file chapter (JVMS 4).

use lists::{Bytes, Rows};

/// The first four bytes of a class file.
pub const MAGIC: u32 = 0xCAFE_BABE;

/// A byte of a text is below this one, and not 0 (JVMS 4.4.7).
pub const TEXT_BYTES_END: u8 = 0xF0;

/// An entry of the constant pool (JVMS 4.4). Each `u16` here is an index of the pool.
#[derive(Debug, PartialEq, Drop)]
pub enum Constant {
    /// Index 0, and the second index of a `Long` or `Double`: no entry stands there.
    Gap,
    Utf8(Bytes),
    Integer(i32),
    /// The four bytes as a number.
    Float(u32),
    /// The eight bytes as a number.
    Long(u64),
    /// The eight bytes as a number.
    Double(u64),
    Class(u16),
    /// A `CONSTANT_String`.
    Text(u16),
    /// Class, then name and type.
    Field(u16, u16),
    /// Class, then name and type.
    Method(u16, u16),
    /// Class, then name and type.
    InterfaceMethod(u16, u16),
    /// Name, then descriptor.
    NameAndType(u16, u16),
}

/// An attribute that is kept unread (JVMS 4.7).
#[derive(Debug, Drop)]
pub struct Attr {
    pub name: u16,
    pub body: Bytes,
}

/// A row of an exception table (JVMS 4.7.3).
#[derive(Clone, Copy, Debug, PartialEq, Eq)]
pub struct Handler {
    pub start: u16,
    pub end: u16,
    pub handler: u16,
    pub catch_type: u16,
}

/// A `Code` attribute (JVMS 4.7.3).
#[derive(Debug, Drop)]
pub struct Code {
    pub max_stack: u16,
    pub max_locals: u16,
    pub bytes: Bytes,
    pub rows: Rows<Handler>,
    pub attrs: Rows<Attr>,
    /// The index of the attribute's name.
    pub name: u16,
}

/// An attribute of a field or a method.
#[derive(Debug, Drop)]
pub enum MemberAttr {
    Code(Code),
    ConstantValue { name: u16, constant: u16 },
    Other(Attr),
}

/// A field or a method (JVMS 4.5, 4.6).
#[derive(Debug, Drop)]
pub struct Member {
    pub flags: u16,
    pub name: u16,
    pub descriptor: u16,
    pub attrs: Rows<MemberAttr>,
}

/// A class file (JVMS 4.1). `constants` has an entry for each index, the gaps included.
#[derive(Debug, Drop)]
pub struct ClassFile {
    pub minor: u16,
    pub major: u16,
    pub constants: Rows<Constant>,
    pub flags: u16,
    pub this_class: u16,
    pub super_class: u16,
    pub interfaces: Rows<u16>,
    pub fields: Rows<Member>,
    pub methods: Rows<Member>,
    pub attrs: Rows<Attr>,
}
