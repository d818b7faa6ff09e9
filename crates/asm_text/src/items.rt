//! What the lines of a listing say, one by one.

use jvm_types::{Attr, Bytes, Constant, Handler, Rows};

/// The kinds of members.
#[derive(Clone, Copy, Debug, PartialEq, Eq)]
pub enum MemberKind {
    Field,
    Method,
}

/// What a line of a listing says.
#[derive(Debug, Drop)]
pub enum Item {
    /// The minor and the major version, the flags, and the indices of the class and of its
    /// superclass.
    FileHead(u16, u16, u16, u16, u16),
    /// An entry of the constant pool.
    Entry(Constant),
    Interface(u16),
    /// The flags of a field or a method, and the indices of its name and descriptor.
    MemberHead(MemberKind, u16, u16, u16),
    Attribute(Attr),
    /// A `ConstantValue`: the indices of its name and of its constant.
    InitialValue(u16, u16),
    /// The index of the name of a `Code`, its `max_stack` and `max_locals`.
    CodeHead(u16, u16, u16),
    /// A code that no instructions spell.
    CodeBytes(Bytes),
    /// The opcode of an instruction, and its operands.
    Instruction(u8, Rows<i64>),
    Row(Handler),
    /// The end of a member, or of a code.
    End,
}
