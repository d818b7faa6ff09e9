//! The linked program: names are resolved to numbers, and each place of the fixed words is known.
//!
//! Classes are given by numbers: 1 `Object`, 2 `int[]`, 3 `PrintStream`, 4 to 15 the throwables in
//! the order of `Thrown`, 16 a class itself, and 17 and up the classes of the files in order.

use crate::code::Insn;
use lists::{Bytes, Rows};

/// The type of a field, an argument or a result.
#[derive(Clone, Copy, Debug, PartialEq, Eq)]
pub enum Kind {
    Int,
    Bool,
    /// A reference to an object of this class or of one below it, or null.
    Ref(u16),
}

/// A field of a class of the program.
#[derive(Clone, Copy, Debug, PartialEq, Eq)]
pub struct FieldInfo {
    pub class: u16,
    pub flags: u16,
    pub kind: Kind,
    /// Of an instance field its place among the fields of its object, of a static field its word.
    pub index: u32,
    /// What a static field starts with.
    pub start: i32,
}

/// What the constant of an instruction names.
#[derive(Clone, Copy, Debug, PartialEq, Eq)]
pub enum Target {
    /// The instruction has no constant.
    Nothing,
    Value(i32),
    Class(u16),
    /// A field of the program, by its number.
    Field(u32),
    /// A method of the program, by its number.
    Method(u32),
    /// The `<init>` of this class, `Object` or a throwable.
    Init(u16),
    /// `java/lang/System.out`.
    Out,
    Println,
    Wait,
    Notify,
    NotifyAll,
}

/// A row of an exception table, with its catch type resolved; a `catch_class` of 0 catches all.
#[derive(Clone, Copy, Debug, PartialEq, Eq)]
pub struct Row {
    pub start: u32,
    pub end: u32,
    pub handler: u32,
    pub catch_class: u16,
}

/// A method of a class of the program. `args` is without the receiver, and `targets` has one entry
/// for each instruction.
#[derive(Debug, Drop)]
pub struct MethodInfo {
    pub class: u16,
    pub flags: u16,
    pub name: Bytes,
    pub descriptor: Bytes,
    pub args: Rows<Kind>,
    pub result: Option<Kind>,
    pub max_stack: u16,
    pub max_locals: u16,
    pub code: Rows<Insn>,
    pub targets: Rows<Target>,
    pub rows: Rows<Row>,
}

/// The linked program. `names` has the name of each class of the files in order.
#[derive(Debug, Drop)]
pub struct Program {
    pub names: Rows<Bytes>,
    pub fields: Rows<FieldInfo>,
    pub methods: Rows<MethodInfo>,
    /// The number of heap words.
    pub heap: u32,
    /// The number of worker threads.
    pub workers: u8,
}
