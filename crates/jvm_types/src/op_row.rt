//! Rows of the table of instructions: what an instruction takes, leaves, reads and writes (JVMS
//! 6.5).

use crate::typing::VType;
use lists::Rows;

/// What is asked of a value that is taken or read. Classes are given by their numbers.
#[derive(Clone, Copy, Debug, PartialEq, Eq)]
pub enum Want {
    /// Any one value.
    AnyValue,
    AnInt,
    /// null, or a reference to an initialised object of the class or below it.
    AnObject(u16),
    /// A reference of any kind, initialised or not.
    AnyReference,
    /// The receiver of a store to a field of the class: besides an object of it, where it is the
    /// own class, `this` before it is initialised.
    AHolder(u16),
    /// The receiver of an `<init>` of the class: an object that is not initialised yet.
    ToStart(u16),
}

/// A value that is pushed, or written to a local.
#[derive(Clone, Copy, Debug, PartialEq, Eq)]
pub enum Given {
    /// A value of its own, of this type.
    Fresh(VType),
    /// The value that was taken at this place, counted from the top.
    Taken(u8),
    /// The value of this local.
    Local(u16),
}

/// What an instruction takes from the stack and leaves there, each with the top first, and the
/// local that it reads or writes, with what is asked of it or written to it.
#[derive(Debug, Drop)]
pub struct OpRow {
    pub takes: Rows<Want>,
    pub gives: Rows<Given>,
    pub reads: Option<(u16, Want)>,
    pub writes: Option<(u16, Given)>,
}
