//! Synchronized sections, and which of them may run without their lock.

use jvm_types::Rows;

/// Where a section begins: with its method, or at the `monitorenter` of this pc.
#[derive(Clone, Copy, Debug, PartialEq, Eq)]
pub enum Spot {
    Method,
    Block(u32),
}

/// The mark of one section: 0 where it may run without its lock, else the number of the first rule
/// that forbids that.
#[derive(Clone, Copy, Debug, PartialEq, Eq)]
pub struct SectionMark {
    /// The number of the method in its program.
    pub method: u32,
    pub spot: Spot,
    pub mark: u8,
}

/// How a section runs a method, its own among them.
#[derive(Clone, Copy, Debug, PartialEq, Eq)]
pub enum Mode {
    /// A section on `this`: on the object of its monitor all the way.
    OnThis,
    /// A section on `this`: on some object.
    OffThis,
    /// A section on the class of this number.
    OnClass(u16),
}

/// How a field may be read by a section that runs without its lock.
#[derive(Clone, Copy, Debug, PartialEq, Eq)]
pub enum FieldUse {
    /// Of every object, or of every class: it is final, and not written after its object or its
    /// class was made.
    Frozen,
    /// Of the section's own object or class: it is written under that monitor alone, or while the
    /// object or the class is made.
    Guarded,
    Open,
}

/// What sections that run without their lock may read.
#[derive(Debug, Drop)]
pub struct Uses {
    /// How each field may be read.
    pub fields: Rows<FieldUse>,
    /// Of each field whether the arrays that are stored in it never leave its object.
    pub owners: Rows<bool>,
    /// For each method, of each instruction: whether it reads an element of an array that `this`
    /// owns.
    pub elements: Rows<Rows<bool>>,
}
