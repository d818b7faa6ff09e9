/// What an index of the constant pool is to name.
#[derive(Clone, Copy, Debug, PartialEq, Eq)]
pub enum IndexKind {
    /// A `CONSTANT_Utf8`.
    Utf8,
    /// A `CONSTANT_Class`.
    Class,
    /// A `CONSTANT_NameAndType`.
    NameAndType,
    /// A constant that a field can start with (JVMS 4.7.2).
    Value,
    /// A `CONSTANT_Class`, or 0 for a handler of every exception (JVMS 4.7.3).
    CatchType,
}
