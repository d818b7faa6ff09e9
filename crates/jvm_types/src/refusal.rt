//! The rules by which files are refused, and the place that a refusal names.

ghost use Rattle.std.specs.Prelude.{◌≡◌};
ghost use Rattle.jvm_types.specs.LinkFaults.{in_file, in_method};

/// Reading a class file.
#[derive(Clone, Copy, Debug, PartialEq, Eq)]
pub enum CRule {
    /// The first four bytes are not 0xCAFEBABE: at 0.
    C1,
    /// The major version is below 45 or above 50: at 6.
    C2,
    /// An item is cut: at where it begins.
    C3,
    /// The tag of a constant is not 1 or 3 to 12: at the tag.
    C4,
    /// An index is out of range, or names an entry of another kind: at the index. Or a `Long` or a
    /// `Double` has the last index: at its tag.
    C5,
    /// A byte of a text is 0 or from 0xF0 on: at the byte.
    C6,
    /// The length of a `Code` or a `ConstantValue` disagrees with its parts: at the length.
    C7,
    /// Bytes stand behind the last attribute: at the first of them.
    C8,
    /// A method has not exactly one `Code`, or is NATIVE or ABSTRACT: at its flags.
    C9,
    /// The file is longer than 1,048,576 bytes: at 1,048,576.
    C10,
}

/// Decoding the code of a method.
#[derive(Clone, Copy, Debug, PartialEq, Eq)]
pub enum KRule {
    /// An opcode is not in the table, or `newarray` is of another type than int: at its pc.
    K1,
    /// An operand is cut by the end of the code: at the pc of its instruction.
    K2,
    /// A branch or switch leads to no start of an instruction: at the pc of the branch.
    K3,
    /// A handler row is empty, its start or handler is no start of an instruction, or its end is
    /// neither such a start nor the end of the code: at the number of the row.
    K4,
    /// The code has no byte, or more than 65,535: at 0.
    K5,
    /// A `tableswitch` has low above high, or a `lookupswitch` a negative number of pairs or keys
    /// that do not ascend: at its pc.
    K6,
}

/// Linking the files.
#[derive(Clone, Copy, Debug, PartialEq, Eq)]
pub enum LRule {
    /// A class that is not there, or a type or constant that this machine does not have: of a field
    /// at its number in its class, of a method at 0, of an instruction at its pc, of a handler row
    /// at its start.
    L1,
    /// No such member, or a constant or member that does not fit the instruction: at its pc.
    L2,
    /// A private member of another class: at the pc of the instruction.
    L3,
    /// A `<clinit>` that is not static or has not `()V`; an `init`, `run` or `done` of the first
    /// class that is not static; or no `run` where there are workers: in file 0, at 0.
    L4,
    /// A class with the name of an earlier or a built-in one: at 0. A member with the name and
    /// descriptor of an earlier one: of a field at its number in its class, of a method at 0.
    L5,
    /// A superclass other than `Object`, an interface, or an INTERFACE or ABSTRACT class: at 0.
    L6,
    /// A final field is written where it may not be: at the pc of the instruction.
    L7,
    /// The fixed words are more than the heap: in file 0, at 0.
    L8,
    /// A static method is synchronized: at 0.
    L9,
}

/// Verifying a method.
#[derive(Clone, Copy, Debug, PartialEq, Eq)]
pub enum VRule {
    /// The stack has too few values: at the pc.
    V1,
    /// The stack would pass `max_stack`: at the pc.
    V2,
    /// A local at or above `max_locals`, or arguments that do not fit there: at the pc.
    V3,
    /// A value of another type: at the pc. A catch type that is no throwable: at the handler's pc.
    V4,
    /// Two edges with different depths of stack: at the pc where they meet.
    V5,
    /// The code falls off its end: at the pc.
    V6,
    /// An uninitialised object is misused: at the pc.
    V7,
    /// A return instruction does not fit the descriptor: at the pc.
    V8,
}

/// Tagging the monitors of a method.
#[derive(Clone, Copy, Debug, PartialEq, Eq)]
pub enum SRule {
    /// A `monitorenter` on a value without a tag: at its pc.
    S1,
    /// A `monitorexit` on a value that is not the innermost held one: at its pc.
    S2,
    /// Two edges with different lists of what is held: at the pc where they meet.
    S3,
    /// A return, or an instruction that can throw with no handler for all, while something is held:
    /// at its pc.
    S4,
}

/// Assembling a class from its listing.
#[derive(Clone, Copy, Debug, PartialEq, Eq)]
pub enum ARule {
    /// A line without a form at its place, or with a number outside its field: at the number of the
    /// line, counted from 1. A text that stops too early: at the number of its lines plus 1.
    A1,
    /// Lines that have their forms, where no class is listed so: at 0.
    A2,
}

/// The rule that a refusal names.
#[derive(Clone, Copy, Debug, PartialEq, Eq)]
pub enum Rule {
    C(CRule),
    K(KRule),
    L(LRule),
    V(VRule),
    S(SRule),
    A(ARule),
}

/// The method of a place that is in no method.
pub const NO_METHOD: u16 = 65535;

/// Where a refusal is: the file and the method, both counted from 0, and an offset, pc or row as
/// the rule has it.
#[derive(Clone, Copy, Debug, PartialEq, Eq)]
pub struct Place {
    pub file: u16,
    /// The method in its class, or `NO_METHOD`.
    pub method: u16,
    pub at: u32,
}

/// A place in a file, in none of its methods.
pub fn in_file(file: u16, at: u32) -> Place
    ensures { result ≡ in_file file at }
{
    Place {
        file,
        method: NO_METHOD,
        at,
    }
}

/// A place in a method of a file, by its number in its class.
pub fn in_method(file: u16, method: u16, at: u32) -> Place
    ensures { result ≡ in_method file method at }
{
    Place { file, method, at }
}
