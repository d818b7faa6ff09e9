//! What to write in the place of an instruction that this machine does not have, by its opcode.

ghost use Rattle.std.specs.Prelude.{◌≡◌};
ghost use Rattle.refusal_places.specs.OpcodeMends.{is_element_code, is_object_code, is_wide_code};
ghost use Rattle.refusal_places.specs.OpcodeMends.{opcode_mend, single_mend};

/// What works on a long, a float or a double.
fn is_wide_code(opcode: u8) -> bool
    ensures { result ≡ is_wide_code opcode }
{
    match opcode {
        0x09..=0x0f | 0x14 => true,
        0x16..=0x18 | 0x1e..=0x29 => true,
        0x37..=0x39 | 0x3f..=0x4a => true,
        0x5d..=0x5e => true,
        0x61..=0x63 | 0x65..=0x67 | 0x69..=0x6b => true,
        0x6d..=0x6f | 0x71..=0x73 | 0x75..=0x77 => true,
        0x79 | 0x7b | 0x7d | 0x7f | 0x81 | 0x83 => true,
        0x85..=0x90 | 0x94..=0x98 | 0xad..=0xaf => true,
        _ => false,
    }
}

/// What moves an element of an array of other numbers.
fn is_element_code(opcode: u8) -> bool
    ensures { result ≡ is_element_code opcode }
{
    matches!(opcode, 0x2f..=0x31 | 0x33..=0x35 | 0x50..=0x52 | 0x54..=0x56)
}

/// What moves an element of an array of objects or of arrays, or makes such an array.
fn is_object_code(opcode: u8) -> bool
    ensures { result ≡ is_object_code opcode }
{
    matches!(opcode, 0x32 | 0x53 | 0xbd | 0xc5)
}

const WIDE_MEND: &str = "an int for a long, a float or a double; wait() for wait(10)";

const ELEMENT_MEND: &str = "an int[] for another array of numbers; 0 and 1 in it for a boolean[]";

const OBJECT_MEND: &str =
    "objects with a field next for an array of objects; one int[], with row * width + column, for an array of arrays";

/// The mend of single opcodes, or of what no class has that is compiled today.
fn single_mend(opcode: u8) -> &'static str
    ensures { result.now ≡ single_mend opcode }
{
    match opcode {
        0xb9 => "the class itself as the type, and no interface",
        0xba => "a class with a method for a lambda",
        0xbc => ELEMENT_MEND,
        0xc0 => {
            "a class for each type for a cast or a type parameter; a loop for clone(); static final int constants for an enum"
        }
        0xc1 => "a field that says the kind",
        0xc4 => "x = x + 1000 for x += 1000; 256 locals at most",
        _ => "the class, compiled again",
    }
}

/// What to write in the place of an instruction that is refused by its opcode.
#[tactic(auto, unfolding(crate::specs::OpcodeMends::opcode_mend))]
pub fn opcode_mend(opcode: u8) -> &'static str
    ensures { result.now ≡ opcode_mend opcode }
{
    if is_wide_code(opcode) {
        WIDE_MEND
    } else if is_element_code(opcode) {
        ELEMENT_MEND
    } else if is_object_code(opcode) {
        OBJECT_MEND
    } else {
        single_mend(opcode)
    }
}
