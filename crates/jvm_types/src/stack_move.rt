//! The instructions that move values of the operand stack, and do nothing else (JVMS 2.11.5).

ghost use Rattle.std.specs.Prelude.{◌≡◌, map};
ghost use Rattle.std.specs.Option.{option_map};
ghost use Rattle.jvm_types.specs.CodeTable.{any_values, first_row, move_gives, move_opcode};
ghost use Rattle.jvm_types.specs.CodeTable.{move_takes, plain_op, stack_moves};
ghost use Rattle.jvm_types.specs.declared.code.Op.TheVariants.{Stack};
ghost use Rattle.jvm_types.specs.declared.op_row.Given.TheVariants.{Taken};

use crate::op_row::{Given, Want};

const ANY: Want = Want::AnyValue;

const TOP: Given = Given::Taken(0);

const SECOND: Given = Given::Taken(1);

const THIRD: Given = Given::Taken(2);

/// A move of values of the stack: it takes values of any type, and pushes some of them again, each
/// once or twice. Each value takes one place.
#[derive(Clone, Copy, Debug, PartialEq, Eq)]
pub enum StackMove {
    Pop,
    Pop2,
    Dup,
    DupX1,
    DupX2,
    Dup2,
    Swap,
}

impl StackMove {
    /// The move of an opcode, or `None` where the opcode is that of none.
    pub fn of_opcode(opcode: u8) -> Option<StackMove>
        ensures { option_map Stack result ≡ plain_op (first_row (stack_moves opcode)) }
    {
        match opcode {
            0x57 => Some(StackMove::Pop),
            0x58 => Some(StackMove::Pop2),
            0x59 => Some(StackMove::Dup),
            0x5a => Some(StackMove::DupX1),
            0x5b => Some(StackMove::DupX2),
            0x5c => Some(StackMove::Dup2),
            0x5f => Some(StackMove::Swap),
            _ => None,
        }
    }

    /// The opcode.
    pub fn opcode(self) -> u8
        ensures { result ≡ move_opcode self }
    {
        match self {
            StackMove::Pop => 0x57,
            StackMove::Pop2 => 0x58,
            StackMove::Dup => 0x59,
            StackMove::DupX1 => 0x5a,
            StackMove::DupX2 => 0x5b,
            StackMove::Dup2 => 0x5c,
            StackMove::Swap => 0x5f,
        }
    }

    /// How many values it takes.
    #[inline(always)]
    pub fn count(self) -> usize
        ensures { result ≡ move_takes self }
    {
        match self {
            StackMove::Pop | StackMove::Dup => 1,
            StackMove::Pop2 | StackMove::DupX1 | StackMove::Dup2 | StackMove::Swap => 2,
            StackMove::DupX2 => 3,
        }
    }

    /// What is asked of the values that it takes.
    pub fn takes(self) -> &'static [Want]
        ensures { result.now ≡ any_values (move_takes self) }
    {
        match self {
            StackMove::Pop | StackMove::Dup => &[ANY],
            StackMove::Pop2 | StackMove::DupX1 | StackMove::Dup2 | StackMove::Swap => &[ANY, ANY],
            StackMove::DupX2 => &[ANY, ANY, ANY],
        }
    }

    /// The values that it pushes, the top first.
    pub fn gives(self) -> &'static [Given]
        ensures { result.now ≡ map Taken (move_gives self) }
    {
        match self {
            StackMove::Pop | StackMove::Pop2 => &[],
            StackMove::Dup => &[TOP, TOP],
            StackMove::DupX1 => &[TOP, SECOND, TOP],
            StackMove::DupX2 => &[TOP, SECOND, THIRD, TOP],
            StackMove::Dup2 => &[TOP, SECOND, TOP, SECOND],
            StackMove::Swap => &[SECOND, TOP],
        }
    }
}
