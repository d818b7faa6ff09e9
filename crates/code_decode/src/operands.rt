//! What is found at an opcode: the instruction, or why there is none.

ghost use Rattle.std.specs.Prelude.{◌≡◌, [], ◌∷◌, Ok};
ghost use Rattle.code_decode.specs.Decoding.{IsSized};

use jvm_types::{KRule, Op, Rows};
use std::alloc::{AllocError, Global};

/// Why an instruction was not decoded.
#[derive(Clone, Copy, Debug, PartialEq, Eq)]
pub enum Stop {
    /// Memory ran out.
    Memory,
    /// The rule that it breaks.
    Rule(KRule),
}

impl From<AllocError> for Stop {
    ghost use Rattle.std.specs.Prelude.{◌≡◌};
    ghost use Rattle.code_decode.specs.declared.operands.Stop.TheVariants.{Memory};

    ghost from_gives = { λ _ e. e ≡ Memory };

    fn from(_error: AllocError) -> Stop {
        Stop::Memory
    }
}

/// An instruction, and where its branches lead.
#[derive(Debug, Drop)]
pub struct Found {
    pub op: Op,
    /// How many bytes its operands have.
    pub size: usize,
    /// The pcs that its branches lead to, which may lie outside the code.
    pub targets: Rows<i64>,
}

/// An instruction without operands.
pub fn plain(alloc: Global, op: Op) -> Result<Found, Stop>
    ensures { result ≡ Ok (record { op = op; size = 0; targets = [] }) }
{
    Ok(Found {
        op,
        size: 0,
        targets: Rows::new(alloc),
    })
}

/// An instruction with operands of `size` bytes that leads nowhere.
pub fn sized(alloc: Global, op: Op, size: usize) -> Result<Found, Stop>
    ensures { result ≡ Ok (record { op = op; size = size; targets = [] }) }
{
    Ok(Found {
        op,
        size,
        targets: Rows::new(alloc),
    })
}

/// A branch with an offset of `size` bytes.
pub fn branch(alloc: Global, op: Op, size: usize, to: i64) -> Result<Found, Stop>
    ensures { IsSized op size (to ∷ []) result }
{
    let mut targets = Rows::new(alloc);
    targets.push(to)?;
    Ok(Found { op, size, targets })
}
