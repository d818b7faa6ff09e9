//! One pass over the code by pc, which finds its instructions, or the first K1, K2 or K6.

ghost use Rattle.std.specs.Prelude.{◌≡◌, [], ◌∷◌, ◌++◌, ◌+◌, ◌<◌, ◌≤◌, length, drop, OnOk};
ghost use Rattle.code_decode.specs.Decoding.{Swept, Advances, IsSwept};

use crate::error::CodeError;
use crate::numbers::behind;
use crate::opcodes::step;
use crate::operands::Stop;
use jvm_types::limits::MOST_CODE_BYTES;
use jvm_types::{Insn, Rows};
use std::alloc::{AllocError, Global};

/// Where the branches of an instruction lead.
#[derive(Debug, Drop)]
pub struct Branching {
    /// The pc of the instruction.
    pub pc: u32,
    /// The pcs that its branches lead to, which may lie outside the code.
    pub targets: Rows<i64>,
}

/// What the pass finds.
#[derive(Debug, Drop)]
pub struct Sweep {
    pub insns: Vec<Insn>,
    /// One for each instruction.
    pub branchings: Rows<Branching>,
    /// For each pc whether an instruction begins there.
    pub starts: Rows<bool>,
}

fn push_insn(insns: &mut Vec<Insn>, insn: Insn) -> Result<(), AllocError>
    ensures { OnOk result (insns.new.items ≡ insns.old.items ++ insn ∷ []) }
{
    insns.push(insn)?;
    Ok(())
}

/// The instruction at a pc; answers how many bytes its operands have.
fn visit(
    alloc: Global,
    swept: &mut Sweep,
    code: &[u8],
    pc: u16,
    opcode: u8,
) -> Result<usize, CodeError>
    requires so_far { Swept code.now pc 0 swept.old }
    requires here { drop pc code.now ≡ opcode ∷ drop (pc + 1) code.now }
    requires size { length code.now ≤ MOST_CODE_BYTES }
    requires within { pc < length code.now }
    ensures { Advances code.now pc swept.new result }
{
    let rest = behind(usize::from(pc) + 1, code);
    match step(alloc, opcode, pc, rest) {
        Ok(found) => {
            let size = found.size;
            let insn = Insn {
                pc: u32::from(pc),
                next: u32::from(pc) + 1 + size as u32,
                op: found.op,
            };
            push_insn(&mut swept.insns, insn)?;
            swept.branchings.push(Branching {
                pc: u32::from(pc),
                targets: found.targets,
            })?;
            swept.starts.push(true)?;
            Ok(size)
        }
        Err(Stop::Rule(rule)) => Err(CodeError::Refused(rule, u32::from(pc))),
        Err(Stop::Memory) => Err(CodeError::Memory),
    }
}

/// A byte of the operands of the instruction before.
fn pass(swept: &mut Sweep, code: &[u8], pc: usize, skip: usize) -> Result<usize, CodeError>
    requires so_far { Swept code.now pc skip swept.old }
    requires some { 0 < skip }
    requires within { pc < length code.now }
    ensures { Advances code.now pc swept.new result }
{
    swept.starts.push(false)?;
    Ok(skip - 1)
}

/// The instructions of the code, of which there are at most 65,535 bytes.
pub fn sweep_code(alloc: Global, code: &[u8]) -> Result<Sweep, CodeError>
    requires { length code.now ≤ MOST_CODE_BYTES }
    ensures { IsSwept code.now result }
{
    let mut swept = Sweep {
        insns: Vec::new(alloc),
        branchings: Rows::new(alloc),
        starts: Rows::new(alloc),
    };
    let mut skip = 0;
    for (pc, opcode) in code.iter().enumerate() {
        if skip > 0 {
            skip = pass(&mut swept, code, pc, skip)?;
        } else {
            skip = visit(alloc, &mut swept, code, pc as u16, *opcode)?;
        }
    }
    Ok(swept)
}
