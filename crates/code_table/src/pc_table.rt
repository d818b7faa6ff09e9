//! Where instructions stand: the number of the one that begins at a pc.

ghost use Rattle.std.specs.Prelude.{◌≡◌, ◌<◌, ◌≤◌, IfOk, replicate, slice_index_or, None};
ghost use Rattle.std.specs.List.{AllByRecursion};
ghost use Rattle.code_table.specs.PcTables.{Ascend, IsPcTable};

use jvm_types::Insn;
use std::alloc::{AllocError, Global};
use std::marker::Model;

/// For each pc the number of the instruction that begins there, counted from 0. It is made once, in
/// time in proportion to the code, and a number is found in constant time.
#[derive(Debug, Drop)]
pub struct PcTable {
    numbers: Vec<Option<u32>>,
}

impl Model for PcTable {
    ghost use Rattle.std.specs.Prelude.{ℕ, List, Option};

    ghost Value = { List (Option ℕ) };

    ghost view = { λ t. t.numbers.items };
}

/// The pc behind that of the last instruction.
fn end_of(code: &[Insn]) -> usize
    requires { Ascend 0 code.now }
    ensures { AllByRecursion (λ insn. insn.pc < result) code.now }
{
    match code.last() {
        Some(insn) => insn.pc as usize + 1,
        None => 0,
    }
}

/// A table in which no instruction stands yet.
fn empty_table(alloc: Global, size: usize) -> Result<Vec<Option<u32>>, AllocError>
    ensures { IfOk result (λ v. v.items ≡ replicate size None) }
{
    vec![in alloc; None; size]
}

/// The number of an instruction, which is at most its pc.
fn number(i: usize, pc: u32) -> u32
    requires { i ≤ pc }
    ensures { result ≡ i }
{
    i as u32
}

impl PcTable {
    /// The table of a code whose pcs ascend.
    pub fn of(alloc: Global, code: &[Insn]) -> Result<PcTable, AllocError>
        requires { Ascend 0 code.now }
        ensures { IfOk result (IsPcTable code.now) }
    {
        let mut numbers = empty_table(alloc, end_of(code))?;
        for (i, insn) in code.iter().enumerate() {
            numbers[insn.pc as usize] = Some(number(i, insn.pc));
        }
        Ok(PcTable { numbers })
    }

    /// The number of the instruction at a pc, where one begins there.
    pub fn find(&self, pc: u32) -> Option<usize>
        ensures { result ≡ slice_index_or self.now pc None }
    {
        match self.numbers.get(pc as usize) {
            Some(Some(number)) => Some(*number as usize),
            _ => None,
        }
    }
}
