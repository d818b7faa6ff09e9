//! How much marking does at handler rows: a bound in proportion to the code of a program, of which
//! no clause speaks. Where it is spent, memory is wanting.

use code_visits::Budget;
use jvm_types::{Insn, MethodInfo, Op, Program};
use std::alloc::AllocError;

/// The bytes of code that rows may cover in a program of little code, each counted for each row.
const LEAST_COVERED: usize = 2097152;

/// The bytes that they may cover besides for each byte of code.
const COVERED_BY_CODE: usize = 64;

/// The bytes of the code of a method, but for what its last instruction has behind its opcode.
fn code_bytes(m: &MethodInfo) -> usize {
    match m.code.as_slice().last() {
        Some(insn) => (insn.pc as usize).saturating_add(1),
        None => 0,
    }
}

/// What marking a program may do at handler rows.
pub fn row_budget(p: &Program) -> Budget {
    let mut bytes: usize = 0;
    for m in p.methods.as_slice() {
        bytes = bytes.saturating_add(code_bytes(m));
    }
    Budget::with_work(
        0,
        LEAST_COVERED.saturating_add(COVERED_BY_CODE.saturating_mul(bytes)),
    )
}

/// The bytes of code that the handler rows of a method cover, each counted for each row.
fn covered_bytes(m: &MethodInfo) -> usize {
    let mut bytes: usize = 0;
    for row in m.rows.as_slice() {
        bytes = bytes.saturating_add(row.end.saturating_sub(row.start) as usize);
    }
    bytes
}

/// Takes what is done at the handler rows of a method.
pub fn spend_rows(budget: &mut Budget, m: &MethodInfo) -> Result<(), AllocError> {
    budget.spend(covered_bytes(m))
}

fn has_blocks(code: &[Insn]) -> bool {
    for insn in code {
        if matches!(insn.op, Op::Monitorenter) {
            return true;
        }
    }
    false
}

/// The same for the blocks of a method, where it has some.
pub fn spend_for_blocks(budget: &mut Budget, m: &MethodInfo) -> Result<(), AllocError> {
    if has_blocks(m.code.as_slice()) {
        spend_rows(budget, m)
    } else {
        Ok(())
    }
}
