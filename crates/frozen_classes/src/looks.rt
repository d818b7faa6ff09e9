//! How many places and handler rows are looked at: a bound in proportion to the code of a program.

use code_visits::Budget;
use jvm_types::{MethodInfo, Program};

/// How many looks there may be in a program of little code.
const LEAST_LOOKS: usize = 33554432;

/// How many there may be besides for each byte of code.
const LOOKS_BY_CODE: usize = 2048;

fn code_length(m: &MethodInfo) -> usize {
    match m.code.as_slice().last() {
        Some(insn) => insn.next as usize,
        None => 0,
    }
}

/// What may be looked at to find which classes of a program are frozen: `LEAST_LOOKS`, and
/// `LOOKS_BY_CODE` for each byte of the code of all methods.
pub(crate) fn looks_budget(p: &Program) -> Budget {
    let mut bytes: usize = 0;
    for m in p.methods.as_slice() {
        bytes = bytes.saturating_add(code_length(m));
    }
    Budget::with_work(
        0,
        LEAST_LOOKS.saturating_add(LOOKS_BY_CODE.saturating_mul(bytes)),
    )
}
