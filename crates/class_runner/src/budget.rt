//! How much memory loading keeps: a bound for any program, and one in proportion to its code.

use crate::reckoning::{classes_bytes, code_lengths, copied_bytes};
use code_verifier::Budget;
use jvm_types::{ClassFile, MethodInfo, Program};

/// The bytes that a program takes at most while it is loaded, reckoned: 464 MiB. Where it would
/// take more, memory is wanting.
pub const MOST_LOADED: usize = 486539264;

/// The bytes that the frames of a program of little code keep at most in verifying, and again in
/// tagging: 8 MiB.
pub const LEAST_KEPT: usize = 8388608;

/// The bytes that they may keep besides for each byte of code.
pub const KEPT_BY_CODE: usize = 512;

/// An instruction, with what its constant names.
const INSN_BYTES: usize = 56;

/// What an instruction takes at least when it is verified and tagged.
const FRAMES_BYTES: usize = 320;

/// What is left for the instructions of some classes.
pub fn code_budget(classes: &[ClassFile]) -> Budget {
    Budget::of(MOST_LOADED.saturating_sub(classes_bytes(classes)))
}

/// What so many instructions take at least before all are loaded.
pub fn insns_bytes(insns: usize) -> usize {
    insns.saturating_mul(INSN_BYTES + FRAMES_BYTES)
}

/// How many instructions some methods have.
fn insns_count(methods: &[MethodInfo]) -> usize {
    let mut count: usize = 0;
    for method in methods {
        count = count.saturating_add(method.code.len());
    }
    count
}

/// What verifying may keep for the program of some classes, and as much again tagging: `LEAST_KEPT`
/// and `KEPT_BY_CODE` for each byte of their code, less what the program copies; but no more than
/// half of what the classes and the program leave of `MOST_LOADED`.
pub fn frames_budget(classes: &[ClassFile], program: &Program) -> Budget {
    let methods = program.methods.as_slice();
    let copied = copied_bytes(methods);
    let taken = classes_bytes(classes)
        .saturating_add(copied)
        .saturating_add(INSN_BYTES.saturating_mul(insns_count(methods)));
    let by_code = LEAST_KEPT.saturating_add(KEPT_BY_CODE.saturating_mul(code_lengths(classes)));
    let left = MOST_LOADED.saturating_sub(taken);
    Budget::of(by_code.saturating_sub(copied).min(left / 2))
}
