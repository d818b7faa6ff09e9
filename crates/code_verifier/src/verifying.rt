//! Verification of a method by inferred types (JVMS 4.10.2).

ghost use Rattle.std.specs.Prelude.{◌≡◌, ◌<◌, ◌≤◌, length, slice_get, IfOk, IfErr, IsSomeAnd};
ghost use Rattle.jvm_types.specs.ProgramInvariant.{IsProgram};
ghost use Rattle.jvm_types.specs.Verifying.{IsLaidOut, IsTypingOf};
ghost use Rattle.jvm_types.specs.declared.typing.Typing.{Typing as MethodTyping};
ghost use Rattle.code_verifier.specs.Visiting.{IsRefusal};
ghost use Rattle.code_verifier.specs.declared.error.VerifyError.TheVariants.{Memory};

use crate::analysis::Verification;
use crate::error::{VerifyError, error_of};
use code_visits::{Budget, MOST_KEPT, visit_all};
use jvm_types::{MethodInfo, Program, Typing};
use std::alloc::Global;

/// Verifies a method whose instructions follow one another, each with a target.
pub(crate) fn verify_method(
    alloc: Global,
    p: &Program,
    m: &MethodInfo,
    budget: &mut Budget,
) -> Result<Typing, VerifyError>
    requires { IsLaidOut m.now }
    ensures ok { IfOk result (IsTypingOf p.now m.now) }
    ensures refused { IfErr result (IsRefusal p.now m.now) }
    ensures spent { budget.new ≤ budget.old }
{
    match visit_all::<Verification>(alloc, p, m, budget) {
        Ok(frames) => Ok(Typing { frames }),
        Err(stop) => Err(error_of(stop)),
    }
}

/// The typing of the method of this number (JVMS 4.10.2): types are inferred, and the instruction
/// that is visited next is always the waiting one of least pc. Where the method has no typing, the
/// rule and the pc of the first visit that breaks one. What is kept for the method is taken from
/// the budget; where that is spent, memory is wanting.
pub fn verify_within(
    alloc: Global,
    p: &Program,
    method: u32,
    budget: &mut Budget,
) -> Result<Typing, VerifyError>
    requires program { IsProgram p.now }
    requires method { method < length p.now.methods }
    ensures ok { IsSomeAnd (slice_get p.now.methods method)
        (λ m. IfOk result (λ t. IsTypingOf p.now m t)) }
    ensures only { IsSomeAnd (slice_get p.now.methods method)
        (λ m. (t : MethodTyping) → IsTypingOf p.now m t → IfOk result (λ found. found ≡ t)) }
    ensures typed { IsSomeAnd (slice_get p.now.methods method)
        (λ m. (t : MethodTyping) → IsTypingOf p.now m t → IfErr result (λ e. e ≡ Memory)) }
    ensures refused { IsSomeAnd (slice_get p.now.methods method)
        (λ m. IfErr result (λ e. IsRefusal p.now m e)) }
    ensures spent { budget.new ≤ budget.old }
{
    match p.methods.get(method as usize) {
        Some(m) => verify_method(alloc, p, m, budget),
        None => unreachable!(),
    }
}

/// `verify_within` a budget that has `MOST_KEPT` bytes for this method alone.
pub fn verify(alloc: Global, p: &Program, method: u32) -> Result<Typing, VerifyError>
    requires program { IsProgram p.now }
    requires method { method < length p.now.methods }
    ensures ok { IsSomeAnd (slice_get p.now.methods method)
        (λ m. IfOk result (λ t. IsTypingOf p.now m t)) }
    ensures only { IsSomeAnd (slice_get p.now.methods method)
        (λ m. (t : MethodTyping) → IsTypingOf p.now m t → IfOk result (λ found. found ≡ t)) }
    ensures typed { IsSomeAnd (slice_get p.now.methods method)
        (λ m. (t : MethodTyping) → IsTypingOf p.now m t → IfErr result (λ e. e ≡ Memory)) }
    ensures refused { IsSomeAnd (slice_get p.now.methods method)
        (λ m. IfErr result (λ e. IsRefusal p.now m e)) }
{
    let mut budget = Budget::of(MOST_KEPT);
    verify_within(alloc, p, method, &mut budget)
}
