//! Tagging of a method.

ghost use Rattle.std.specs.Prelude.{◌≡◌, ◌<◌, ◌≤◌, length, slice_get, IfOk, IfErr, IsSomeAnd};
ghost use Rattle.jvm_types.specs.ProgramInvariant.{IsProgram};
ghost use Rattle.jvm_types.specs.Verifying.{IsLaidOut, IsTypingOf};
ghost use Rattle.checked_program.specs.Tagging.{IsTaggingOf};
ghost use Rattle.checked_program.specs.declared.tag.Tags.{Tags as MethodTags};
ghost use Rattle.monitor_tags.specs.Visiting.{IsTagRefusal};
ghost use Rattle.monitor_tags.specs.declared.error.TagError.TheVariants.{Memory};

use crate::analysis::Tagging;
use crate::error::{TagError, error_of};
use checked_program::Tags;
use code_visits::{Budget, MOST_KEPT, visit_all};
use jvm_types::{MethodInfo, Program, Typing};
use std::alloc::Global;

/// Tags a method whose instructions follow one another, each with a target.
pub(crate) fn tag_method(
    alloc: Global,
    p: &Program,
    m: &MethodInfo,
    budget: &mut Budget,
) -> Result<Tags, TagError>
    requires { IsLaidOut m.now }
    ensures ok { IfOk result (IsTaggingOf p.now m.now) }
    ensures refused { IfErr result (IsTagRefusal p.now m.now) }
    ensures spent { budget.new ≤ budget.old }
{
    match visit_all::<Tagging>(alloc, p, m, budget) {
        Ok(frames) => Ok(Tags { frames }),
        Err(stop) => Err(error_of(stop)),
    }
}

/// The tagging of the method of this number, which has a typing: the instruction that is visited
/// next is always the waiting one of least pc. Where the method has no tagging, the rule and the pc
/// of the first visit that breaks one. What is kept for the method is taken from the budget; where
/// that is spent, memory is wanting.
pub fn tag_within(
    alloc: Global,
    p: &Program,
    method: u32,
    budget: &mut Budget,
) -> Result<Tags, TagError>
    requires program { IsProgram p.now }
    requires method { method < length p.now.methods }
    ensures ok { IsSomeAnd (slice_get p.now.methods method)
        (λ m. IfOk result (λ t. IsTaggingOf p.now m t)) }
    ensures only { IsSomeAnd (slice_get p.now.methods method)
        (λ m. (t : MethodTags) → IsTaggingOf p.now m t → IfOk result (λ found. found ≡ t)) }
    ensures tagged { IsSomeAnd (slice_get p.now.methods method)
        (λ m. (t : MethodTags) → IsTaggingOf p.now m t → IfErr result (λ e. e ≡ Memory)) }
    ensures refused { IsSomeAnd (slice_get p.now.methods method)
        (λ m. IfErr result (λ e. IsTagRefusal p.now m e)) }
    ensures spent { budget.new ≤ budget.old }
{
    match p.methods.get(method as usize) {
        Some(m) => tag_method(alloc, p, m, budget),
        None => unreachable!(),
    }
}

/// `tag_within` a budget that has `MOST_KEPT` bytes for this method alone, of a method that has
/// this typing.
pub fn tag(alloc: Global, p: &Program, method: u32, _types: &Typing) -> Result<Tags, TagError>
    requires program { IsProgram p.now }
    requires method { method < length p.now.methods }
    requires typed { IsSomeAnd (slice_get p.now.methods method)
        (λ m. IsTypingOf p.now m _types.now) }
    ensures ok { IsSomeAnd (slice_get p.now.methods method)
        (λ m. IfOk result (λ t. IsTaggingOf p.now m t)) }
    ensures only { IsSomeAnd (slice_get p.now.methods method)
        (λ m. (t : MethodTags) → IsTaggingOf p.now m t → IfOk result (λ found. found ≡ t)) }
    ensures tagged { IsSomeAnd (slice_get p.now.methods method)
        (λ m. (t : MethodTags) → IsTaggingOf p.now m t → IfErr result (λ e. e ≡ Memory)) }
    ensures refused { IsSomeAnd (slice_get p.now.methods method)
        (λ m. IfErr result (λ e. IsTagRefusal p.now m e)) }
{
    let mut budget = Budget::of(MOST_KEPT);
    tag_within(alloc, p, method, &mut budget)
}
