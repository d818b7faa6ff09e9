//! Laws of the code of a method: each function only states one.

ghost use Rattle.laws_programs.specs.CodeLaws.{BranchesBegin, ClassOfNew, CodeStarts};
ghost use Rattle.laws_programs.specs.CodeLaws.{HandlersBegin, InsnsHaveTargets, MethodsAreLaidOut};
ghost use Rattle.laws_programs.specs.CodeLaws.{NextFollows, OneInsn, PcsAreShort, PcsAscend};
ghost use Rattle.laws_programs.specs.CodeLaws.{StartsBegin};

/// Each method of a program is laid out.
#[tactic(auto, using(crate::proofs::CodeOrder::methods_laid_out))]
pub fn methods_are_laid_out()
    ensures { MethodsAreLaidOut }
{}

/// A later instruction has a later pc.
#[tactic(auto, using(crate::proofs::CodeOrder::ascend))]
pub fn pcs_ascend()
    ensures { PcsAscend }
{}

/// Two instructions with one pc are one.
#[tactic(auto, using(crate::proofs::CodeOrder::one_number))]
pub fn one_insn()
    ensures { OneInsn }
{}

/// Pcs are below the length of the code, and below 65,535 (JVMS 4.7.3).
#[tactic(auto, using(crate::proofs::CodeOrder::short))]
pub fn pcs_are_short()
    ensures { PcsAreShort }
{}

/// The first instruction is at pc 0.
#[tactic(auto, using(crate::proofs::CodeOrder::starts))]
pub fn code_starts()
    ensures { CodeStarts }
{}

/// `next` is the pc of the following instruction, or the length of the code.
#[tactic(auto, using(crate::proofs::CodeOrder::follows))]
pub fn next_follows()
    ensures { NextFollows }
{}

/// Where the grammar of code says that an instruction begins one does.
#[tactic(auto, using(crate::proofs::CodeOrder::begin))]
pub fn starts_begin()
    ensures { StartsBegin }
{}

/// An instruction begins at each pc that another branches to.
pub fn branches_begin()
    ensures { BranchesBegin }
{}

/// An instruction begins at each handler.
#[tactic(auto, using(crate::proofs::CodeOrder::handlers_begin))]
pub fn handlers_begin()
    ensures { HandlersBegin }
{}

/// Each instruction has a target, which fits it.
#[tactic(auto, using(crate::proofs::CodeOrder::have_targets))]
pub fn insns_have_targets()
    ensures { InsnsHaveTargets }
{}

/// The class that the `new` at a pc names is the class of its target.
#[tactic(auto, using(crate::proofs::CodeOrder::class_of_the_new))]
pub fn class_of_new()
    ensures { ClassOfNew }
{}
