//! Where an instruction goes on, and whether it can throw.

ghost use Rattle.std.specs.Prelude.{◌≡◌, ◌∷◌, ◌++◌, map, nat_le, IfOk};
ghost use Rattle.std.specs.List.{list_any};
ghost use Rattle.jvm_types.specs.CodeTable.{branches_to, falls_through, can_throw};
ghost use Rattle.jvm_types.specs.Verifying.{edges};
ghost use Rattle.code_table.specs.Ways.{pcs_of};

use jvm_types::{Case, Insn, Op};
use std::alloc::{AllocError, Global};

/// The branch or switch of an instruction.
#[derive(Clone, Copy)]
enum Branch<'a> {
    /// It has none.
    Nowhere,
    To(u32),
    Table(u32, &'a [u32]),
    Lookup(u32, &'a [Case]),
}

fn branch_of(op: &Op) -> Branch<'_>
    ensures { pcs_of result ≡ branches_to op.now }
{
    match op {
        Op::If(_, to)
        | Op::IfIcmp(_, to)
        | Op::IfAcmpeq(to)
        | Op::IfAcmpne(to)
        | Op::Ifnull(to)
        | Op::Ifnonnull(to)
        | Op::Goto(to)
        | Op::GotoW(to) => Branch::To(*to),
        Op::Tableswitch {
            otherwise,
            targets,
            ..
        } => Branch::Table(*otherwise, targets.as_slice()),
        Op::Lookupswitch { otherwise, cases } => Branch::Lookup(*otherwise, cases.as_slice()),
        _ => Branch::Nowhere,
    }
}

fn table_ways(alloc: Global, otherwise: u32, targets: &[u32]) -> Result<Vec<u32>, AllocError>
    ensures { IfOk result (λ v. v.items ≡ otherwise ∷ targets.now) }
{
    let mut ways = Vec::from_slice(alloc, &[otherwise])?;
    ways.extend_from_slice(targets)?;
    Ok(ways)
}

fn lookup_ways(alloc: Global, otherwise: u32, cases: &[Case]) -> Result<Vec<u32>, AllocError>
    ensures { IfOk result (λ v. v.items ≡ otherwise ∷ map (λ c. c.target) cases.now) }
{
    let mut ways = Vec::from_slice(alloc, &[otherwise])?;
    for case in cases {
        ways.push(case.target)?;
    }
    Ok(ways)
}

/// The pcs of the branch or switch of an instruction.
pub fn branches_to(alloc: Global, op: &Op) -> Result<Vec<u32>, AllocError>
    ensures { IfOk result (λ v. v.items ≡ branches_to op.now) }
{
    match branch_of(op) {
        Branch::Nowhere => Ok(Vec::new(alloc)),
        Branch::To(to) => Vec::from_slice(alloc, &[to]),
        Branch::Table(otherwise, targets) => table_ways(alloc, otherwise, targets),
        Branch::Lookup(otherwise, cases) => lookup_ways(alloc, otherwise, cases),
    }
}

/// Whether an instruction may go on at the following one.
pub fn falls_through(op: &Op) -> bool
    ensures { result ≡ falls_through op.now }
{
    !matches!(
        op,
        Op::Goto(_)
            | Op::GotoW(_)
            | Op::Tableswitch { .. }
            | Op::Lookupswitch { .. }
            | Op::Ireturn
            | Op::Areturn
            | Op::Return
            | Op::Athrow
    )
}

/// Whether an instruction can throw (JVMS 2.10, 6.5), but for what linking and tagging rule out.
pub fn can_throw(op: &Op) -> bool
    ensures { result ≡ can_throw op.now }
{
    matches!(
        op,
        Op::Idiv
            | Op::Irem
            | Op::Iaload
            | Op::Iastore
            | Op::Arraylength
            | Op::Getfield(_)
            | Op::Putfield(_)
            | Op::Invokevirtual(_)
            | Op::Invokespecial(_)
            | Op::Invokestatic(_)
            | Op::New(_)
            | Op::Newarray
            | Op::Athrow
            | Op::Monitorenter
    )
}

fn some_back(pc: u32, targets: &[u32]) -> bool
    ensures { result ≡ list_any (λ to. nat_le to pc) targets.now }
{
    targets.iter().any(|to| *to <= pc)
}

fn some_case_back(pc: u32, cases: &[Case]) -> bool
    ensures { result ≡ list_any (λ to. nat_le to pc) (map (λ c. c.target) cases.now) }
{
    for case in cases {
        if case.target <= pc {
            return true;
        }
    }
    false
}

/// Whether a branch or switch at a pc may lead to that pc or one before it.
pub fn goes_back(pc: u32, op: &Op) -> bool
    ensures { result ≡ list_any (λ to. nat_le to pc) (branches_to op.now) }
{
    match branch_of(op) {
        Branch::Nowhere => false,
        Branch::To(to) => to <= pc,
        Branch::Table(otherwise, targets) => otherwise <= pc || some_back(pc, targets),
        Branch::Lookup(otherwise, cases) => otherwise <= pc || some_case_back(pc, cases),
    }
}

/// The pcs that an instruction goes on at.
pub fn edges(alloc: Global, insn: &Insn) -> Result<Vec<u32>, AllocError>
    ensures { IfOk result (λ v. v.items ≡ edges insn.now) }
{
    let mut ways = branches_to(alloc, &insn.op)?;
    if falls_through(&insn.op) {
        ways.push(insn.next)?;
    }
    Ok(ways)
}
