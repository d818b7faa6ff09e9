//! The visits of a method, until nothing waits.

ghost use Rattle.std.specs.Prelude.{◌≡◌, ◌≤◌, IfOk, IfErr, OnOk};
ghost use Rattle.jvm_types.specs.Verifying.{IsLaidOut};
ghost use Rattle.checked_program.specs.Visits.{acted, acts_on, nodes_for, HasFrames};
ghost use Rattle.laws_sections.proofs.VisitAnswers.{Settle};
ghost use Rattle.code_visits.specs.Level.{AreLevel};
ghost use Rattle.code_visits.specs.Analyses.{plan_of, AreUnderVisit, IsBreak, IsStopped, Leaves};
ghost use Rattle.code_visits.specs.Waiting.{plan_node_at};

use crate::analysis::Analysis;
use crate::budget::Budget;
use crate::meeting::bring_last_to;
use crate::nodes::Nodes;
use crate::stop::Stop;
use handler_rows::HandledMethod;
use jvm_types::{MethodInfo, Program, Rows};
use std::alloc::{AllocError, Global};

/// At the start pc 0 waits with the first frame.
fn first_nodes<D: Analysis>(
    alloc: Global,
    m: &MethodInfo,
    budget: Budget,
) -> Result<Nodes<D::Frame>, AllocError>
    ensures { IfOk result (λ nodes. nodes ≡ nodes_for (D.first m.now) m.now.code) }
{
    let mut nodes = Nodes::unreached(alloc, m.code.len(), D::NODE_BYTES, budget)?;
    if m.code.is_empty() {
        return Ok(nodes);
    }
    let first = D::first(alloc, m)?;
    bring_last_to::<D>(alloc, &mut nodes, 0, first)?;
    Ok(nodes)
}

/// Takes what the search for a row that covers the instruction of this number does.
fn spend_search<F: Drop>(
    m: &HandledMethod<'_>,
    nodes: &mut Nodes<F>,
    i: usize,
) -> Result<(), AllocError>
    ensures { nodes.new ≡ nodes.old }
{
    match m.method().code.get(i) {
        Some(insn) => nodes.spend_steps(m.steps(insn.pc, 0, true)),
        None => Ok(()),
    }
}

/// The visit of the instruction of this number, with what the search for its rows takes.
fn visit<D: Analysis>(
    alloc: Global,
    p: &Program,
    m: &HandledMethod<'_>,
    nodes: &mut Nodes<D::Frame>,
    i: usize,
) -> Result<(), Stop<D::Rule>>
    requires level { AreLevel D.width (D.width (D.first m.now)) m.now.code nodes.old }
    requires kept { AreUnderVisit (D.is_kept p.now m.now) i nodes.old }
    ensures left { Leaves (acted D.meeting m.now.code (acts_on
        (plan_of D.meeting D.first D.acts p.now m.now) i (plan_node_at nodes.old i).frame)
        nodes.old) nodes.new result }
    ensures level { OnOk result (AreLevel D.width (D.width (D.first m.now)) m.now.code nodes.new) }
{
    spend_search(m, nodes, i)?;
    D::visit(alloc, p, m, nodes, i)
}

/// Visits until nothing waits, or to the first visit that breaks a rule.
fn settle<D: Analysis>(
    alloc: Global,
    p: &Program,
    m: &HandledMethod<'_>,
    nodes: &mut Nodes<D::Frame>,
) -> Result<(), Stop<D::Rule>>
    requires level { AreLevel D.width (D.width (D.first m.now)) m.now.code nodes.old }
    requires kept { D.is_kept p.now m.now nodes.old }
    ensures settled { OnOk result
        (Settle (plan_of D.meeting D.first D.acts p.now m.now) nodes.old nodes.new) }
    ensures broken { IfErr result
        (IsBreak (plan_of D.meeting D.first D.acts p.now m.now) nodes.old) }
{
    m.laid_out();
    while let Some(i) = nodes.take_next() {
        visit::<D>(alloc, p, m, nodes, i)?;
    }
    Ok(())
}

/// The last frames of a method whose instructions follow one another, each with a target: the
/// instruction that is visited next is always the waiting one of least pc. Or the rule and the pc
/// of the first visit that breaks one. What is kept and done is taken from the budget; where that
/// is spent, memory is wanting.
pub fn visit_all<D: Analysis>(
    alloc: Global,
    p: &Program,
    m: &MethodInfo,
    budget: &mut Budget,
) -> Result<Rows<Option<D::Frame>>, Stop<D::Rule>>
    requires { IsLaidOut m.now }
    ensures ok { IfOk result (HasFrames (plan_of D.meeting D.first D.acts p.now m.now)) }
    ensures refused { IfErr result (IsStopped (plan_of D.meeting D.first D.acts p.now m.now)) }
    ensures spent { budget.new ≤ budget.old }
{
    let indexed = HandledMethod::of(alloc, m)?;
    let mut nodes = first_nodes::<D>(alloc, m, budget.copy())?;
    settle::<D>(alloc, p, &indexed, &mut nodes)?;
    nodes.lower(budget);
    Ok(nodes.into_frames(alloc)?)
}
