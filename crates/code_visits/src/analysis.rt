//! What an analysis of methods by visits is.

ghost use Rattle.std.specs.Prelude.{◌≡◌, ℕ, List, IfOk, OnOk};
ghost use Rattle.jvm_types.specs.Verifying.{IsLaidOut};
ghost use Rattle.jvm_types.specs.declared.program.MethodInfo.{MethodInfo as Method};
ghost use Rattle.jvm_types.specs.declared.program.Program.{Program as Linked};
ghost use Rattle.checked_program.specs.Visits.{Act, PlanNode, acted, acts_on};
ghost use Rattle.code_visits.specs.Waiting.{plan_node_at};
ghost use Rattle.code_visits.specs.Level.{AreLevel};
ghost use Rattle.code_visits.specs.Analyses.{plan_of, Ends, AreUnderVisit, Leaves};

use crate::frames::Frames;
use crate::nodes::Nodes;
use crate::stop::Stop;
use handler_rows::HandledMethod;
use jvm_types::{MethodInfo, Program};
use std::alloc::{AllocError, Global};

/// The rules of an analysis, and what an instruction that finds a frame does.
pub trait Analysis: Frames {
    /// The rules that a visit may break.
    type Rule: Copy + Drop;

    /// The bytes that are reckoned for an instruction, besides those of its frame.
    const NODE_BYTES: usize;

    /// The frame at pc 0.
    ghost first: { Method → Self.Frame };

    /// What the instruction of a number does with a frame.
    ghost acts: { Linked → Method → ℕ → Self.Frame → List (Act Self.Frame Self.Rule) };

    /// What the visits keep of the nodes.
    ghost is_kept: { Linked → Method → List (PlanNode Self.Frame) → Type 0 };

    /// The work that is left; each visit leaves less.
    ghost work: { Linked → Method → List (PlanNode Self.Frame) → ℕ };

    /// The frame at pc 0.
    fn first(alloc: Global, m: &MethodInfo) -> Result<Self::Frame, AllocError>
        ensures { IfOk result (λ f. f ≡ first m.now) };

    /// The visit of the instruction of this number.
    fn visit(
        alloc: Global,
        p: &Program,
        m: &HandledMethod<'_>,
        nodes: &mut Nodes<Self::Frame>,
        i: usize,
    ) -> Result<(), Stop<Self::Rule>>
        requires level { AreLevel Self.width (Self.width (first m.now)) m.now.code nodes.old }
        requires kept { AreUnderVisit (is_kept p.now m.now) i nodes.old }
        ensures left { Leaves (acted Self.meeting m.now.code (acts_on
            (plan_of Self.meeting first acts p.now m.now) i
            (plan_node_at nodes.old i).frame) nodes.old) nodes.new result }
        ensures level { OnOk result (AreLevel Self.width (Self.width (first m.now)) m.now.code nodes.new) };

    ghost ends: { (p : Linked) (m : Method) → IsLaidOut m
        → Ends (plan_of Self.meeting first acts p m) (is_kept p m) (work p m) };
}
