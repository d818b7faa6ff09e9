//! Edges: the frames that an instruction brings to others.

ghost use Rattle.std.specs.Prelude.{◌≡◌, ℕ, List, [], ◌∷◌, None, OnOk};
ghost use Rattle.checked_program.specs.Visits.{Bring, acted, edge_brought, edges_brought};
ghost use Rattle.checked_program.specs.Visits.{meeting_clash, clashes_with};
ghost use Rattle.code_visits.specs.Waiting.{plan_node_at};
ghost use Rattle.code_visits.specs.Level.{AreLevel};
ghost use Rattle.code_visits.specs.Analyses.{lesser, clash_place, Leaves};

use crate::frames::Frames;
use crate::meeting::{bring_last_to, bring_to};
use crate::nodes::Nodes;
use crate::stop::Stop;
use handler_rows::HandledMethod;
use std::alloc::{AllocError, Global};

fn lesser(pc: Option<u32>, other: Option<u32>) -> Option<u32>
    ensures { result ≡ lesser pc other }
{
    match (pc, other) {
        (Some(pc), Some(at)) => Some(pc.min(at)),
        (Some(pc), None) => Some(pc),
        (None, _) => other,
    }
}

/// Whether the instruction of this number has a frame that may not meet another.
fn clashes_there<D: Frames>(nodes: &Nodes<D::Frame>, i: usize, f: &D::Frame) -> bool
    ensures { result ≡ clashes_with D.meeting (plan_node_at nodes.now i).frame f.now }
{
    match nodes.frame(i) {
        Some(g) => D::clashes(g, f),
        None => false,
    }
}

/// The pc that an edge leads to, where the instruction of this number is there and has a frame that
/// may not meet the one that is brought.
fn clash_place<D: Frames>(
    nodes: &Nodes<D::Frame>,
    number: Option<usize>,
    to: u32,
    f: &D::Frame,
) -> Option<u32>
    ensures { result ≡ clash_place D.meeting number to f.now nodes.now }
{
    match number {
        Some(i) => {
            if clashes_there::<D>(nodes, i, f) {
                Some(to)
            } else {
                None
            }
        }
        None => None,
    }
}

/// The pc that an edge leads to, where the frame there may not meet the one that is brought.
fn clash_at<D: Frames>(
    m: &HandledMethod<'_>,
    nodes: &Nodes<D::Frame>,
    to: u32,
    f: &D::Frame,
) -> Option<u32>
    ensures { result ≡ meeting_clash D.meeting m.now.code (to ∷ []) f.now nodes.now }
{
    m.laid_out();
    clash_place::<D>(nodes, m.find(to), to, f)
}

/// The first of the instructions that edges lead to whose frame may not meet the one that is
/// brought.
fn clash<D: Frames>(
    m: &HandledMethod<'_>,
    nodes: &Nodes<D::Frame>,
    tos: &[u32],
    f: &D::Frame,
) -> Option<u32>
    ensures { result ≡ meeting_clash D.meeting m.now.code tos.now f.now nodes.now }
{
    m.laid_out();
    let mut least = None;
    for to in tos {
        least = lesser(least, clash_at::<D>(m, nodes, *to, f));
    }
    least
}

/// An edge brings a frame to the instruction at a pc.
fn bring<D: Frames>(
    alloc: Global,
    m: &HandledMethod<'_>,
    nodes: &mut Nodes<D::Frame>,
    to: u32,
    f: &D::Frame,
) -> Result<(), AllocError>
    requires level { AreLevel D.width (D.width f.now) m.now.code nodes.old }
    requires apart { meeting_clash D.meeting m.now.code (to ∷ []) f.now nodes.old ≡ None }
    ensures { OnOk result (nodes.new ≡ edge_brought D.meeting m.now.code to f.now nodes.old) }
{
    m.laid_out();
    match m.find(to) {
        Some(i) => bring_to::<D>(alloc, nodes, i, f),
        None => Ok(()),
    }
}

/// The last edge that brings a frame brings it to the instruction at a pc.
fn bring_last<D: Frames>(
    alloc: Global,
    m: &HandledMethod<'_>,
    nodes: &mut Nodes<D::Frame>,
    to: u32,
    f: D::Frame,
) -> Result<(), AllocError>
    requires level { AreLevel D.width (D.width f) m.now.code nodes.old }
    requires apart { meeting_clash D.meeting m.now.code (to ∷ []) f nodes.old ≡ None }
    ensures { OnOk result (nodes.new ≡ edge_brought D.meeting m.now.code to f nodes.old) }
{
    m.laid_out();
    match m.find(to) {
        Some(i) => bring_last_to::<D>(alloc, nodes, i, f),
        None => Ok(()),
    }
}

/// Edges bring a frame to the instructions at these pcs. Where some others bring it too, they still
/// clash with none.
fn bring_each<D: Frames>(
    alloc: Global,
    m: &HandledMethod<'_>,
    nodes: &mut Nodes<D::Frame>,
    tos: &[u32],
    f: &D::Frame,
) -> Result<(), AllocError>
    requires level { AreLevel D.width (D.width f.now) m.now.code nodes.old }
    requires apart { meeting_clash D.meeting m.now.code tos.now f.now nodes.old ≡ None }
    ensures brought { OnOk result
        (nodes.new ≡ edges_brought D.meeting m.now.code tos.now f.now nodes.old) }
    ensures level { OnOk result (AreLevel D.width (D.width f.now) m.now.code nodes.new) }
    ensures apart { OnOk result ((others : List ℕ)
        → meeting_clash D.meeting m.now.code others f.now nodes.old ≡ None
        → meeting_clash D.meeting m.now.code others f.now nodes.new ≡ None) }
{
    m.laid_out();
    for to in tos {
        bring::<D>(alloc, m, nodes, *to, f)?;
    }
    Ok(())
}

/// Edges bring a frame to the instructions at these pcs; the frame itself is kept where the last
/// finds none.
fn bring_all<D: Frames>(
    alloc: Global,
    m: &HandledMethod<'_>,
    nodes: &mut Nodes<D::Frame>,
    tos: &[u32],
    f: D::Frame,
) -> Result<(), AllocError>
    requires level { AreLevel D.width (D.width f) m.now.code nodes.old }
    requires apart { meeting_clash D.meeting m.now.code tos.now f nodes.old ≡ None }
    ensures brought { OnOk result
        (nodes.new ≡ edges_brought D.meeting m.now.code tos.now f nodes.old) }
    ensures level { OnOk result (AreLevel D.width (D.width f) m.now.code nodes.new) }
{
    m.laid_out();
    let Some((last, others)) = tos.split_last() else {
        return Ok(());
    };
    bring_each::<D>(alloc, m, nodes, others, &f)?;
    bring_last::<D>(alloc, m, nodes, *last, f)
}

/// A frame goes along edges, unless it may not meet one that is there: then the rule is broken.
pub fn go_along<D: Frames, R: Drop>(
    alloc: Global,
    m: &HandledMethod<'_>,
    nodes: &mut Nodes<D::Frame>,
    rule: R,
    tos: &[u32],
    f: D::Frame,
) -> Result<(), Stop<R>>
    requires { AreLevel D.width (D.width f) m.now.code nodes.old }
    ensures left { Leaves (acted D.meeting m.now.code (Bring rule tos.now f ∷ []) nodes.old)
        nodes.new result }
    ensures level { OnOk result (AreLevel D.width (D.width f) m.now.code nodes.new) }
{
    if let Some(at) = clash::<D>(m, nodes, tos, &f) {
        return Err(Stop::Refused(rule, at));
    }
    bring_all::<D>(alloc, m, nodes, tos, f)?;
    Ok(())
}

/// A frame, which is kept, goes along an edge, unless it may not meet the one that is there: then
/// the rule is broken.
pub fn go_to<D: Frames, R: Drop>(
    alloc: Global,
    m: &HandledMethod<'_>,
    nodes: &mut Nodes<D::Frame>,
    rule: R,
    to: u32,
    f: &D::Frame,
) -> Result<(), Stop<R>>
    requires { AreLevel D.width (D.width f.now) m.now.code nodes.old }
    ensures left { Leaves (acted D.meeting m.now.code (Bring rule (to ∷ []) f.now ∷ []) nodes.old)
        nodes.new result }
    ensures level { OnOk result (AreLevel D.width (D.width f.now) m.now.code nodes.new) }
{
    if let Some(at) = clash_at::<D>(m, nodes, to, f) {
        return Err(Stop::Refused(rule, at));
    }
    bring::<D>(alloc, m, nodes, to, f)?;
    Ok(())
}
