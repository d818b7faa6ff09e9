//! A frame that is brought to an instruction.

ghost use Rattle.std.specs.Prelude.{◌≡◌, ◌<◌, length, slice_set, true, OnOk};
ghost use Rattle.std.specs.Option.{IfSome};
ghost use Rattle.checked_program.specs.Visits.{joined};
ghost use Rattle.code_visits.specs.Waiting.{plan_node_at};
ghost use Rattle.code_visits.specs.Level.{IsAsWide};

use crate::frames::Frames;
use crate::nodes::{Nodes, meet_at};
use std::alloc::{AllocError, Global};

/// What an edge is reckoned at, in bytes, besides an eighth of the frame that it brings.
const EDGE_BYTES: usize = 8;

/// Whether the instruction of this number has a frame that meeting another doesn't change.
fn stays_at<D: Frames>(nodes: &Nodes<D::Frame>, i: usize, f: &D::Frame) -> bool
    requires { IsAsWide D.meeting D.width (plan_node_at nodes.now i).frame f.now }
    ensures { result ≡ true → slice_set nodes.now i (joined D.meeting
        (plan_node_at nodes.now i).waits (plan_node_at nodes.now i).frame f.now)
        ≡ nodes.now }
{
    match nodes.frame(i) {
        Some(frame) => D::stays(frame, f),
        None => false,
    }
}

/// An edge brings a frame to the instruction of this number: the frame there stays, or both meet.
fn join_at<D: Frames>(
    alloc: Global,
    nodes: &mut Nodes<D::Frame>,
    i: usize,
    f: &D::Frame,
) -> Result<(), AllocError>
    requires inside { i < length nodes.old }
    requires fits { IsAsWide D.meeting D.width (plan_node_at nodes.old i).frame f.now }
    ensures { OnOk result (nodes.new ≡ slice_set nodes.old i (joined D.meeting
        (plan_node_at nodes.old i).waits (plan_node_at nodes.old i).frame f.now)) }
{
    if stays_at::<D>(nodes, i, f) {
        return Ok(());
    }
    if meet_at::<D>(alloc, nodes, i, f)? {
        nodes.wait(i)?;
    }
    Ok(())
}

/// An edge brings a frame to the instruction of this number, which is reckoned by the frame.
pub fn bring_to<D: Frames>(
    alloc: Global,
    nodes: &mut Nodes<D::Frame>,
    i: usize,
    f: &D::Frame,
) -> Result<(), AllocError>
    requires inside { i < length nodes.old }
    requires fits { IsAsWide D.meeting D.width (plan_node_at nodes.old i).frame f.now }
    ensures { OnOk result (nodes.new ≡ slice_set nodes.old i (joined D.meeting
        (plan_node_at nodes.old i).waits (plan_node_at nodes.old i).frame f.now)) }
{
    nodes.spend(EDGE_BYTES.saturating_add(D::bytes_of(f) / 8))?;
    join_at::<D>(alloc, nodes, i, f)
}

/// The last edge brings a frame to the instruction of this number; the frame itself is kept where
/// none is there.
pub fn bring_last_to<D: Frames>(
    alloc: Global,
    nodes: &mut Nodes<D::Frame>,
    i: usize,
    f: D::Frame,
) -> Result<(), AllocError>
    requires inside { i < length nodes.old }
    requires fits { IsAsWide D.meeting D.width (plan_node_at nodes.old i).frame f }
    ensures { OnOk result (nodes.new ≡ slice_set nodes.old i (joined D.meeting
        (plan_node_at nodes.old i).waits (plan_node_at nodes.old i).frame f)) }
{
    if nodes.frame(i).is_none() {
        let bytes = D::bytes_of(&f);
        nodes.enter(i, f, bytes)
    } else {
        bring_to::<D>(alloc, nodes, i, &f)
    }
}
