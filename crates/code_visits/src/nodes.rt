//! What is known of each instruction in the course of the visits.

ghost use Rattle.std.specs.Prelude.{◌≡◌, ◌<◌, length, map, not, replicate, slice_set, true, false};
ghost use Rattle.std.specs.Prelude.{◌≤◌, IfOk, OnOk, Some};
ghost use Rattle.std.specs.Option.{option_copied, IfSome, IfNone};
ghost use Rattle.checked_program.specs.Visits.{next_waiting, unreached};
ghost use Rattle.code_visits.specs.Waiting.{plan_node_at, met, changes};
ghost use Rattle.code_visits.specs.Level.{IsAsWide};

use crate::budget::Budget;
use crate::frames::Frames;
use jvm_types::Rows;
use std::alloc::{AllocError, Global};
use std::collections::{BTreeMap, BTreeSet};
use std::marker::Model;

/// What a visit is reckoned at, in bytes.
const VISIT_BYTES: usize = 64;

/// What is known of an instruction: the frame that its edges met in, and whether that has changed
/// since it was visited.
#[derive(Drop)]
struct StoredNode<F> {
    frame: Option<F>,
    waits: bool,
}

/// The nodes of the instructions in order, and the numbers of those that wait; and notes by which
/// an analysis finds an instruction again, of which contracts see nothing.
#[derive(Drop)]
pub struct Nodes<F> {
    nodes: Vec<StoredNode<F>>,
    waiting: BTreeSet<usize>,
    budget: Budget,
    notes: BTreeMap<u64, usize>,
}

impl<F> Model for Nodes<F> {
    ghost use Rattle.std.specs.Prelude.{◌≡◌, List, map};
    ghost use Rattle.checked_program.specs.Visits.{PlanNode};
    ghost use Rattle.code_visits.specs.Waiting.{node_is, waiting_numbers};

    ghost Value = { List (PlanNode F) };

    ghost view = { λ n. map node_is n.nodes.items };

    ghost invariant = { λ n. n.waiting.keys ≡ waiting_numbers 0 (map node_is n.nodes.items) };
}

/// An edge brings a frame; answers whether that changes the one that is there.
fn bring_frame<D: Frames>(
    alloc: Global,
    budget: &mut Budget,
    frame: &mut Option<D::Frame>,
    f: &D::Frame,
) -> Result<bool, AllocError>
    requires { IsAsWide D.meeting D.width frame.old f.now }
    ensures frame { OnOk result (frame.new ≡ Some (met D.meeting frame.old f.now)) }
    ensures changed { IfOk result (λ changed. changed ≡ changes D.meeting frame.old f.now) }
{
    match frame.take() {
        Some(g) => {
            let (met, changed) = D::meet(alloc, g, f)?;
            *frame = Some(met);
            Ok(changed)
        }
        None => {
            budget.take(D::bytes_of(f))?;
            *frame = Some(D::copy(alloc, f)?);
            Ok(true)
        }
    }
}

/// The frame of the instruction of this number becomes that where it and another meet; answers
/// whether that changes it.
pub(crate) fn meet_at<D: Frames>(
    alloc: Global,
    nodes: &mut Nodes<D::Frame>,
    i: usize,
    f: &D::Frame,
) -> Result<bool, AllocError>
    requires inside { i < length nodes.old }
    requires fits { IsAsWide D.meeting D.width (plan_node_at nodes.old i).frame f.now }
    ensures met { OnOk result (nodes.new ≡ slice_set nodes.old i (record (plan_node_at nodes.old i)
        { frame = Some (met D.meeting (plan_node_at nodes.old i).frame f.now) })) }
    ensures changed { IfOk result
        (λ changed. changed ≡ changes D.meeting (plan_node_at nodes.old i).frame f.now) }
{
    bring_frame::<D>(alloc, &mut nodes.budget, &mut nodes.nodes[i].frame, f)
}

impl<F: Drop> Nodes<F> {
    /// So many nodes that no edge reaches yet, for each of which so many bytes are reckoned. They
    /// keep no more than the budget has.
    pub(crate) fn unreached(
        alloc: Global,
        count: usize,
        node_bytes: usize,
        mut budget: Budget,
    ) -> Result<Nodes<F>, AllocError>
        ensures { IfOk result (λ nodes. nodes ≡ replicate count unreached) }
    {
        budget.take(count.saturating_mul(node_bytes))?;
        let mut nodes = Vec::with_capacity(alloc, count)?;
        for _i in 0..count {
            nodes.push(StoredNode {
                frame: None,
                waits: false,
            })?;
        }
        Ok(Nodes {
            nodes,
            waiting: BTreeSet::new(alloc),
            budget,
            notes: BTreeMap::new(alloc),
        })
    }

    /// Leaves no more in a budget than these visits left of theirs.
    pub(crate) fn lower(&self, budget: &mut Budget)
        ensures { budget.new ≤ budget.old }
    {
        budget.lower(&self.budget);
    }

    /// Takes work that is reckoned at so many bytes from what visits may do; where not as much is
    /// left, memory is wanting.
    pub fn spend(&mut self, bytes: usize) -> Result<(), AllocError>
        ensures { self.new ≡ self.old }
    {
        self.budget.spend(bytes)
    }

    /// The same for so many steps of a search for handler rows (`HandledMethod::steps`), each
    /// reckoned at one byte.
    pub fn spend_steps(&mut self, steps: usize) -> Result<(), AllocError>
        ensures { self.new ≡ self.old }
    {
        self.budget.spend(steps)
    }

    /// The frame of the instruction of this number.
    pub fn frame(&self, i: usize) -> Option<&F>
        ensures { option_copied result ≡ (plan_node_at self.now i).frame }
    {
        match self.nodes.get(i) {
            Some(node) => node.frame.as_ref(),
            None => None,
        }
    }

    /// Whether the instruction of this number does not wait.
    pub fn rests(&self, i: usize) -> bool
        ensures { result ≡ not (plan_node_at self.now i).waits }
    {
        match self.nodes.get(i) {
            Some(node) => !node.waits,
            None => true,
        }
    }

    /// The number that was noted last for a key, or none. No clause says which: whoever asks has to
    /// look whether it serves.
    pub fn noted(&self, key: u64) -> Option<usize> {
        self.notes.get(&key).copied()
    }

    /// Notes a number for a key.
    pub fn note(&mut self, key: u64, i: usize) -> Result<(), AllocError>
        ensures { self.new ≡ self.old }
    {
        self.notes.insert(key, i)?;
        Ok(())
    }

    /// Takes the waiting instruction of least number, which then waits no more.
    pub(crate) fn take_next(&mut self) -> Option<usize>
        ensures next { result ≡ next_waiting self.old }
        ensures inside { IfSome result (λ i. i < length self.old) }
        ensures none { IfNone result (self.new ≡ self.old) }
        ensures some { IfSome result (λ i.
            self.new
            ≡ slice_set self.old i (record (plan_node_at self.old i) { waits = false })) }
    {
        let i = self.waiting.pop_first()?;
        self.nodes[i].waits = false;
        Some(i)
    }

    /// The instruction of this number waits for a visit, which is reckoned now.
    pub(crate) fn wait(&mut self, i: usize) -> Result<(), AllocError>
        requires { i < length self.old }
        ensures { OnOk result
            (self.new ≡ slice_set self.old i (record (plan_node_at self.old i) { waits = true })) }
    {
        self.budget.spend(VISIT_BYTES)?;
        self.waiting.insert(i)?;
        self.nodes[i].waits = true;
        Ok(())
    }

    /// A frame of so many bytes, which is kept, is brought to the instruction of this number, which
    /// no edge reached before.
    pub(crate) fn enter(&mut self, i: usize, f: F, bytes: usize) -> Result<(), AllocError>
        requires { i < length self.old }
        ensures { OnOk result
            (self.new ≡ slice_set self.old i (record { frame = Some f; waits = true })) }
    {
        self.budget.take(bytes)?;
        self.budget.spend(VISIT_BYTES)?;
        self.waiting.insert(i)?;
        self.nodes[i] = StoredNode {
            frame: Some(f),
            waits: true,
        };
        Ok(())
    }

    /// The last frames.
    pub(crate) fn into_frames(self, alloc: Global) -> Result<Rows<Option<F>>, AllocError>
        ensures { IfOk result (λ frames. frames ≡ map (λ node. node.frame) self) }
    {
        let mut frames = Rows::from_vec(Vec::with_capacity(alloc, self.nodes.len())?);
        for node in self.nodes {
            frames.push(node.frame)?;
        }
        Ok(frames)
    }
}
