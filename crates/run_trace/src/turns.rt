//! Whose turn comes next.

ghost use Rattle.std.specs.Prelude.{◌≡◌, ◌≤◌, ◌+◌, List, ℕ, drop, if◌then◌else◌};
ghost use Rattle.machine_types.specs.Core.{Of, lives};
ghost use Rattle.machine_types.specs.Schedules.{is_live_worker, ordered, part_turn};
ghost use Rattle.machine_types.specs.Schedules.{round_turn_from, turn_at, turn_of};
ghost use Rattle.run_trace.specs.Turns.{IsMayBe, next_ahead, parts_ahead, stage_of, turn_of_next};

use replay_runner::{Machine, next_worker};

/// How far a run is in its order.
#[derive(Clone, Copy, Debug, PartialEq, Eq)]
pub enum Progress {
    /// In `init`.
    Init,
    /// The workers run by the order; with the place in it of the next number.
    Order(usize),
    /// The workers run round by round; the next number.
    Round(u8),
    /// In `done`.
    Done,
}

/// What comes next, and how far the run is behind it.
#[derive(Clone, Copy, Debug, PartialEq, Eq)]
pub enum Next {
    /// An event of this thread.
    Event(u8, Progress),
    /// The next part begins.
    Part(Progress),
    /// Nothing: the run is over.
    Over,
}

/// The begin of the next part, where it may begin.
fn next_part(machine: &Machine, progress: Progress) -> Next
    ensures turn { (order : List ℕ)
        → turn_of_next order result ≡ part_turn machine.now.core (stage_of order progress) }
    ensures may { IsMayBe machine.now.core result }
    ensures ahead { next_ahead result ≤ parts_ahead progress + 1 }
{
    if machine.may_begin() {
        Next::Part(progress)
    } else {
        Next::Over
    }
}

/// The next event of the workers round by round, or the begin of `done`.
fn next_in_rounds(machine: &Machine, from: u8) -> Next
    ensures turn { (order : List ℕ)
        → turn_of_next order result ≡ round_turn_from machine.now.core from }
    ensures may { IsMayBe machine.now.core result }
    ensures ahead { next_ahead result ≤ 1 }
{
    match next_worker(machine, from) {
        Some(t) => Next::Event(t, Progress::Round(t + 1)),
        None => next_part(machine, Progress::Done),
    }
}

/// Whether a worker of this number lives.
fn is_live_worker(machine: &Machine, t: u8) -> bool
    ensures { result ≡ is_live_worker machine.now.core t }
{
    t > 0 && machine.lives(t)
}

/// The next event of the workers by their order from a place on, where a number of no live worker
/// is skipped.
fn next_in_order(machine: &Machine, order: &[u8], i: usize) -> Next
    ensures turn { turn_of_next order.now result ≡ ordered machine.now.core (drop i order.now) }
    ensures may { IsMayBe machine.now.core result }
    ensures ahead { next_ahead result ≤ 1 }
{
    for place in i..order.len() {
        let t = order[place];
        if is_live_worker(machine, t) {
            return Next::Event(t, Progress::Order(place + 1));
        }
    }
    next_in_rounds(machine, 1)
}

/// The next event of thread 0 while it lives, else the begin of the part behind it.
fn next_of_first(machine: &Machine, now: Progress, behind: Next) -> Next
    requires may { IsMayBe machine.now.core behind }
    requires ahead { next_ahead behind ≤ parts_ahead now }
    ensures turn { (order : List ℕ) → turn_of_next order result ≡ (if lives machine.now.core 0 then
        turn_of (Of 0) (stage_of order now) else turn_of_next order behind) }
    ensures may { IsMayBe machine.now.core result }
    ensures ahead { next_ahead result ≤ parts_ahead now }
{
    if machine.lives(0) {
        Next::Event(0, now)
    } else {
        behind
    }
}

/// What comes next.
pub fn next_turn(machine: &Machine, order: &[u8], progress: Progress) -> Next
    ensures turn { turn_of_next order.now result
        ≡ turn_at (stage_of order.now progress) machine.now.core }
    ensures may { IsMayBe machine.now.core result }
    ensures ahead { next_ahead result ≤ parts_ahead progress }
{
    match progress {
        Progress::Init => {
            let behind = next_part(machine, Progress::Order(0));
            next_of_first(machine, progress, behind)
        }
        Progress::Order(i) => next_in_order(machine, order, i),
        Progress::Round(from) => next_in_rounds(machine, from),
        Progress::Done => next_of_first(machine, progress, Next::Over),
    }
}
