//! The plain machine: a program, its state, and how many steps were made.

ghost use Rattle.std.specs.Prelude.{◌≡◌, ◌<◌, ◌^◌, slice_get, IfOk, true};
ghost use Rattle.std.specs.Option.{option_map};
ghost use Rattle.machine_types.specs.PlainState.{plain_start};
ghost use Rattle.machine_types.specs.PlainSteps.{plain_done_end, end_at, plain_step};
ghost use Rattle.plain_threads.specs.Statuses.{plain_status_of};
ghost use Rattle.history_rule.specs.Steps.{IsPlayed};
ghost use Rattle.history_rule.specs.declared.plain.TheConstants.{MOST_STEPS};

use crate::plain_state::PlainState;
use crate::printed::Printed;
use checked_program::Checked;
use jvm_types::End;
use lists::Told;
use machine_types::PlainStep;
use plain_threads::{Holdings, Status, Threads};
use std::alloc::{AllocError, Global};
use std::marker::Model;

/// The most steps of one plain machine: 2^40, so that its numbers fit 64 bits.
pub const MOST_STEPS: u64 = 1_099_511_627_776;

/// The most steps, which the clauses of the plain machine name as the code does, by number.
pub fn steps_are_stated()
    ensures { MOST_STEPS ≡ 2 ^ 40 }
{}

/// The plain machine (JVMS 2.5, 2.6, 2.11.10; JLS 17.1, 17.2). Contracts see the program that it
/// was made for, its state, and how many steps were made.
#[derive(Drop)]
pub struct Plain {
    program: Told<Checked>,
    state: PlainState,
    steps: u64,
}

impl Model for Plain {
    ghost use Rattle.history_rule.specs.Small.{IsSmall};
    ghost use Rattle.history_rule.specs.Steps.{Played};

    ghost Value = { Played };

    ghost view = { λ q. record { program = q.program.told; state = q.state; steps = q.steps } };

    ghost invariant = { λ q. IsSmall q.steps q.state };
}

/// The plain machine at the start of a run of a program.
pub fn plain_start(alloc: Global, p: &Checked) -> Result<Plain, AllocError>
    ensures { IfOk result
        (λ q. q ≡ record { program = p.now; state = plain_start p.now.program; steps = 0 }) }
{
    let _checked = p.program();
    Ok(Plain {
        program: Told::of(p),
        state: PlainState::start(alloc, p)?,
        steps: 0,
    })
}

/// Makes one step of the plain machine of this program. `Ok(false)`: it has no such step, and
/// nothing has changed. It answers `AllocError` where memory is wanted, and nothing has changed.
pub fn plain_step(
    alloc: Global,
    q: &mut Plain,
    p: &Checked,
    step: &PlainStep,
) -> Result<bool, AllocError>
    requires program { p.now ≡ q.old.program }
    requires few { q.old.steps < MOST_STEPS }
    ensures { IsPlayed (plain_step p.now.program q.old.state step.now) q.old q.new result }
{
    let _checked = p.program();
    let made = q.state.step(alloc, p, *step)?;
    if made {
        q.steps += 1;
    }
    Ok(made)
}

// What a reader of a history asks.
impl Plain {
    /// How many steps were made.
    pub fn steps(&self) -> u64
        ensures { result ≡ self.now.steps }
    {
        self.steps
    }

    /// The number that was printed at a place among all prints, or `None` where there are not so
    /// many.
    pub fn print(&self, i: usize) -> Option<i32>
        ensures { result ≡ option_map (λ x. x.value) (slice_get self.now.state.prints i) }
    {
        match self.prints().get(i) {
            Some(printed) => Some(printed.value()),
            None => None,
        }
    }

    /// What was printed so far, in order, with the threads that printed it.
    pub fn prints(&self) -> &[Printed]
        ensures { result.now ≡ self.now.state.prints }
    {
        self.state.prints()
    }

    /// What a thread does next, or `None` where there is no such thread.
    pub fn status(&self, t: u8) -> Option<Status>
        ensures { option_map plain_status_of result
            ≡ option_map (λ x. x.status) (slice_get self.now.state.threads t) }
    {
        self.state.status(t)
    }

    /// How a part of a thread ended, by the number of the part, or `None` where it has not.
    pub fn end_at(&self, part: usize, t: u8) -> Option<End>
        ensures { result ≡ end_at part (slice_get self.now.state.threads t) }
    {
        self.state.end_at(part, t)
    }

    /// How `done` ended, or `None` where it has not. Where the program has none, it has returned as
    /// soon as it is due.
    pub fn done_end(&self, alloc: Global, p: &Checked) -> Result<Option<End>, AllocError>
        ensures { IfOk result (λ e. e ≡ plain_done_end p.now.program self.now.state) }
    {
        self.state.done_end(alloc, p)
    }
}

// What a search over its states asks.
impl Plain {
    /// Its threads.
    pub fn threads(&self) -> &Threads
        ensures { result.now ≡ self.now.state.threads }
    {
        self.state.threads()
    }

    /// The monitors that are held.
    pub fn holdings(&self) -> &Holdings
        ensures { result.now ≡ self.now.state.holdings }
    {
        &self.state.holdings
    }

    /// The same machine again.
    pub fn copy(&self, alloc: Global) -> Result<Plain, AllocError>
        ensures { IfOk result (λ q. q ≡ self.now) }
    {
        Ok(Plain {
            program: self.program.again(),
            state: self.state.copy(alloc)?,
            steps: self.steps,
        })
    }

    /// `true`: the other one is in the same state, behind as many steps or others.
    pub fn is_same(&self, other: &Plain) -> bool
        ensures { result ≡ true → self.now.state ≡ other.now.state }
    {
        self.state.is_same(&other.state)
    }

    /// `true`: the other one has printed the same numbers, in the same order, by the same threads.
    pub fn has_same_prints(&self, other: &Plain) -> bool
        ensures { result ≡ true → self.now.state.prints ≡ other.now.state.prints }
    {
        self.state.has_same_prints(&other.state)
    }

    /// A number by which equal memories are found, from the one of what comes before.
    pub fn mixed_memory(&self, before: u64) -> u64 {
        self.state.memory.mixed(before)
    }
}
