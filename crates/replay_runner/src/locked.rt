//! The machine under the lock.

ghost use Rattle.std.specs.Prelude.{◌≡◌, ◌≤◌, ◌+◌, ◌<◌, ℕ, true, false, length, IfSome};
ghost use Rattle.std.specs.Prelude.{MatchOption};
ghost use Rattle.jvm_types.specs.declared.limits.TheConstants.{MOST_WORKERS};
ghost use Rattle.machine_types.specs.Core.{event, lives, may_begin, next};
ghost use Rattle.machine_types.specs.Faithful.{IsOver};
ghost use Rattle.laws_states.specs.WorkLeft.{all_work};
ghost use Rattle.replay_runner.specs.Running.{IsInTurn, run_on};
ghost use Rattle.replay_runner.specs.Locked.{IsEndOf, IsMachineOf, IsOfProgram};

use crate::ending::{next_live, run_live};
use crate::running::Machine;
use crate::workers::Shared;
use checked_program::Checked;
use jvm_types::Outcome;
use laws_states::one_more_happens;
use std::marker::{Brand, Model, PhantomData};

/// Which run it is: its program and its settings. Each call at `Brand` picks it.
pub(crate) trait Naming {
    ghost use Rattle.std.specs.Prelude.{Option};
    ghost use Rattle.replay_runner.specs.Locked.{Named};

    ghost run: { Option Named };
}

impl Naming for Brand {
    ghost use Rattle.std.specs.Prelude.{None};

    ghost run = { None };
}

/// The machine of the run that `J` names, in a state that this run reaches, whichever thread made
/// the last event. Contracts see the machine.
#[derive(Drop)]
pub(crate) struct Locked<J: Naming> {
    machine: Machine,
    of: PhantomData<J>,
}

impl<J: Naming> Model for Locked<J> {
    ghost use Rattle.replay_runner.specs.Locked.{IsMachineOf};
    ghost use Rattle.replay_runner.specs.Running.{Running};

    ghost Value = { Running };

    ghost view = { λ l. l.machine };

    ghost invariant = { λ l. IsMachineOf J.run l.machine };
}

impl<J: Naming> Locked<J> {
    /// Keeps a machine for the lock.
    pub(crate) fn of(machine: Machine) -> Locked<J>
        requires { IsMachineOf J.run machine }
        ensures { result ≡ machine }
    {
        Locked {
            machine,
            of: PhantomData,
        }
    }

    /// How many workers there are.
    pub(crate) fn workers(&self) -> u8
        ensures count { result + 1 ≡ length self.now.core.threads }
        ensures few { result ≤ MOST_WORKERS }
    {
        self.machine.workers()
    }

    /// The least live thread of a number at or above, or of all where none is.
    pub(crate) fn next_live(&self, from: u8) -> Option<u8>
        ensures live { MatchOption result ((t : ℕ) → lives self.now.core t ≡ false)
            (λ t. (lives self.now.core t ≡ true) × (t ≤ MOST_WORKERS)) }
        ensures turn { IfSome result (IsInTurn self.now.core 0 from) }
    {
        next_live(&self.machine, 0, from)
    }

    /// One event of thread `t`: `false` where it is not live, and then nothing changes.
    pub(crate) fn event(&mut self, p: &Checked, t: u8) -> bool
        requires { IsOfProgram J.run p.now }
        ensures live { result ≡ lives self.old.core t }
        ensures event { self.new
            ≡ record self.old { core = event self.old.program self.old.core t } }
        ensures still { result ≡ false → self.new ≡ self.old }
        ensures less { lives self.old.core t ≡ true
            → all_work self.new.core < all_work self.old.core }
    {
        one_more_happens();
        self.machine.event(p, t)
    }

    /// Events of thread `t` alone, until it is not live.
    pub(crate) fn run_alone(&mut self, p: &Checked, t: u8)
        requires { IsOfProgram J.run p.now }
        ensures on { (n : ℕ) × (self.new ≡ run_on self.old t n) }
        ensures over { lives self.new.core t ≡ false }
    {
        one_more_happens();
        self.machine.run_alone(p, t);
    }

    /// Begins the next part: `false` where it may not begin, and then nothing changes.
    pub(crate) fn next(&mut self, p: &Checked) -> bool
        requires { IsOfProgram J.run p.now }
        ensures may { result ≡ may_begin self.old.core.threads }
        ensures next { self.new ≡ record self.old { core = next self.old.program self.old.core } }
        ensures still { result ≡ false → self.new ≡ self.old }
    {
        one_more_happens();
        self.machine.next(p)
    }

    /// What the run came to, where it is over.
    pub(crate) fn outcome(self) -> Outcome
        requires { IsOver self.core }
        ensures { IsEndOf J.run result }
    {
        self.machine.outcome()
    }
}

impl<J: Naming> Shared for Locked<J> {
    ghost use Rattle.std.specs.Prelude.{◌≡◌, ℕ, false};
    ghost use Rattle.machine_types.specs.Core.{lives};
    ghost use Rattle.replay_runner.specs.Locked.{IsEventUnderLock, IsOfProgram};

    ghost takes = { IsOfProgram J.run };

    ghost makes = { IsEventUnderLock };

    ghost over = { λ l. (t : ℕ) → lives l.core t ≡ false };

    fn make_event(&mut self, p: &Checked, t: u8) -> Option<u32> {
        if self.event(p, t) {
            Some(self.machine.turns(t))
        } else {
            None
        }
    }

    fn make_rest(&mut self, p: &Checked) {
        run_live(self, p);
    }
}
