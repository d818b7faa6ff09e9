//! The machine and its order under the lock.

ghost use Rattle.std.specs.Prelude.{◌≡◌, ◌≤◌, ◌<◌, [], ◌∷◌, ◌++◌, ◌+◌, length, nat_le, MatchOption};
ghost use Rattle.std.specs.Prelude.{true};
ghost use Rattle.jvm_types.specs.declared.limits.TheConstants.{MOST_WORKERS};
ghost use Rattle.laws_states.specs.WorkLeft.{all_work};
ghost use Rattle.machine_types.specs.Core.{event};
ghost use Rattle.machine_types.specs.Schedules.{is_live_worker};
ghost use Rattle.record_run.specs.Kept.{HaveBegun, IsFull, IsRecordOfProgram, IsRecordOf, Kept};

use crate::recording::Recorded;
use checked_program::Checked;
use jvm_types::Room;
use replay_runner::{Machine, Shared, next_live, replay_workers};
use std::marker::{Brand, Model, PhantomData};

/// Which run it is: its program, its settings, and how many events it keeps. Each call at `Brand`
/// picks it.
pub(crate) trait Naming {
    ghost use Rattle.std.specs.Prelude.{Option};
    ghost use Rattle.record_run.specs.Kept.{NamedRecord};

    ghost run: { Option NamedRecord };
}

impl Naming for Brand {
    ghost use Rattle.std.specs.Prelude.{None};

    ghost run = { None };
}

/// The machine of the run that `J` names, and the order of the workers' events that led it to its
/// state: the first `most` of them, for which there is room. Contracts see the machine, the order
/// and `most`.
#[derive(Drop)]
pub(crate) struct Recording<J: Naming> {
    machine: Machine,
    order: Room<u8>,
    most: u32,
    of: PhantomData<J>,
}

impl<J: Naming> Model for Recording<J> {
    ghost use Rattle.std.specs.Prelude.{◌≤◌, ◌+◌, length};
    ghost use Rattle.record_run.specs.Kept.{IsKeptOf, Kept};

    ghost Value = { Kept };

    ghost view = { λ r. record { machine = r.machine; order = r.order.items; most = r.most } };

    ghost invariant = { λ r.
        IsKeptOf J.run (record { machine = r.machine; order = r.order.items; most = r.most })
        × (r.most ≤ length r.order.items + r.order.spare) };
}

impl<J: Naming> Recording<J> {
    /// Keeps a machine whose workers begin, and room for the order of their events.
    pub(crate) fn of(machine: Machine, order: Room<u8>, most: u32) -> Recording<J>
        requires named { J.run
            ≡ Some (record { program = machine.program; cfg = machine.cfg; most = most }) }
        requires begun { HaveBegun machine.program machine.cfg machine.core }
        requires none { order.items ≡ [] }
        requires room { most ≤ order.spare }
        ensures { result ≡ record { machine = machine; order = []; most = most } }
    {
        Recording {
            machine,
            order,
            most,
            of: PhantomData,
        }
    }

    /// Whether there is room for no more events.
    fn is_full(&self) -> bool
        ensures { result ≡ nat_le self.now.most (length self.now.order) }
    {
        self.most as usize <= self.order.len()
    }

    /// Whether a thread is a worker, and live.
    fn is_live_worker(&self, t: u8) -> bool
        ensures { result ≡ is_live_worker self.now.machine.core t }
    {
        0 < t && self.machine.lives(t)
    }

    /// One event of a live worker, and its number behind the order.
    fn record(&mut self, p: &Checked, t: u8)
        requires program { IsRecordOfProgram J.run p.now }
        requires live { is_live_worker self.old.machine.core t ≡ true }
        requires room { length self.old.order < self.old.most }
        ensures order { self.new.order ≡ self.old.order ++ t ∷ [] }
        ensures event { self.new.machine ≡ record self.old.machine
            { core = event self.old.machine.program self.old.machine.core t } }
        ensures most { self.new.most ≡ self.old.most }
        ensures less { all_work self.new.machine.core < all_work self.old.machine.core }
    {
        self.machine.event(p, t);
        self.order.push(t);
    }

    /// Whose event is recorded next: that of the least live worker of a number at or above, or of
    /// all where none is.
    fn next_turn(&self, from: u8) -> Option<u8>
        requires { 1 ≤ from }
        ensures { MatchOption result (IsFull self.now) (λ t.
            (length self.now.order < self.now.most)
            × (is_live_worker self.now.machine.core t ≡ true) × (t ≤ MOST_WORKERS)) }
    {
        if self.is_full() {
            return None;
        }
        next_live(&self.machine, 1, from)
    }

    /// Gives each live worker an event in its turn, in the order of their numbers, and records it,
    /// while there is room.
    fn record_rounds(&mut self, p: &Checked)
        requires { IsRecordOfProgram J.run p.now }
        ensures { IsFull self.new }
    {
        let mut from = 1;
        while let Some(t) = self.next_turn(from) {
            self.record(p, t);
            from = t + 1;
        }
    }

    /// Runs what is left of the run, which goes as a replay does behind its order, and answers what
    /// the run came to.
    pub(crate) fn finish(self, p: &Checked) -> Recorded
        requires program { IsRecordOfProgram J.run p.now }
        requires full { IsFull self }
        ensures { IsRecordOf J.run result }
    {
        let mut machine = self.machine;
        replay_workers(&mut machine, p, &[]);
        Recorded {
            outcome: machine.outcome(),
            order: self.order.into_rows(),
        }
    }
}

impl<J: Naming> Shared for Recording<J> {
    ghost use Rattle.record_run.specs.Kept.{IsEventKept, IsFull, IsRecordOfProgram};

    ghost takes = { IsRecordOfProgram J.run };

    ghost makes = { IsEventKept };

    ghost over = { IsFull };

    fn make_event(&mut self, p: &Checked, t: u8) -> Option<u32> {
        if self.is_full() || !self.is_live_worker(t) {
            return None;
        }
        self.record(p, t);
        Some(self.machine.turns(t))
    }

    fn make_rest(&mut self, p: &Checked) {
        self.record_rounds(p);
    }
}
