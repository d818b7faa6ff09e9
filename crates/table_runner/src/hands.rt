//! Some threads of a run, and the seat from which they step.

ghost use Rattle.std.specs.Prelude.{◌≡◌, ◌≢◌, ◌<◌, ◌≤◌, ℕ, [], length, map, IsSome, is_some, None};
ghost use Rattle.std.specs.Prelude.{Some, true, false, replicate, slice_set};
ghost use Rattle.std.specs.Option.{option_or};
ghost use Rattle.machine_types.specs.Core.{is_live_thread, start};
ghost use Rattle.machine_types.specs.Settings.{AreSettings};
ghost use Rattle.laws_states.specs.RunFacts.{HaveWidth};
ghost use Rattle.table_rule.specs.Views.{HasThreads, HoldsAll, held_in};
ghost use Rattle.table_runner.specs.Ending.{IsOutcome};
ghost use Rattle.table_runner.specs.Handed.{IsEventOf, IsTableOf};
ghost use Rattle.table_runner.specs.Running.{AreSame, IsRunOn};
ghost use Rattle.table_runner.specs.Sharing.{AreJoined, IsNextPart, thread_alone, view_without};
ghost use Rattle.table_runner.specs.Sharing.{without_thread};

use crate::closing::{done_end, reports_of};
use crate::events::{go_at, go_on_at};
use crate::parts::{begin_parts, may_begin};
use crate::rule::MOST_THREADS;
use crate::sharing::{begin, cut, glue};
use crate::stepping::{CoreSeat, CoreTable};
use checked_program::Checked;
use frames::ThreadState;
use jvm_types::{Outcome, Room, ThreadReport};
use laws_states::{parts_keep_threads, runs_have_state};
use lists::Told;
use machine_types::Config;
use run_parts::shares_are_next;
use std::marker::Model;

/// Some threads of a run on a table, and a seat at it. Contracts see of which run and table, the
/// threads, and what the seat knows of them: each is a thread of some state that the run reaches.
///
/// None of its methods waits for anyone or takes memory; all of them return.
#[derive(Drop)]
pub struct Hands {
    program: Told<Checked>,
    cfg: Config,
    seat: CoreSeat,
    threads: [Option<ThreadState>; MOST_THREADS],
    // with thread 0
    reports: Option<Room<ThreadReport>>,
}

impl Model for Hands {
    ghost use Rattle.std.specs.Prelude.{◌≡◌, [], length};
    ghost use Rattle.table_runner.specs.Handed.{AreHands, Handed, HasReportRoom};

    ghost Value = { Handed };

    ghost view = { λ h.
        record {
          program = h.program.told;
          cfg = h.cfg;
          table_id = h.seat.table_id;
          steps = h.seat.steps;
          threads = h.threads;
          view = h.seat.view;
        } };

    ghost invariant = { λ h.
        AreHands (record {
          program = h.program.told;
          cfg = h.cfg;
          table_id = h.seat.table_id;
          steps = h.seat.steps;
          threads = h.threads;
          view = h.seat.view;
        }) × HasReportRoom h.threads h.reports };
}

impl Hands {
    /// All threads of a run at its start, and the room for their reports.
    pub(crate) fn held(
        p: &Checked,
        cfg: &Config,
        seat: CoreSeat,
        threads: [Option<ThreadState>; MOST_THREADS],
        reports: Room<ThreadReport>,
    ) -> Hands
        requires settings { AreSettings cfg.now × HaveWidth cfg.now }
        requires words { (seat.table_id.words ≡ length (start p.now cfg.now).words)
            × (seat.table_id.slots ≡ 0) }
        requires seat { seat.view ≡ map Some (start p.now cfg.now).threads }
        requires threads { HasThreads threads (start p.now cfg.now).threads }
        requires room { (reports.items ≡ []) × (9 ≤ reports.spare) }
        ensures { result
            ≡ record {
              program = p.now;
              cfg = cfg.now;
              table_id = seat.table_id;
              steps = seat.steps;
              threads = threads;
              view = seat.view;
            } }
    {
        let _checked = p.program();
        Hands {
            program: Told::of(p),
            cfg: *cfg,
            seat,
            threads,
            reports: Some(reports),
        }
    }

    /// Whether these hands hold thread `t`.
    pub fn holds(&self, t: u8) -> bool
        ensures { result ≡ is_some (held_in self.now.threads t) }
    {
        match self.threads.get(t as usize) {
            Some(thread) => thread.is_some(),
            None => false,
        }
    }

    /// Tells that they hold no thread that the program doesn't have.
    pub fn hold_no_more(&self)
        ensures { (t : ℕ) → self.now.program.program.workers < t
            → held_in self.now.threads t ≡ None }
    {
        let _cfg = self.cfg;
    }

    /// The next event of thread `t`: `false` where it is not live, and then nothing changes. It
    /// happens in a state that the run reaches; where it wants an access, that is exactly one step
    /// on one word, by which the seat knows what the thread becomes, and else there is none.
    pub fn event(&mut self, table: &CoreTable, p: &Checked, t: u8) -> bool
        requires table { IsTableOf table.now.table_id table.now.program
            table.now.cfg self.old }
        requires program { p.now ≡ self.old.program }
        requires held { IsSome (held_in self.old.threads t) }
        ensures live { result ≡ is_live_thread (held_in self.old.threads t) }
        ensures still { result ≡ false → self.new ≡ self.old }
        ensures event { result ≡ true → IsEventOf self.old t self.new }
    {
        go_at(&mut self.threads[t as usize], &mut self.seat, table, p, t)
    }

    /// The events of thread `t` until it is not live.
    pub(crate) fn run(&mut self, table: &CoreTable, p: &Checked, t: u8)
        requires table { IsTableOf table.now.table_id table.now.program
            table.now.cfg self.old }
        requires program { p.now ≡ self.old.program }
        requires held { IsSome (held_in self.old.threads t) }
        ensures over { is_live_thread (held_in self.new.threads t) ≡ false }
        ensures on { IsRunOn t self.old self.new }
    {
        go_on_at(&mut self.threads[t as usize], &mut self.seat, table, p, t);
    }

    /// Hands that hold thread `t` alone, which these no longer hold.
    pub fn split(&mut self, table: &CoreTable, t: u8) -> Hands
        requires table { IsTableOf table.now.table_id table.now.program
            table.now.cfg self.old }
        requires held { IsSome (held_in self.old.threads t) }
        requires another { (u : ℕ) × (u ≢ t) × IsSome (held_in self.old.threads u) }
        ensures rest { self.new ≡ without_thread self.old t }
        ensures alone { result ≡ thread_alone self.old t }
        ensures small { t < 9 }
    {
        let thread = take(&mut self.threads, t);
        let threads = alone(thread, t);
        let seat = cut(table, &mut self.seat, t);
        let reports = take_room(&mut self.reports, t);
        Hands {
            program: self.program.again(),
            cfg: self.cfg,
            seat,
            threads,
            reports,
        }
    }

    /// These hold what the others held.
    pub fn join(&mut self, table: &CoreTable, other: Hands)
        requires table { IsTableOf table.now.table_id table.now.program
            table.now.cfg self.old }
        requires other { IsTableOf table.now.table_id table.now.program
            table.now.cfg other }
        ensures { AreJoined self.old other self.new }
    {
        let Hands {
            program: _,
            cfg: _,
            seat,
            mut threads,
            reports,
        } = other;
        glue(table, &mut self.seat, seat);
        merge(&mut self.threads, &mut threads);
        join_room(&mut self.reports, reports);
    }

    /// Begins the next part, where these hands hold all threads: `false` where it may not begin,
    /// and then nothing changes.
    pub fn next(&mut self, table: &CoreTable, p: &Checked) -> bool
        requires table { IsTableOf table.now.table_id table.now.program
            table.now.cfg self.old }
        requires program { p.now ≡ self.old.program }
        requires all { HoldsAll self.old.program self.old.threads }
        ensures next { IsNextPart self.old self.new result }
        ensures still { result ≡ false → self.new ≡ self.old }
        ensures same { AreSame self.old self.new }
    {
        let _ = p;
        parts_keep_threads();
        runs_have_state();
        shares_are_next();
        if !may_begin(&self.threads) {
            return false;
        }
        begin_parts(&mut self.threads);
        begin(table, &mut self.seat, &self.threads);
        true
    }

    /// What the run came to, where these hands hold all of its threads: the outcome of a state that
    /// it reaches, whose threads are these.
    pub fn close(self, table: CoreTable) -> Outcome
        requires table { IsTableOf table.table_id table.program
            table.cfg self }
        requires all { HoldsAll self.program self.threads }
        ensures { IsOutcome self result }
    {
        let Hands {
            program: _,
            cfg: _,
            seat,
            mut threads,
            reports,
        } = self;
        let done = done_end(&threads[0]);
        table.close(seat);
        Outcome {
            threads: reports_of(&mut threads, the_room(reports)),
            done,
        }
    }
}

/// The room that is there.
fn the_room(reports: Option<Room<ThreadReport>>) -> Room<ThreadReport>
    requires { IsSome reports }
    ensures { reports ≡ Some result }
{
    match reports {
        Some(room) => room,
        None => unreachable!(),
    }
}

/// The room goes with thread 0.
fn take_room(reports: &mut Option<Room<ThreadReport>>, t: u8) -> Option<Room<ThreadReport>>
    ensures goes { t ≡ 0 → (result ≡ reports.old) × (reports.new ≡ None) }
    ensures stays { t ≢ 0 → (result ≡ None) × (reports.new ≡ reports.old) }
{
    if t == 0 { reports.take() } else { None }
}

/// There is room where there was some.
fn join_room(reports: &mut Option<Room<ThreadReport>>, others: Option<Room<ThreadReport>>)
    ensures some { IsSome reports.old → reports.new ≡ reports.old }
    ensures none { reports.old ≡ None → reports.new ≡ others }
{
    if reports.is_none() {
        *reports = others;
    }
}

/// Takes a thread out of its place.
fn take(threads: &mut [Option<ThreadState>; MOST_THREADS], t: u8) -> Option<ThreadState>
    requires { IsSome (held_in threads.old t) }
    ensures small { t < 9 }
    ensures taken { result ≡ held_in threads.old t }
    ensures left { threads.new ≡ view_without t threads.old }
{
    threads[t as usize].take()
}

/// One thread, in its place.
fn alone(thread: Option<ThreadState>, t: u8) -> [Option<ThreadState>; MOST_THREADS]
    requires { t < 9 }
    ensures { result ≡ slice_set (replicate 9 None) t thread }
{
    let mut threads = [None, None, None, None, None, None, None, None, None];
    threads[t as usize] = thread;
    threads
}

/// Takes in the threads that others hold, where there is none.
fn merge(
    threads: &mut [Option<ThreadState>; MOST_THREADS],
    others: &mut [Option<ThreadState>; MOST_THREADS],
)
    ensures { (t : ℕ)
        → held_in threads.new t ≡ option_or (held_in threads.old t) (held_in others.old t) }
{
    for i in 0..MOST_THREADS {
        if threads[i].is_none() {
            threads[i] = others[i].take();
        }
    }
}
