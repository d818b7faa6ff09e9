//! The machine: the words that all threads share, and the threads.

ghost use Rattle.std.specs.Prelude.{◌≡◌, ◌+◌, ◌≤◌, ◌<◌, ℕ, true, false, length, map, slice_get};
ghost use Rattle.std.specs.Prelude.{slice_set, unwrap_or, Some, IfOk};
ghost use Rattle.std.specs.Option.{option_copied};
ghost use Rattle.machine_types.specs.Core.{event, is_live, lives, may_begin, next, outcome, start};
ghost use Rattle.machine_types.specs.Settings.{AreSettings};
ghost use Rattle.jvm_types.specs.declared.limits.TheConstants.{MOST_WORKERS};
ghost use Rattle.laws_states.specs.WorkLeft.{all_work, work_left};
ghost use Rattle.run_parts.specs.Parts.{own_begun};
ghost use Rattle.replay_runner.specs.Running.{Running, run_on, turns_of};
ghost use Rattle.replay_runner.specs.RunningStates.{AreRunning, IsThreadOf};

use checked_program::Checked;
use frames::ThreadState;
use jvm_types::{Outcome, Room, Rows, ThreadReport};
use laws_states::{
    events_keep_state, events_lessen_all_work, events_lessen_work, next_keeps_state,
    parts_keep_threads, reached_fits, start_has_state, states_have_facts,
};
use lists::Told;
use machine_types::Config;
use run_parts::{
    done_end, have_finished, have_width, may_begin, shares_are_next, start_threads, start_words,
};
use std::alloc::{AllocError, Global};
use std::marker::Model;
use step_core::{EntryTables, event, run_ahead};

/// A machine that runs a checked program. Contracts see the program, the settings, and its state.
///
/// Only `start` takes memory.
#[derive(Drop)]
pub struct Machine {
    program: Told<Checked>,
    tables: EntryTables,
    cfg: Config,
    words: Rows<u64>,
    threads: Vec<ThreadState>,
    reports: Room<ThreadReport>,
}

impl Model for Machine {
    ghost use Rattle.std.specs.Prelude.{◌≡◌, ◌≤◌, [], length};
    ghost use Rattle.replay_runner.specs.Running.{Running};
    ghost use Rattle.replay_runner.specs.RunningStates.{AreRunning};

    ghost Value = { Running };

    ghost view = { λ m.
        record {
          program = m.program.told;
          cfg = m.cfg;
          core = record { words = m.words; threads = m.threads.items };
        } };

    ghost invariant = { λ m.
        AreRunning (record {
          program = m.program.told;
          cfg = m.cfg;
          core = record { words = m.words; threads = m.threads.items };
        })
        × (m.reports.items ≡ []) × (length m.threads.items ≤ m.reports.spare)
        × (m.tables ≡ m.program.told.program) };
}

/// Each thread takes its share of the begin of a part.
fn begin_part(threads: &mut Vec<ThreadState>)
    ensures { threads.new.items ≡ map own_begun threads.old.items }
{
    for i in 0..threads.len() {
        threads[i].begin_part();
    }
}

/// Makes the next event of a thread of a machine.
fn go(s: &mut ThreadState, p: &Checked, words: &mut Rows<u64>)
    requires { (m : Running) × (t : ℕ) × IsThreadOf m p.now t s.old words.old }
    ensures { (m : Running) (t : ℕ) → IsThreadOf m p.now t s.old words.old
        → IsThreadOf (run_on m t 1) p.now t s.new words.new }
{
    reached_fits();
    states_have_facts();
    events_keep_state();
    event(s, p, words);
}

/// Makes events of a live thread of a machine: those that can be made ahead, and one more. They
/// leave less for it to do.
fn go_far(s: &mut ThreadState, p: &Checked, tables: &EntryTables, words: &mut Rows<u64>)
    requires tables { tables.now ≡ p.now.program }
    requires thread { (m : Running) × (t : ℕ) × IsThreadOf m p.now t s.old words.old }
    requires live { is_live s.old.phase ≡ true }
    ensures on { (m : Running) (t : ℕ) → IsThreadOf m p.now t s.old words.old
        → (n : ℕ) × IsThreadOf (run_on m t n) p.now t s.new words.new }
    ensures less { work_left s.new < work_left s.old }
{
    reached_fits();
    states_have_facts();
    events_keep_state();
    events_lessen_work();
    let _ahead = run_ahead(s, p, tables, words);
    go(s, p, words);
}

/// Makes the events of a thread of a machine until it is not live. Each of them leaves less for it
/// to do.
fn run_far(s: &mut ThreadState, p: &Checked, tables: &EntryTables, words: &mut Rows<u64>)
    requires tables { tables.now ≡ p.now.program }
    requires thread { (m : Running) × (t : ℕ) × IsThreadOf m p.now t s.old words.old }
    ensures on { (m : Running) (t : ℕ) → IsThreadOf m p.now t s.old words.old
        → (n : ℕ) × IsThreadOf (run_on m t n) p.now t s.new words.new }
    ensures over { is_live s.new.phase ≡ false }
{
    while s.is_live() {
        go_far(s, p, tables, words);
    }
}

impl Machine {
    /// The machine at the start of a run of a program, by these settings. It takes all the memory
    /// that the run will use.
    pub fn start(alloc: Global, p: &Checked, cfg: &Config) -> Result<Self, AllocError>
        requires { AreSettings cfg.now }
        ensures { IfOk result
            (λ m. m ≡ record { program = p.now; cfg = cfg.now; core = start p.now cfg.now }) }
    {
        parts_keep_threads();
        start_has_state();
        have_width(*cfg);
        let tables = EntryTables::of(alloc, p)?;
        let words = start_words(alloc, p.program())?;
        let threads = start_threads(alloc, p, cfg)?;
        let reports = Room::with_room(alloc, threads.len())?;
        let program = Told::of(p);
        Ok(Machine {
            program,
            tables,
            cfg: *cfg,
            words,
            threads,
            reports,
        })
    }

    /// Whether a thread is there and live: its part has begun and has not ended.
    #[inline(always)]
    pub fn lives(&self, t: u8) -> bool
        ensures { result ≡ lives self.now.core t }
    {
        match self.threads.get(t as usize) {
            Some(thread) => thread.is_live(),
            None => false,
        }
    }

    /// How many workers there are.
    #[inline(always)]
    pub fn workers(&self) -> u8
        ensures count { result + 1 ≡ length self.now.core.threads }
        ensures program { result ≡ self.now.program.program.workers }
        ensures few { result ≤ MOST_WORKERS }
    {
        (self.threads.len() - 1) as u8
    }

    /// Thread `t`, where there is one. The state is one that a run may reach.
    pub fn thread(&self, t: u8) -> Option<&ThreadState>
        ensures thread { option_copied result ≡ slice_get self.now.core.threads t }
        ensures runs { AreRunning self.now }
    {
        let _settings = &self.cfg;
        self.threads.get(t as usize)
    }

    /// A word that all threads share; 0 where there is no word of that number.
    pub fn word(&self, number: u32) -> u64
        ensures { result ≡ unwrap_or (slice_get self.now.core.words number) 0 }
    {
        match self.words.get(number as usize) {
            Some(word) => *word,
            None => 0,
        }
    }

    /// How many turns thread `t` has failed since its last entry or wait: 0 where there is no such
    /// thread.
    #[inline(always)]
    pub fn turns(&self, t: u8) -> u32
        ensures { result ≡ turns_of (slice_get self.now.core.threads t) }
    {
        match self.threads.get(t as usize) {
            Some(thread) => thread.turns(),
            None => 0,
        }
    }

    /// One event of thread `t`, which is live.
    #[inline(always)]
    pub(crate) fn live_event(&mut self, p: &Checked, t: u8)
        requires program { p.now ≡ self.old.program }
        requires live { lives self.old.core t ≡ true }
        ensures event { self.new
            ≡ record self.old { core = event self.old.program self.old.core t } }
        ensures less { all_work self.new.core < all_work self.old.core }
    {
        events_lessen_all_work();
        go(&mut self.threads[t as usize], p, &mut self.words);
    }

    /// One event of thread `t`: `false` where it is not live or there is none, and then nothing
    /// changes.
    #[inline(always)]
    pub fn event(&mut self, p: &Checked, t: u8) -> bool
        requires { p.now ≡ self.old.program }
        ensures live { result ≡ lives self.old.core t }
        ensures event { self.new
            ≡ record self.old { core = event self.old.program self.old.core t } }
        ensures still { result ≡ false → self.new ≡ self.old }
        ensures less { lives self.old.core t ≡ true
            → all_work self.new.core < all_work self.old.core }
    {
        if !self.lives(t) {
            return false;
        }
        self.live_event(p, t);
        true
    }

    /// Events of thread `t` alone, until it is not live.
    pub fn run_alone(&mut self, p: &Checked, t: u8)
        requires { p.now ≡ self.old.program }
        ensures on { (n : ℕ) × (self.new ≡ run_on self.old t n) }
        ensures over { lives self.new.core t ≡ false }
        ensures less { lives self.old.core t ≡ true
            → all_work self.new.core < all_work self.old.core }
    {
        events_keep_state();
        events_lessen_all_work();
        if self.lives(t) {
            run_far(
                &mut self.threads[t as usize],
                p,
                &self.tables,
                &mut self.words,
            );
        }
    }

    /// Whether the next part may begin: that of the workers when `init` has returned, or `done`
    /// when each worker has returned or was ended by an exception.
    pub fn may_begin(&self) -> bool
        ensures { result ≡ may_begin self.now.core.threads }
    {
        match self.threads.as_slice() {
            [first, workers @ ..] => may_begin(first, have_finished(workers)),
            [] => false,
        }
    }

    /// Begins the next part: `false` where it may not begin, and then nothing changes.
    pub fn next(&mut self, p: &Checked) -> bool
        requires { p.now ≡ self.old.program }
        ensures may { result ≡ may_begin self.old.core.threads }
        ensures next { self.new ≡ record self.old { core = next self.old.program self.old.core } }
        ensures still { result ≡ false → self.new ≡ self.old }
    {
        let _ = p;
        parts_keep_threads();
        next_keeps_state();
        shares_are_next();
        if !self.may_begin() {
            return false;
        }
        if self.threads[0].part() == 0 {
            begin_part(&mut self.threads);
        } else {
            self.threads[0].begin_part();
        }
        true
    }

    /// What the run came to: the report of each thread, and how `done` ended. It takes no memory.
    pub fn outcome(self) -> Outcome
        ensures { result ≡ outcome self.core }
    {
        let done = done_end(&self.threads[0]);
        let mut reports = self.reports;
        for thread in self.threads {
            reports.push(thread.into_report());
        }
        Outcome {
            threads: reports.into_rows(),
            done,
        }
    }
}
