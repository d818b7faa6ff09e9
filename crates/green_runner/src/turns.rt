//! A run in turns, on one thread of the system.

ghost use Rattle.std.specs.Prelude.{◌≡◌, ◌<◌, ◌++◌, ℕ, replicate, true, false, IfOk};
ghost use Rattle.machine_types.specs.Core.{lives};
ghost use Rattle.machine_types.specs.Schedules.{First, Ordered};
ghost use Rattle.machine_types.specs.Settings.{AreSettings};
ghost use Rattle.laws_states.specs.WorkLeft.{all_work};
ghost use Rattle.green_runner.specs.Turning.{IsRunFinished, IsLedByOrder, NoWorkerLives};
ghost use Rattle.green_runner.specs.Turns.{IsRunInTurns, one_round, rounds};

use crate::passing::either;
use checked_program::Checked;
use jvm_types::Outcome;
use machine_types::Config;
use replay_runner::Machine;
use std::alloc::{AllocError, Global};

/// A turn of worker `t`: tells whether it was live.
fn take_turn(machine: &mut Machine, p: &Checked, t: u8, turn: u32) -> bool
    requires program { p.now ≡ machine.old.program }
    requires worker { 0 < t }
    requires some { 0 < turn }
    ensures live { result ≡ lives machine.old.core t }
    ensures gives { IsLedByOrder machine.old (replicate turn t) machine.new }
    ensures still { result ≡ false → machine.new ≡ machine.old }
    ensures less { result ≡ true → all_work machine.new.core < all_work machine.old.core }
{
    for made in 0..turn {
        if !machine.event(p, t) {
            return made > 0;
        }
    }
    true
}

/// A turn of each worker, in order of numbers: tells whether one was live.
fn take_round(machine: &mut Machine, p: &Checked, turn: u32) -> bool
    requires program { p.now ≡ machine.old.program }
    requires some { 0 < turn }
    ensures gives { IsLedByOrder machine.old (one_round turn p.now.program.workers) machine.new }
    ensures dead { result ≡ false → NoWorkerLives machine.new.core }
    ensures less { result ≡ true → all_work machine.new.core < all_work machine.old.core }
{
    let mut some = false;
    let count = machine.workers();
    for i in 0..count {
        let live = take_turn(machine, p, i + 1, turn);
        some = either(some, live);
    }
    some
}

/// Round after round, until no worker is live. Each round leaves less for them to do.
fn run_rounds(machine: &mut Machine, p: &Checked, turn: u32)
    requires program { p.now ≡ machine.old.program }
    requires some { 0 < turn }
    ensures gives { (n : ℕ)
        × IsLedByOrder machine.old (rounds turn p.now.program.workers n) machine.new }
    ensures dead { NoWorkerLives machine.new.core }
{
    while take_round(machine, p, turn) {}
}

/// `done`, where it may begin.
fn run_done(machine: &mut Machine, p: &Checked)
    requires program { p.now ≡ machine.old.program }
    requires dead { NoWorkerLives machine.old.core }
    ensures { IsRunFinished machine.old (λ rest. Ordered rest) machine.new }
{
    if machine.next(p) {
        machine.run_alone(p, 0);
    }
}

/// The workers in their turns, and `done`.
fn run_workers(machine: &mut Machine, p: &Checked, turn: u32)
    requires program { p.now ≡ machine.old.program }
    requires some { 0 < turn }
    ensures { (n : ℕ) × IsRunFinished machine.old
        (λ rest. Ordered (rounds turn p.now.program.workers n ++ rest)) machine.new }
{
    run_rounds(machine, p, turn);
    run_done(machine, p);
}

/// `init`, and what comes behind it.
fn run_parts(machine: &mut Machine, p: &Checked, turn: u32)
    requires program { p.now ≡ machine.old.program }
    requires some { 0 < turn }
    ensures { (n : ℕ) × IsRunFinished machine.old
        (λ rest. First (rounds turn p.now.program.workers n ++ rest)) machine.new }
{
    machine.run_alone(p, 0);
    if machine.next(p) {
        run_workers(machine, p, turn);
    }
}

/// Runs a program to its end on the caller's thread, its workers in turns of so many events. Its
/// error is want of memory.
pub(crate) fn run_in_turns(
    alloc: Global,
    p: &Checked,
    cfg: &Config,
    turn: u32,
) -> Result<Outcome, AllocError>
    requires settings { AreSettings cfg.now }
    requires some { 0 < turn }
    ensures { IfOk result (IsRunInTurns p.now cfg.now turn) }
{
    let mut machine = Machine::start(alloc, p, cfg)?;
    run_parts(&mut machine, p, turn);
    Ok(machine.outcome())
}
