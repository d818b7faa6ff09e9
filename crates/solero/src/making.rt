//! What is made of a checked program.
ghost use Rattle.std.specs.Prelude.{◌≡◌, ℕ, ◌<◌, List, IfOk, length};
ghost use Rattle.run_texts.specs.Report.{report_text};
ghost use Rattle.machine_types.specs.Core.{Happening, core, outcome as outcome_of};
ghost use Rattle.machine_types.specs.Faithful.{IsFaithful, IsOver, IsPlainRun};
ghost use Rattle.machine_types.specs.Schedules.{IsScheduleOf};
ghost use Rattle.machine_types.specs.Settings.{AreSettings};
ghost use Rattle.run_parts.specs.Ended.{IsEndOfRun};
ghost use Rattle.solero.specs.Answer.{IsMadeBy, text_with_prints};
ghost use Rattle.program_answers.specs.Finish.{finish_of as the_finish};
ghost use Rattle.command_words.specs.Requests.{asked_by};
ghost use Rattle.program_answers.specs.declared.answer.Due.TheVariants.{Report};
ghost use Rattle.command_words.specs.declared.request.Task.TheVariants.{Record, Replay, Run};

use checked_program::Checked;
use class_runner::{mark_text, recorded_report, report};
use command_words::{Memory, Request, Task};
use green_runner::run_green;
use jvm_types::{Gate, Outcome};
use laws_refinement::{runs_are_faithful, schedules_end_over};
use machine_types::Config;
use program_answers::answer::Due;
use program_answers::finish::finish_of;
use record_run::run_recorded;
use replay_runner::{replay, run_locked};
use run_parts::have_width;
use std::alloc::{AllocError, Global};
use std::sync::Wait;
use std::thread::Threads;
use table_runner::run_table;

/// What the task makes of the program.
pub fn made<R: Threads + Wait + Sync, G: Gate + Sync>(
    rt: &R,
    alloc: Global,
    gate: &G,
    task: Task,
    request: &Request,
    checked: &Checked,
) -> Result<Due, AllocError>
    ensures { IfOk result (λ due. IsMadeBy task (asked_by request.now) checked.now due) }
{
    match task {
        Task::Replay => replayed(alloc, request, checked),
        Task::Run => ran(rt, alloc, gate, request, checked),
        Task::Record => recorded(rt, alloc, gate, request, checked),
        Task::Mark => Ok(Due::Output(mark_text(alloc, checked)?)),
    }
}

/// Whatever happens in it, a run stands for one of the plain machine, and its report has the prints
/// of that; at the end of a schedule it is over.
pub fn is_plain(checked: &Checked, cfg: &Config)
    requires { AreSettings cfg.now }
    ensures plain { (hs : List Happening) → IsFaithful checked.now cfg.now hs }
    ensures prints { (hs : List Happening) (run : IsPlainRun checked.now cfg.now hs)
        → report_text (outcome_of (core checked.now cfg.now hs))
        ≡ text_with_prints run.state.prints (outcome_of (core checked.now cfg.now hs)) }
    ensures over { (order : List ℕ) (hs : List Happening)
        → IsScheduleOf checked.now cfg.now order hs → IsOver (core checked.now cfg.now hs) }
{
    let _program = checked.program();
    have_width(*cfg);
    runs_are_faithful();
    schedules_end_over();
}

// The report of what a run came to.
fn reported(alloc: Global, outcome: &Outcome) -> Result<Due, AllocError>
    requires { 0 < length outcome.now.threads }
    ensures { IfOk result (λ due. due ≡ Report (the_finish outcome.now) (report_text outcome.now)) }
{
    let text = report(alloc, outcome)?;
    Ok(Due::Report(finish_of(outcome), text))
}

// The report of a run in the order that is asked for.
fn replayed(alloc: Global, request: &Request, checked: &Checked) -> Result<Due, AllocError>
    ensures { IfOk result (λ due. IsMadeBy Replay (asked_by request.now) checked.now due) }
{
    is_plain(checked, &request.cfg);
    let outcome = replay(alloc, checked, &request.cfg, &request.order)?;
    reported(alloc, &outcome)
}

// The report of a run on threads of the system.
fn ran<R: Threads + Wait + Sync, G: Gate + Sync>(
    rt: &R,
    alloc: Global,
    gate: &G,
    request: &Request,
    checked: &Checked,
) -> Result<Due, AllocError>
    ensures { IfOk result (λ due. IsMadeBy Run (asked_by request.now) checked.now due) }
{
    is_plain(checked, &request.cfg);
    let outcome = end_of_run(rt, alloc, gate, request, checked)?;
    reported(alloc, &outcome)
}

// The report of a run on threads of the system under one lock, and the order of its events.
fn recorded<R: Threads + Wait + Sync, G: Gate + Sync>(
    rt: &R,
    alloc: Global,
    gate: &G,
    request: &Request,
    checked: &Checked,
) -> Result<Due, AllocError>
    ensures { IfOk result (λ due. IsMadeBy Record (asked_by request.now) checked.now due) }
{
    is_plain(checked, &request.cfg);
    let came = run_recorded(rt, alloc, gate, checked, &request.cfg, request.events)?;
    let text = recorded_report(alloc, &came.outcome, &came.order)?;
    Ok(Due::Report(finish_of(&came.outcome), text))
}

/// What a run on threads of the system comes to: on as many workers as are asked for, or else over
/// the memory that is asked for.
pub fn end_of_run<R: Threads + Wait + Sync, G: Gate + Sync>(
    rt: &R,
    alloc: Global,
    gate: &G,
    request: &Request,
    checked: &Checked,
) -> Result<Outcome, AllocError>
    ensures { IfOk result (IsEndOfRun checked.now request.now.cfg) }
{
    if let Some(green) = request.green {
        return run_green(
            rt,
            alloc,
            gate,
            checked,
            &request.cfg,
            green.workers,
            green.turn,
        );
    }
    match request.memory {
        Memory::Table => run_table(rt, alloc, gate, checked, &request.cfg),
        Memory::Locked => run_locked(rt, alloc, gate, checked, &request.cfg),
    }
}
