//! The trace of a run.

ghost use Rattle.std.specs.Prelude.{◌≡◌, ◌<◌, ◌≤◌, true, length, replicate, [], Err, IfOk, OnErr};
ghost use Rattle.std.specs.Prelude.{OnOk};
ghost use Rattle.machine_types.specs.Core.{Of, NextPart, lives};
ghost use Rattle.machine_types.specs.Schedules.{First, turn_at};
ghost use Rattle.machine_types.specs.Settings.{AreSettings};
ghost use Rattle.laws_states.specs.WorkLeft.{all_work};
ghost use Rattle.run_trace.specs.EventLines.{begin_text, next_line_number};
ghost use Rattle.run_trace.specs.ReportJson.{report_in};
ghost use Rattle.run_trace.specs.Traces.{IsPut, IsStarted, IsTraced, IsWalk, IsWalkToEnd};
ghost use Rattle.run_trace.specs.Traces.{IsHappeningTold, IsTracedBehind};
ghost use Rattle.run_trace.specs.declared.traces.TraceError.TheVariants.{Memory};
ghost use Rattle.run_trace.specs.Turns.{IsNoEvent, next_ahead, parts_ahead, stage_of};

use crate::events::{Part, make_event, make_part};
use crate::report_json::report_of;
use crate::stands::{Stand, no_stands};
use crate::turns::{Next, Progress, next_turn};
use checked_program::Checked;
use host_io::sink::{Sink, SinkFailed};
use host_io::writing::write_whole;
use json_lines::Form;
use jvm_types::{Bytes, Outcome, Rows};
use laws_states::every_order_has_run;
use machine_types::Config;
use place_names::Names;
use replay_runner::Machine;
use run_parts::have_width;
use std::alloc::{AllocError, Global};
use tellings::{Fact, write_told};

/// Why a trace was not written whole.
#[derive(Clone, Copy, Debug, PartialEq, Eq)]
pub enum TraceError {
    /// There was no memory.
    Memory,
    /// The sink failed.
    Failed,
}

/// A run that is traced.
#[derive(Drop)]
pub struct Tracing {
    machine: Machine,
    /// The number of the next event.
    number: u64,
    /// How many lines are shown.
    shown: u64,
    /// How many steps of the plain machine each thread owes of its open attempt.
    owed: Rows<u64>,
    /// Where each thread made its last instruction.
    stands: Rows<Stand>,
    /// The lines of the ends so far that are no returns.
    ends: Vec<u8>,
}

/// No thread of so many owes a step.
fn nothing_owed(alloc: Global, threads: usize) -> Result<Rows<u64>, AllocError>
    ensures { IfOk result (λ owed. owed ≡ replicate threads 0) }
{
    Ok(Rows::from_vec(vec![in alloc; 0; threads]?))
}

/// The run at its start.
fn start(alloc: Global, p: &Checked, cfg: &Config) -> Result<Tracing, TraceError>
    requires { AreSettings cfg.now }
    ensures ok { IfOk result (IsStarted p.now cfg.now) }
    ensures err { OnErr result (result ≡ Err Memory) }
{
    let machine = match Machine::start(alloc, p, cfg) {
        Ok(machine) => machine,
        Err(AllocError) => return Err(TraceError::Memory),
    };
    let threads = p.workers() as usize + 1;
    let owed = match nothing_owed(alloc, threads) {
        Ok(owed) => owed,
        Err(AllocError) => return Err(TraceError::Memory),
    };
    let stands = match no_stands(alloc, threads) {
        Ok(stands) => stands,
        Err(AllocError) => return Err(TraceError::Memory),
    };
    Ok(Tracing {
        machine,
        number: 1,
        shown: 0,
        owed,
        stands,
        ends: Vec::new(alloc),
    })
}

/// The number of the event behind one; it stands still at its end.
fn next_number(number: u64) -> u64
    ensures { result ≡ next_line_number number }
{
    number.saturating_add(1)
}

/// Writes a text, or answers why not.
fn write_text<K: Sink>(sink: &mut K, text: &[u8]) -> Result<(), TraceError>
    ensures { IsPut (K.text sink.old) (K.text sink.new) (K.faults sink.old) (K.faults sink.new)
        text.now result }
{
    match write_whole(sink, text) {
        Ok(()) => Ok(()),
        Err(SinkFailed) => Err(TraceError::Failed),
    }
}

/// Makes the next event of a live thread, and writes its line, where one is shown.
fn tell_event<K: Sink>(
    alloc: Global,
    trace: &mut Tracing,
    p: &Checked,
    names: &Names,
    part: Part,
    t: u8,
    sink: &mut K,
) -> Result<(), TraceError>
    requires program { p.now ≡ trace.old.machine.program }
    requires live { lives trace.old.machine.core t ≡ true }
    ensures told { IsHappeningTold p.now names.now part (Of t) trace.old trace.new (K.text sink.old)
        (K.text sink.new) (K.faults sink.old) (K.faults sink.new) result }
    ensures less { OnOk result (all_work trace.new.machine.core < all_work trace.old.machine.core) }
{
    let mut text = Vec::new(alloc);
    let number = trace.number;
    let made = make_event(
        &mut text,
        &mut trace.ends,
        alloc,
        part,
        trace.shown,
        &mut trace.machine,
        &mut trace.owed,
        &mut trace.stands,
        p,
        names,
        number,
        t,
    );
    match made {
        Ok(shown) => {
            trace.number = next_number(number);
            trace.shown = shown;
            write_text(sink, text.as_slice())
        }
        Err(AllocError) => Err(TraceError::Memory),
    }
}

/// Begins the next part where it may begin, and writes its line, where it is shown.
fn tell_part<K: Sink>(
    alloc: Global,
    trace: &mut Tracing,
    p: &Checked,
    names: &Names,
    part: Part,
    sink: &mut K,
) -> Result<(), TraceError>
    requires program { p.now ≡ trace.old.machine.program }
    ensures told { IsHappeningTold p.now names.now part NextPart trace.old trace.new
        (K.text sink.old) (K.text sink.new) (K.faults sink.old) (K.faults sink.new) result }
{
    let mut text = Vec::new(alloc);
    let number = trace.number;
    let made = make_part(
        &mut text,
        alloc,
        part,
        trace.shown,
        &mut trace.machine,
        &trace.stands,
        p,
        names,
        number,
    );
    match made {
        Ok(shown) => {
            trace.number = next_number(number);
            trace.shown = shown;
            write_text(sink, text.as_slice())
        }
        Err(AllocError) => Err(TraceError::Memory),
    }
}

/// Makes the events that come next, with their lines, up to the begin of a part or the end of the
/// run.
fn tell_events<K: Sink>(
    alloc: Global,
    trace: &mut Tracing,
    p: &Checked,
    names: &Names,
    part: Part,
    order: &[u8],
    from: Progress,
    sink: &mut K,
) -> Result<Next, TraceError>
    requires { p.now ≡ trace.old.machine.program }
    ensures walk { IsWalk p.now order.now names.now part trace.old
        (turn_at (stage_of order.now from) trace.old.machine.core) (K.text sink.old)
        (K.faults sink.old) trace.new (K.text sink.new) (K.faults sink.new) result }
    ensures part { IfOk result IsNoEvent }
    ensures ahead { IfOk result (λ next. next_ahead next ≤ parts_ahead from) }
{
    let mut next = next_turn(&trace.machine, order, from);
    while let Next::Event(t, progress) = next {
        tell_event(alloc, trace, p, names, part, t, sink)?;
        next = next_turn(&trace.machine, order, progress);
    }
    Ok(next)
}

/// Makes all events of the run, and the begins of its parts, with their lines.
fn tell_all<K: Sink>(
    alloc: Global,
    trace: &mut Tracing,
    p: &Checked,
    names: &Names,
    part: Part,
    order: &[u8],
    sink: &mut K,
) -> Result<(), TraceError>
    requires { p.now ≡ trace.old.machine.program }
    ensures { IsWalkToEnd p.now order.now names.now part trace.old
        (turn_at (First order.now) trace.old.machine.core) (K.text sink.old) (K.faults sink.old)
        trace.new (K.text sink.new) (K.faults sink.new) result }
{
    let mut next = tell_events(alloc, trace, p, names, part, order, Progress::Init, sink)?;
    while let Next::Part(progress) = next {
        tell_part(alloc, trace, p, names, part, sink)?;
        next = tell_events(alloc, trace, p, names, part, order, progress, sink)?;
    }
    Ok(())
}

/// Writes the report of the run.
fn tell_report<K: Sink>(
    alloc: Global,
    form: Form,
    outcome: &Outcome,
    sink: &mut K,
) -> Result<(), TraceError>
    requires { 0 < length outcome.now.threads }
    ensures { IsPut (K.text sink.old) (K.text sink.new) (K.faults sink.old) (K.faults sink.new)
        (report_in form outcome.now) result }
{
    match report_of(alloc, form, outcome) {
        Ok(text) => write_text(sink, text.as_slice()),
        Err(AllocError) => Err(TraceError::Memory),
    }
}

/// What stands before a trace, in a form: of lines nothing.
fn begin_text(alloc: Global, form: Form, begin: &[Fact]) -> Result<Bytes, AllocError>
    ensures { IfOk result (λ text. text ≡ begin_text form begin.now) }
{
    let mut text = Vec::new(alloc);
    match form {
        Form::Lines => {}
        Form::Json => write_told(&mut text, alloc, form, "run", begin)?,
    }
    Ok(Bytes::from_vec(text))
}

/// Writes what the run was asked by, where the form begins with it.
fn tell_begin<K: Sink>(
    alloc: Global,
    form: Form,
    begin: &[Fact],
    sink: &mut K,
) -> Result<(), TraceError>
    ensures { IsPut (K.text sink.old) (K.text sink.new) (K.faults sink.old) (K.faults sink.new)
        (begin_text form begin.now) result }
{
    match begin_text(alloc, form, begin) {
        Ok(text) => write_text(sink, text.as_slice()),
        Err(AllocError) => Err(TraceError::Memory),
    }
}

/// Runs a program to its end, and writes what is told of that behind what it was asked by.
fn tell_run<K: Sink>(
    alloc: Global,
    p: &Checked,
    cfg: &Config,
    order: &Bytes,
    names: &Names,
    part: Part,
    sink: &mut K,
) -> Result<Outcome, TraceError>
    requires { AreSettings cfg.now }
    ensures { IsTracedBehind [] p.now cfg.now order.now names.now part (K.text sink.old)
        (K.text sink.new) (K.faults sink.old) (K.faults sink.new) result }
{
    have_width(*cfg);
    every_order_has_run();
    let _workers = p.workers();
    let mut trace = start(alloc, p, cfg)?;
    tell_all(alloc, &mut trace, p, names, part, order.as_slice(), sink)?;
    write_text(sink, trace.ends.as_slice())?;
    let _workers = trace.machine.workers();
    let outcome = trace.machine.outcome();
    tell_report(alloc, part.form, &outcome, sink)?;
    Ok(outcome)
}

/// Runs a program to its end as `replay` does, by an order of steps in which each byte is the
/// number of the worker that has the next event, and writes to the sink a line for each event of
/// the run in order, or for those of a part, as the run goes. Of failed turns in a row of a thread,
/// which change nothing but their count, the first alone has a line where `part` folds them, and
/// the next line of the thread says how many were left out. Before a part that need not begin with
/// the first event stands a line of each thread that has begun: how it stands before the first
/// line. A line of an event has its number; the thread, and the
/// attempt that it is in; the class, method and pc where the thread stands, with the mnemonic; what
/// it does in words, where that is no instruction; the word that it accesses, with what it found
/// and left there; where an attempt begins, fails or finishes, a lock is taken or made fat, and how
/// the thread comes to its end; and the steps of the plain machine that it stands for. Behind all
/// stands a line for each end that is no return, and the report of the run. Each is a line of
/// words, or as JSON one object on a line, made of the same facts (`key_row` of `tellings` has the
/// members). Objects begin with one of `begin`, the facts of what the run was asked by. `names` has
/// the names of the fields of the program in their order; a field without a name is told by its
/// number.
///
/// It answers the outcome of the run; `Failed` where the sink fails, and `Memory` where there is no
/// memory, and then the sink has accepted a front of all that. The memory that it takes does not
/// grow with the run.
pub fn explain_run<K: Sink>(
    alloc: Global,
    p: &Checked,
    cfg: &Config,
    order: &Bytes,
    names: &Names,
    begin: &Rows<Fact>,
    part: Part,
    sink: &mut K,
) -> Result<Outcome, TraceError>
    requires { AreSettings cfg.now }
    ensures { IsTraced p.now cfg.now order.now names.now begin.now part (K.text sink.old)
        (K.text sink.new) (K.faults sink.old) (K.faults sink.new) result }
{
    have_width(*cfg);
    every_order_has_run();
    let _workers = p.workers();
    tell_begin(alloc, part.form, begin.as_slice(), sink)?;
    tell_run(alloc, p, cfg, order, names, part, sink)
}
