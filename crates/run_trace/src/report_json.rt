//! The report of a run as objects of JSON, and in the form that is asked for.

ghost use Rattle.std.specs.Prelude.{◌≡◌, ◌<◌, ◌++◌, ◌∷◌, [], codes, length, IfOk, OnOk};
ghost use Rattle.std.specs.List.{flat_map};
ghost use Rattle.tellings.specs.Forms.{object_of};
ghost use Rattle.run_trace.specs.ReportJson.{count_facts, its_end, print_object, report_in};
ghost use Rattle.run_trace.specs.ReportJson.{report_objects, thread_report_facts, thread_objects};

use event_texts::add_end_text;
use json_lines::Form;
use jvm_types::{Bytes, Counts, End, Outcome, Print, Rows, ThreadReport};
use run_texts::report;
use std::alloc::{AllocError, Global};
use tellings::{Fact, Key, add_count, write_told};

fn write_object(
    out: &mut Vec<u8>,
    alloc: Global,
    what: &str,
    facts: &[Fact],
) -> Result<(), AllocError>
    ensures { OnOk result (out.new.items ≡ out.old.items ++ object_of what.now facts.now) }
{
    write_told(out, alloc, Form::Json, what, facts)
}

fn write_print(
    out: &mut Vec<u8>,
    alloc: Global,
    thread: usize,
    print: Print,
) -> Result<(), AllocError>
    ensures { OnOk result (out.new.items ≡ out.old.items ++ print_object thread print) }
{
    let facts = [
        Fact::Count(Key::Thread, thread as u64),
        Fact::Count(Key::Ticket, print.ticket),
        Fact::Value(Key::Printed, print.value),
    ];
    write_object(out, alloc, "print", &facts)
}

fn write_prints(
    out: &mut Vec<u8>,
    alloc: Global,
    thread: usize,
    prints: &[Print],
) -> Result<(), AllocError>
    ensures { OnOk result
        (out.new.items ≡ out.old.items ++ flat_map (print_object thread) prints.now) }
{
    for print in prints {
        write_print(out, alloc, thread, *print)?;
    }
    Ok(())
}

fn add_counts(facts: &mut Rows<Fact>, counts: Counts) -> Result<(), AllocError>
    ensures { OnOk result (facts.new ≡ facts.old ++ count_facts counts) }
{
    add_count(facts, Key::Instructions, u64::from(counts.instructions))?;
    add_count(facts, Key::Elided, u64::from(counts.elided))?;
    add_count(facts, Key::Failed, u64::from(counts.failed))?;
    add_count(facts, Key::Locked, u64::from(counts.locked))?;
    add_count(facts, Key::Inflated, u64::from(counts.inflated))
}

fn thread_report_facts(
    alloc: Global,
    thread: usize,
    report: &ThreadReport,
) -> Result<Rows<Fact>, AllocError>
    ensures { IfOk result (λ facts. facts ≡ thread_report_facts thread report.now) }
{
    let mut facts = Rows::new(alloc);
    add_count(&mut facts, Key::Thread, thread as u64)?;
    add_end_text(&mut facts, alloc, Key::ItsEnd, report.end)?;
    add_counts(&mut facts, report.counts)?;
    Ok(facts)
}

fn write_thread(
    out: &mut Vec<u8>,
    alloc: Global,
    thread: usize,
    report: &ThreadReport,
) -> Result<(), AllocError>
    ensures { OnOk result (out.new.items
        ≡ out.old.items ++ object_of (codes "thread") (thread_report_facts thread report.now)) }
{
    let facts = thread_report_facts(alloc, thread, report)?;
    write_object(out, alloc, "thread", facts.as_slice())
}

fn write_threads(
    out: &mut Vec<u8>,
    alloc: Global,
    threads: &[ThreadReport],
) -> Result<(), AllocError>
    ensures { OnOk result (out.new.items ≡ out.old.items ++ thread_objects 0 threads.now) }
{
    for (thread, report) in threads.iter().enumerate() {
        write_prints(out, alloc, thread, report.prints.as_slice())?;
        write_thread(out, alloc, thread, report)?;
    }
    Ok(())
}

fn write_done(out: &mut Vec<u8>, alloc: Global, end: End) -> Result<(), AllocError>
    ensures { OnOk result
        (out.new.items ≡ out.old.items ++ object_of (codes "done") (its_end end ∷ [])) }
{
    let mut facts = Rows::new(alloc);
    add_end_text(&mut facts, alloc, Key::ItsEnd, end)?;
    write_object(out, alloc, "done", facts.as_slice())
}

fn objects(alloc: Global, outcome: &Outcome) -> Result<Bytes, AllocError>
    ensures { IfOk result (λ text. text ≡ report_objects outcome.now) }
{
    let mut out = Vec::new(alloc);
    write_threads(&mut out, alloc, outcome.threads.as_slice())?;
    write_done(&mut out, alloc, outcome.done)?;
    Ok(Bytes::from_vec(out))
}

/// The report of a run: its lines, or objects of JSON, each on a line. Those are of each thread, in
/// order of their numbers, first its prints, each with the `thread`, its `ticket`, which is its
/// place among the prints of all threads, and its `value`; then with `what` as `thread` how it came
/// to its `end`, thread 0 in `init`, and what it counted; and last how `done` came to its end.
pub fn report_of(alloc: Global, form: Form, outcome: &Outcome) -> Result<Bytes, AllocError>
    requires { 0 < length outcome.now.threads }
    ensures { IfOk result (λ text. text ≡ report_in form outcome.now) }
{
    match form {
        Form::Lines => report(alloc, outcome),
        Form::Json => objects(alloc, outcome),
    }
}
