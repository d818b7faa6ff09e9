//! The report of a run.

ghost use Rattle.std.specs.Prelude.{◌≡◌, ◌<◌, ◌+◌, ◌++◌, IfOk, OnOk, length, string_bytes};
ghost use Rattle.std.specs.List.{flat_map};
ghost use Rattle.run_texts.specs.Report.{report_text, by_ticket, print_lines, thrown_name};
ghost use Rattle.run_texts.specs.Report.{thread_ends, end_lines, counts_line, counts_lines};

use jvm_types::{Bytes, Counts, End, Outcome, Print, ThreadReport, Thrown};
use std::alloc::{AllocError, Global};
use std::fmt;

/// The report of a run: the printed numbers in order of their tickets, how each part ended, and
/// what each thread counted. Prints with one ticket stand in the order of threads, and then of
/// their list.
pub fn report(alloc: Global, outcome: &Outcome) -> Result<Bytes, AllocError>
    requires { 0 < length outcome.now.threads }
    ensures { IfOk result (λ text. text ≡ report_text outcome.now) }
{
    let threads = outcome.threads.as_slice();
    let mut text = String::new(alloc);
    write_prints(&mut text, alloc, threads)?;
    write_ends(&mut text, threads, outcome.done)?;
    write_counts(&mut text, threads)?;
    Bytes::from_slice(alloc, text.as_bytes())
}

/// The prints of all threads in order of their tickets. Those with one ticket stay in their order.
fn prints_by_ticket(alloc: Global, threads: &[ThreadReport]) -> Result<Vec<Print>, AllocError>
    ensures { IfOk result
        (λ prints. prints.items ≡ by_ticket (flat_map (λ t. t.prints) threads.now)) }
{
    let mut prints = prints_by_thread(alloc, threads)?;
    prints.sort_by_key(|print| print.ticket)?;
    Ok(prints)
}

/// The prints of all threads, thread after thread.
fn prints_by_thread(alloc: Global, threads: &[ThreadReport]) -> Result<Vec<Print>, AllocError>
    ensures { IfOk result (λ prints. prints.items ≡ flat_map (λ t. t.prints) threads.now) }
{
    let mut prints = Vec::new(alloc);
    for thread in threads {
        prints.extend_from_slice(thread.prints.as_slice())?;
    }
    Ok(prints)
}

pub fn write_prints(
    text: &mut String,
    alloc: Global,
    threads: &[ThreadReport],
) -> Result<(), AllocError>
    ensures { OnOk result
        (string_bytes text.new ≡ string_bytes text.old ++ print_lines threads.now) }
{
    let prints = prints_by_ticket(alloc, threads)?;
    for print in &prints {
        let value = print.value;
        writeln!(text, "{value}")?;
    }
    Ok(())
}

pub fn write_ends(text: &mut String, threads: &[ThreadReport], done: End) -> Result<(), AllocError>
    requires { 0 < length threads.now }
    ensures { OnOk result
        (string_bytes text.new ≡ string_bytes text.old ++ end_lines threads.now done) }
{
    let Some((init, workers)) = threads.split_first() else {
        unreachable!()
    };
    let end = EndText(init.end);
    writeln!(text, "init {end}")?;
    write_workers(text, workers)?;
    let end = EndText(done);
    writeln!(text, "done {end}")
}

/// How each worker ended, the first of which has the number 1.
fn write_workers(text: &mut String, workers: &[ThreadReport]) -> Result<(), AllocError>
    ensures { OnOk result
        (string_bytes text.new ≡ string_bytes text.old ++ thread_ends 1 workers.now) }
{
    for (i, thread) in workers.iter().enumerate() {
        let number = i + 1;
        let end = EndText(thread.end);
        writeln!(text, "thread {number} {end}")?;
    }
    Ok(())
}

pub fn write_counts(text: &mut String, threads: &[ThreadReport]) -> Result<(), AllocError>
    ensures { OnOk result
        (string_bytes text.new ≡ string_bytes text.old ++ counts_lines 0 threads.now) }
{
    for (number, thread) in threads.iter().enumerate() {
        write_counts_of(text, number, thread.counts)?;
    }
    Ok(())
}

fn write_counts_of(text: &mut String, number: usize, counts: Counts) -> Result<(), AllocError>
    ensures { OnOk result
        (string_bytes text.new ≡ string_bytes text.old ++ counts_line number counts) }
{
    let Counts {
        instructions,
        elided,
        failed,
        locked,
        inflated,
    } = counts;
    write!(
        text,
        "counts {number} instructions {instructions} elided {elided} failed {failed}"
    )?;
    writeln!(text, " locked {locked} inflated {inflated}")
}

/// Displays how a part ended.
#[derive(Clone, Copy)]
pub struct EndText(pub End);

impl fmt::Display for EndText {
    ghost use Rattle.std.specs.Prelude.{Some};
    ghost use Rattle.run_texts.specs.Report.{end_text};

    ghost output = { λ e. Some (end_text e.0) };

    fn fmt<W: fmt::Write>(&self, f: &mut fmt::Formatter<W>) -> fmt::Result {
        match self.0 {
            End::Returned => f.write_str("returned"),
            End::Uncaught(thrown) => {
                let name = name_of(thrown);
                write!(f, "uncaught {name}")
            }
            End::Steps => f.write_str("steps"),
            End::Turns => f.write_str("turns"),
            End::Records => f.write_str("records"),
            End::Prints => f.write_str("prints"),
            End::NotRun => f.write_str("not run"),
        }
    }
}

/// The name of a built-in throwable.
pub fn name_of(thrown: Thrown) -> &'static str
    ensures { result.now ≡ thrown_name thrown }
{
    match thrown {
        Thrown::Throwable => "java/lang/Throwable",
        Thrown::Exception => "java/lang/Exception",
        Thrown::Error => "java/lang/Error",
        Thrown::RuntimeException => "java/lang/RuntimeException",
        Thrown::InterruptedException => "java/lang/InterruptedException",
        Thrown::ArithmeticException => "java/lang/ArithmeticException",
        Thrown::NullPointerException => "java/lang/NullPointerException",
        Thrown::ArrayIndexOutOfBoundsException => "java/lang/ArrayIndexOutOfBoundsException",
        Thrown::NegativeArraySizeException => "java/lang/NegativeArraySizeException",
        Thrown::IllegalMonitorStateException => "java/lang/IllegalMonitorStateException",
        Thrown::OutOfMemoryError => "java/lang/OutOfMemoryError",
        Thrown::StackOverflowError => "java/lang/StackOverflowError",
    }
}
