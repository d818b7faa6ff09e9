//! Runs of worked classes, each with its whole text and its status. The counts follow from the
//! instructions of the classes, event by event.

mod class_sections;
mod ints;
mod limits;
mod meetings;
mod modes;
mod objects;
mod one_thread;
mod overflows;
mod sections;

use crate::program::top;
use host_io::shelf::{ListShelf, NamedFile};
use host_io::sink::ListSink;
use jvm_types::{Bytes, Gate, OpenGate, Rows};
use std::alloc::{AllocError, Global};
use std::process::Abort;
use std::sync::Wait;
use std::test::Fail;
use std::thread::Threads;
use test_classes::changed;

/// A run over one file `A.class`, with what it comes to.
pub struct Run {
    pub options: &'static [&'static str],
    /// The threads of the order, each with how many events it has; none: no order is given.
    pub order: &'static [(char, usize)],
    /// The class, two digits for each byte.
    pub class: &'static str,
    /// Bytes of the class that are changed, each at its place.
    pub changes: &'static [(usize, u8)],
    pub status: u8,
    pub text: &'static str,
}

/// A text of one digit for each event of the order.
fn digits(alloc: Global, order: &[(char, usize)]) -> Result<String, AllocError> {
    let mut digits = String::new(alloc);
    for (thread, events) in order {
        for _ in 0..*events {
            digits.push(*thread)?;
        }
    }
    Ok(digits)
}

/// The program's name and the options.
pub fn options_alone(alloc: Global, options: &[&str]) -> Result<Vec<String>, AllocError> {
    let mut words = Vec::new(alloc);
    words.push(String::from_str(alloc, "solero")?)?;
    for option in options {
        words.push(String::from_str(alloc, option)?)?;
    }
    Ok(words)
}

/// The program's name, the options and the file's name.
pub fn words(alloc: Global, options: &[&str]) -> Result<Vec<String>, AllocError> {
    let mut words = options_alone(alloc, options)?;
    words.push(String::from_str(alloc, "A.class")?)?;
    Ok(words)
}

/// The words of a run, with its order behind the others.
fn words_of(alloc: Global, run: &Run) -> Result<Vec<String>, AllocError> {
    let mut words = words(alloc, run.options)?;
    if !run.order.is_empty() {
        words.push(String::from_str(alloc, "--order")?)?;
        words.push(digits(alloc, run.order)?)?;
    }
    Ok(words)
}

fn shelf(alloc: Global, content: Bytes) -> Result<ListShelf, AllocError> {
    let name = Bytes::from_slice(alloc, b"A.class")?;
    let mut files = Rows::new(alloc);
    files.push(NamedFile { name, content })?;
    Ok(ListShelf::new(files, Rows::new(alloc)))
}

/// What the words answer over one file `A.class` with that content: the status, and the text that
/// is written.
pub fn answer<R: Threads + Wait + Sync + AllocGlobal, G: Gate + Sync>(
    rt: &R,
    words: &Vec<String>,
    content: Bytes,
    gate: &G,
) -> Result<(u8, ListSink), AllocError> {
    let alloc = rt.alloc();
    let mut shelf = shelf(alloc, content)?;
    let mut sink = ListSink::new(alloc, None, 4096);
    let status = top(rt, alloc, words, &mut shelf, &mut sink, gate);
    Ok((status, sink))
}

fn check<R: Abort + Threads + Wait + Sync + AllocGlobal>(
    rt: &R,
    run: &Run,
) -> Result<(), AllocError> {
    let content = changed(rt.alloc(), run.class, run.changes)?;
    let (status, sink) = answer(rt, &words_of(rt.alloc(), run)?, content, &OpenGate)?;
    assert_eq!(rt; sink.text().as_slice(), run.text.as_bytes());
    assert_eq!(rt; status, run.status);
    Ok(())
}

fn check_all<R: Abort + Threads + Wait + Sync + AllocGlobal>(
    rt: &R,
    runs: &[Run],
) -> Result<(), AllocError> {
    for run in runs {
        check(rt, run)?;
    }
    Ok(())
}

#[test]
fn one_thread_runs(rt: HostRuntime) -> Result<(), Fail> {
    check_all(&rt, &one_thread::ONE_THREAD)?;
    Ok(())
}

#[test]
fn sections_run_without_their_lock(rt: HostRuntime) -> Result<(), Fail> {
    check_all(&rt, &sections::SECTIONS)?;
    check_all(&rt, &class_sections::CLASS_SECTIONS)?;
    Ok(())
}

#[test]
fn threads_meet(rt: HostRuntime) -> Result<(), Fail> {
    check_all(&rt, &meetings::MEETINGS)?;
    Ok(())
}

#[test]
fn threads_have_one_order(rt: HostRuntime) -> Result<(), Fail> {
    check_all(&rt, &modes::ONE_ORDER)?;
    Ok(())
}

#[test]
fn limits_end_threads(rt: HostRuntime) -> Result<(), Fail> {
    check_all(&rt, &limits::LIMITS)?;
    Ok(())
}

#[test]
fn instructions_and_frames(rt: HostRuntime) -> Result<(), Fail> {
    check_all(&rt, &ints::INTS)?;
    check_all(&rt, &objects::OBJECTS)?;
    check_all(&rt, &overflows::OVERFLOWS)?;
    Ok(())
}
