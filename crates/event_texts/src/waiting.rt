//! The threads that wait, as text.

ghost use Rattle.std.specs.Prelude.{◌≡◌, ◌≤◌, ◌++◌, OnOk, IfOk};
ghost use Rattle.std.specs.List.{AllByRecursion, filter};
ghost use Rattle.jvm_types.specs.Numbers.{has_flag};
ghost use Rattle.machine_types.specs.Monitors.{bit_of};
ghost use Rattle.event_texts.specs.ValueTexts.{thread_text, threads_text, waiting_threads};

use jvm_types::Rows;
use std::alloc::{AllocError, Global};

/// Adds those of some threads whose bits are set.
fn add_waiting(threads: &mut Rows<u8>, bits: u64, among: &[u8]) -> Result<(), AllocError>
    requires { AllByRecursion (λ t. t ≤ 8) among.now }
    ensures { OnOk result (threads.new
        ≡ threads.old ++ filter (λ t. has_flag (bit_of t) bits) among.now) }
{
    match among {
        [] => Ok(()),
        [t, more @ ..] => {
            if bits & (1 << *t) != 0 {
                threads.push(*t)?;
            }
            add_waiting(threads, bits, more)
        }
    }
}

/// The threads whose bits are set.
fn waiting_threads(alloc: Global, bits: u64) -> Result<Rows<u8>, AllocError>
    ensures { IfOk result (λ threads. threads ≡ waiting_threads bits) }
{
    let mut threads = Rows::new(alloc);
    add_waiting(&mut threads, bits, &[0, 1, 2, 3, 4, 5, 6, 7, 8])?;
    Ok(threads)
}

fn write_thread(text: &mut Vec<u8>, alloc: Global, thread: u8) -> Result<(), AllocError>
    ensures { OnOk result (text.new.items ≡ text.old.items ++ thread_text thread) }
{
    let mut words = String::new(alloc);
    write!(words, "thread {thread}")?;
    text.extend_from_slice(words.as_bytes())
}

fn write_threads(text: &mut Vec<u8>, alloc: Global, threads: &[u8]) -> Result<(), AllocError>
    ensures { OnOk result (text.new.items ≡ text.old.items ++ threads_text threads.now) }
{
    match threads {
        [] => text.extend_from_slice(b"nobody"),
        [t] => write_thread(text, alloc, *t),
        [t, more @ ..] => {
            write_thread(text, alloc, *t)?;
            text.extend_from_slice(b" and ")?;
            write_threads(text, alloc, more)
        }
    }
}

/// Adds the threads whose waiting bits are set.
pub fn write_waiting(text: &mut Vec<u8>, alloc: Global, bits: u64) -> Result<(), AllocError>
    ensures { OnOk result
        (text.new.items ≡ text.old.items ++ threads_text (waiting_threads bits)) }
{
    let threads = waiting_threads(alloc, bits)?;
    write_threads(text, alloc, threads.as_slice())
}
