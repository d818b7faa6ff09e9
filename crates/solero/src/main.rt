//! The program `solero`: runs class files, and writes what came of it.
#![tactic(auto)]

mod answer;
mod cell;
mod class_text;
mod limits;
mod load;
mod making;
mod meeting;
mod program;
#[cfg(test)]
mod row_tests;
#[cfg(test)]
mod tests;
#[cfg(test)]
mod thread_tests;

use answer::USAGE;
use host_io::adapters::{FileShelf, OutputSink};
use meeting::MeetingGate;
use program_answers::delivery::deliver;
use program_answers::start::{without_words, words};
use std::process::ExitCode;

fn main(rt: HostRuntime) -> ExitCode {
    let mut shelf = FileShelf::new(&rt);
    let mut sink = OutputSink::new(&rt);
    let status = match words(&rt) {
        Ok(words) => {
            let gate = MeetingGate::new();
            program::top(&rt, rt.alloc(), &words, &mut shelf, &mut sink, &gate)
        }
        Err(error) => deliver(&mut sink, USAGE, &without_words(error.kind())),
    };
    ExitCode::from(status)
}
