//! The program `solero_explain`: says what a refusal of class files means, why a section is not
//! marked, what happens in a run, and what all runs come to.
#![tactic(auto)]

mod begins;
mod command;
mod forbids;
mod program;
mod progress;
mod request;

use host_io::adapters::{FileShelf, OutputSink};
use program::USAGE;
use program_answers::delivery::deliver;
use program_answers::start::{without_words, words};
use progress::Progress;
use std::io::IsTerminal;
use std::process::ExitCode;

fn main(rt: HostRuntime) -> ExitCode {
    let mut shelf = FileShelf::new(&rt);
    let mut sink = OutputSink::new(&rt);
    let mut watch = Progress::new(&rt, rt.stderr().is_terminal());
    let status = match words(&rt) {
        Ok(words) => program::top_explain(rt.alloc(), &words, &mut shelf, &mut watch, &mut sink),
        Err(error) => deliver(&mut sink, USAGE, &without_words(error.kind())),
    };
    ExitCode::from(status)
}
