//! What the words of the command ask for.
ghost use Rattle.std.specs.Prelude.{◌≡◌, length};
ghost use Rattle.command_words.specs.Bounds.{AreInBounds};
ghost use Rattle.command_words.specs.Command.{takes_files};

use crate::run_values::are_few;
use jvm_types::Bytes;
use machine_types::Config;

/// What is done with the program of the files.
#[derive(Clone, Copy, Debug, PartialEq, Eq)]
pub enum Task {
    /// It runs, in a chosen order of steps, and a report of the run is written.
    Replay,
    /// It runs, each worker on a thread of the system, and a report of the run is written.
    Run,
    /// It runs as in `Run`, under one lock, and the order of the workers' events is written behind
    /// the report.
    Record,
    /// The marks of its sections are written.
    Mark,
}

/// What is done.
#[derive(Clone, Copy, Debug, PartialEq, Eq)]
pub enum Mode {
    /// The files are loaded to a program, and something is done with it.
    Program(Task),
    /// The class of one file is listed.
    List,
    /// The class that the text of one file lists is written as a class file.
    Assemble,
    /// A class is made from a size and a number, and loaded and run as in `Run`, and a summary is
    /// written.
    Load,
    /// Workers write and read a cell, and a report of the run is written.
    Cell,
}

impl Mode {
    /// Whether so many files may be named: 1 to 64 for a program, one to be listed or assembled,
    /// none for a load and a cell.
    pub fn takes(self, count: usize) -> bool
        ensures { result ≡ takes_files self count }
    {
        match self {
            Mode::Program(_) => are_few(count),
            Mode::List | Mode::Assemble => count == 1,
            Mode::Load | Mode::Cell => count == 0,
        }
    }
}

/// How the threads of a run share the words of the machine.
#[derive(Clone, Copy, Debug, PartialEq, Eq)]
pub enum Memory {
    /// Each word is atomic, and no thread takes a lock.
    Table,
    /// The whole machine stands under one lock, which is taken for each event.
    Locked,
}

/// Workers of the system that run the threads of a program, of which there may be more.
#[derive(Clone, Copy, Debug, PartialEq, Eq)]
pub struct Green {
    /// How many there are: 1 to 8.
    pub workers: u8,
    /// How many events a worker gives a thread before the next one: 1 to 1,000,000.
    pub turn: u32,
}

/// What the words of the command ask for.
#[derive(Debug, Drop)]
pub struct Request {
    /// What is done.
    pub mode: Mode,
    /// The names of the files, of which there are as many as the mode takes.
    pub files: Vec<String>,
    /// How many workers there are: 0 to 8.
    pub threads: u8,
    /// How many heap words there are: 4,096 to 1,048,576.
    pub heap: u32,
    /// The limits of the run, and whether sections are elided.
    pub cfg: Config,
    /// The workers that make the next steps, each a number from 1 to 8.
    pub order: Bytes,
    /// How the threads of a run share the words.
    pub memory: Memory,
    /// How many rounds each worker of a cell makes, or how many methods of a load add: 1 to 1,000.
    pub size: u32,
    /// The number that the class of a load is made from.
    pub seed: u32,
    /// The most events whose order is recorded: 1 to 100,000.
    pub events: u32,
    /// Where the words give workers, these run the threads; else each thread is one of the system.
    pub green: Option<Green>,
    ghost bounds: { AreInBounds mode (length files.items) threads heap size events cfg green },
}
