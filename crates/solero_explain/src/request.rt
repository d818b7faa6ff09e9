ghost use Rattle.std.specs.Prelude.{◌≤◌, length};
ghost use Rattle.command_words.specs.Bounds.{AreInExplainBounds};
ghost use Rattle.outcome_texts.specs.declared.telling.TheConstants.{MOST_STATES};

use json_lines::Form;
use jvm_types::{Bytes, Rows};
use machine_types::Config;
use outcome_texts::Forbidden;
use run_trace::Part;
use tellings::Fact;

/// What is to be explained.
#[derive(Clone, Copy, Debug, PartialEq, Eq)]
pub enum What {
    /// Which rule refuses the files, and where.
    Refusal,
    /// The marks of the program's sections, and why a section isn't marked M0.
    Marks,
    /// What happens in a run, event by event.
    Run,
    /// What all runs come to.
    Outcomes,
}

/// What the words of the command ask for.
#[derive(Debug, Drop)]
pub struct Request {
    /// What is to be explained.
    pub what: What,
    /// In which form.
    pub form: Form,
    /// The names of the files: 1 to 64.
    pub files: Vec<String>,
    /// How many workers there are: 0 to 8.
    pub threads: u8,
    /// How many heap words there are: 4,096 to 1,048,576.
    pub heap: u32,
    /// The limits of the run, and whether sections are elided.
    pub cfg: Config,
    /// The workers that make the next steps, each a number from 1 to 8.
    pub order: Bytes,
    /// What the run was asked by.
    pub begin: Rows<Fact>,
    /// The lines of the run that are told, and their form.
    pub part: Part,
    /// How many states are searched at most for all that runs come to.
    pub states: u32,
    /// What no run is to do.
    pub forbidden: Rows<Forbidden>,
    /// The name of a file of the outcomes that are expected, lines of an earlier text.
    pub expect: Option<String>,
    ghost bounds: { AreInExplainBounds (length files.items) threads heap cfg },
    ghost few: { states ≤ MOST_STATES },
}
