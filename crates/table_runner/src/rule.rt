//! The table that the threads of a run share, and the kinds of step on it.

ghost use Rattle.std.specs.Prelude.{ℕ};

use crate::stepping::{Cutting, Joining, Telling};
use atomic_table::TableRule;
use checked_program::Checked;
use frames::ThreadState;
use lists::Told;
use machine_types::Config;
use std::marker::{Brand, PhantomData};

/// The most threads of a run: thread 0 and the workers.
pub const MOST_THREADS: usize = 9;

/// What a seat knows of each thread that its hands hold: the state behind its last access. No value
/// of it is made.
pub type View = [Option<ThreadState>; MOST_THREADS];

/// What a seat knows: how many steps were made from it, and its threads.
pub type CountedView = (u64, View);

/// The program and the settings of a run. Contracts alone see the program.
#[derive(Drop)]
pub struct About {
    pub program: Told<Checked>,
    pub cfg: Config,
}

/// The rule: the words, and the threads of all views, are those of a state that a run reaches.
pub struct CoreRule;

impl TableRule<(), CountedView, About> for CoreRule {
    ghost use Rattle.std.specs.Prelude.{map, Some};
    ghost use Rattle.machine_types.specs.Core.{start};
    ghost use Rattle.table_rule.specs.Views.{ShowsRun};
    ghost use Rattle.table_runner.specs.Stepping.{threads_seen};

    ghost holds = { λ key s.
        ShowsRun key.program.told key.cfg s.words (map threads_seen s.views) };

    ghost first = { λ key. (0, map Some (start key.program.told key.cfg).threads) };
}

/// Which event has the access. A call at `Brand` picks it.
pub(crate) trait Making {
    ghost use Rattle.std.specs.Prelude.{Option};
    ghost use Rattle.table_runner.specs.Accessing.{NextEvent};

    ghost event: { Option NextEvent };
}

impl Making for Brand {
    ghost use Rattle.std.specs.Prelude.{None};

    ghost event = { None };
}

/// The access of an event, which tells the word that it found.
pub(crate) struct Makes<B> {
    of: PhantomData<B>,
}

impl<B: Making> Telling for Makes<B> {
    ghost use Rattle.table_runner.specs.Accessing.{Tells};

    ghost tells = { Tells B.event };
}

/// The access of an event that ends a part of its thread: it finds nothing.
pub(crate) struct Rests<B> {
    of: PhantomData<B>,
}

impl<B: Making> Telling for Rests<B> {
    ghost use Rattle.table_runner.specs.Accessing.{Tells};

    ghost tells = { λ was got now. Tells B.event was 0 now };
}

/// Which thread goes. A call at `Brand` picks it.
pub(crate) trait Numbering {
    ghost number: { ℕ };
}

impl Numbering for Brand {
    ghost number = { 0 };
}

/// A view is cut: one thread goes into a view of its own.
pub(crate) struct Cuts<B> {
    of: PhantomData<B>,
}

impl<B: Numbering> Cutting for Cuts<B> {
    ghost use Rattle.table_runner.specs.Sharing.{only_thread, view_without};

    ghost left = { view_without B.number };

    ghost right = { only_thread B.number };
}

/// Two views become one.
pub(crate) struct Joins;

impl Joining for Joins {
    ghost use Rattle.std.specs.Prelude.{[]};
    ghost use Rattle.table_runner.specs.Sharing.{merged};

    ghost both = { merged };

    ghost spent = { [] };
}

/// Which part begins. A call at `Brand` picks it.
pub(crate) trait Starting {
    ghost use Rattle.std.specs.Prelude.{Option};
    ghost use Rattle.table_runner.specs.Sharing.{Beginning};

    ghost part: { Option Beginning };
}

impl Starting for Brand {
    ghost use Rattle.std.specs.Prelude.{None};

    ghost part = { None };
}

/// A part begins.
pub(crate) struct Begins<B> {
    of: PhantomData<B>,
}

impl<B: Starting> Telling for Begins<B> {
    ghost use Rattle.table_runner.specs.Sharing.{TellsBegin};

    ghost tells = { λ was got now. TellsBegin B.part now };
}
