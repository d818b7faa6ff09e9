//! The table of a cell, its rule, and the kinds of step on it.

ghost use Rattle.std.specs.Prelude.{Bool, List, ℕ};

use crate::views::{Record, View};
use atomic_table::{Join, Play, Split, Table, TableRule};
use std::alloc::Global;
use std::marker::{Brand, PhantomData};

/// The rule: word 0 is the lock word, the others are the values, and all of them stand for one
/// history.
pub struct CellRule;

impl TableRule<(), View, Record> for CellRule {
    ghost use Rattle.solero_cell.specs.CellRules.{HasOneHistory};
    ghost use Rattle.solero_cell.specs.CellViews.{first_view};

    ghost holds = { λ opening s. HasOneHistory opening s.words s.views };

    ghost first = { first_view };
}

/// The words of a cell: the lock word, and the values.
pub type CellTable = Table<(), View, Record, CellRule, Global>;

/// A note load.
pub struct Notes;

impl Play<(), View> for Notes {
    ghost use Rattle.std.specs.Prelude.{◌≡◌};
    ghost use Rattle.solero_cell.specs.Steps.{TellsNote};

    ghost then = { λ s m r n. TellsNote m.0 r n.0 × (n.1 ≡ m.1) };
}

/// A value load.
pub struct Loads;

impl Play<(), View> for Loads {
    ghost use Rattle.std.specs.Prelude.{◌≡◌};
    ghost use Rattle.solero_cell.specs.CellViews.{has_loaded};

    ghost then = { λ s m r n. (n.0 ≡ has_loaded r m.0) × (n.1 ≡ m.1) };
}

/// Whether an attempt at a read is its last.
pub trait Attempt {
    ghost is_last: { Bool };
}

/// The first attempt.
pub struct First;

impl Attempt for First {
    ghost use Rattle.std.specs.Prelude.{false};

    ghost is_last = { false };
}

/// The last attempt.
pub struct Last;

impl Attempt for Last {
    ghost use Rattle.std.specs.Prelude.{true};

    ghost is_last = { true };
}

/// A finish load.
pub(crate) struct Finishes<A> {
    of: PhantomData<A>,
}

impl<A: Attempt> Play<(), View> for Finishes<A> {
    ghost use Rattle.std.specs.Prelude.{◌≡◌};
    ghost use Rattle.solero_cell.specs.Steps.{TellsFinish};

    ghost then = { λ s m r n. TellsFinish A.is_last m.0 r n.0 × (n.1 ≡ m.1) };
}

/// Which values are written. A call at `Brand` picks them.
pub trait Writing {
    ghost values: { List ℕ };
}

impl Writing for Brand {
    ghost use Rattle.std.specs.Prelude.{[]};

    ghost values = { [] };
}

/// A take exchange.
pub struct Takes<B> {
    of: PhantomData<B>,
}

impl<B: Writing> Play<(), View> for Takes<B> {
    ghost use Rattle.std.specs.Prelude.{◌≡◌};
    ghost use Rattle.solero_cell.specs.Steps.{TellsTake};

    ghost then = { λ s m r n. TellsTake B.values m.0 r n.0 × (n.1 ≡ m.1) };
}

/// A value store.
pub struct Stores;

impl Play<(), View> for Stores {
    ghost use Rattle.std.specs.Prelude.{◌≡◌};
    ghost use Rattle.solero_cell.specs.CellViews.{has_stored};
    ghost use Rattle.solero_cell.specs.Steps.{storing_of};

    ghost then = { λ s m r n. (n.0 ≡ has_stored (storing_of m.0) m.0) × (n.1 ≡ m.1) };
}

/// A release store.
pub(crate) struct Releases;

impl Play<(), View> for Releases {
    ghost use Rattle.std.specs.Prelude.{◌≡◌};
    ghost use Rattle.solero_cell.specs.Steps.{HasWritten};

    ghost then = { λ s m r n. HasWritten m.0 n.0 × (n.1 ≡ m.1) };
}

/// A view is cut in two.
pub struct Cuts;

impl Split<View> for Cuts {
    ghost use Rattle.solero_cell.specs.CellViews.{halved, newcomer};

    ghost left = { halved };

    ghost right = { newcomer };
}

/// Two views become one.
pub struct Joins;

impl Join<View> for Joins {
    ghost use Rattle.solero_cell.specs.CellViews.{spent, taken_in};

    ghost both = { taken_in };

    ghost spent = { spent };
}

/// The load with which a seat ends its cell: what it knows then.
pub(crate) struct Ends;

impl Play<(), View> for Ends {
    ghost use Rattle.std.specs.Prelude.{◌≡◌};
    ghost use Rattle.solero_cell.specs.Calls.{IsAtEnd};

    ghost then = { λ s m r n. ((n.0 ≡ m.0) × IsAtEnd m.0) × (n.1 ≡ m.1) };
}

/// The second load of a join.
pub struct Compares;

impl Play<(), View> for Compares {
    ghost use Rattle.std.specs.Prelude.{◌≡◌};
    ghost use Rattle.solero_cell.specs.Steps.{HasCompared};

    ghost then = { λ s m r n. HasCompared m.0 n.0 × (n.1 ≡ m.1) };
}
