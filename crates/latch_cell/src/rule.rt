//! The table of a latch cell, its rule, and the kinds of step that the first cell does not have.

use atomic_table::{Play, Table, TableRule};
use solero_cell::{Attempt, Record, View};
use std::alloc::Global;
use std::marker::PhantomData;

/// The rule: word 0 is the lock word, word 1 the count, the others are two copies of the values,
/// and all of them stand for one history.
pub struct LatchRule;

impl TableRule<(), View, Record> for LatchRule {
    ghost use Rattle.latch_cell.specs.LatchRules.{HasTwoCopies};
    ghost use Rattle.solero_cell.specs.CellViews.{first_view};

    ghost holds = { λ opening s. HasTwoCopies opening s.words s.views };

    ghost first = { first_view };
}

/// The words of a latch cell: the lock word, the count, and both copies.
pub type LatchTable = Table<(), View, Record, LatchRule, Global>;

/// A read's load of the count.
pub(crate) struct Counts;

impl Play<(), View> for Counts {
    ghost use Rattle.std.specs.Prelude.{◌≡◌};
    ghost use Rattle.latch_cell.specs.LatchSteps.{HasCounted};

    ghost then = { λ s m c n. HasCounted m.0 c n.0 × (n.1 ≡ m.1) };
}

/// A read's last load, of the count again.
pub(crate) struct CountsAgain<A> {
    of: PhantomData<A>,
}

impl<A: Attempt> Play<(), View> for CountsAgain<A> {
    ghost use Rattle.std.specs.Prelude.{◌≡◌};
    ghost use Rattle.latch_cell.specs.LatchSteps.{TellsCopyFinish};

    ghost then = { λ s m c n. TellsCopyFinish A.is_last m.0 c n.0 × (n.1 ≡ m.1) };
}

/// A write's store of the count.
pub(crate) struct Publishes;

impl Play<(), View> for Publishes {
    ghost use Rattle.std.specs.Prelude.{◌≡◌};
    ghost use Rattle.latch_cell.specs.LatchSteps.{HasPublished};

    ghost then = { λ s m r n. HasPublished m.0 n.0 × (n.1 ≡ m.1) };
}

/// The store with which a write lets the lock go.
pub(crate) struct LetsGo;

impl Play<(), View> for LetsGo {
    ghost use Rattle.std.specs.Prelude.{◌≡◌};
    ghost use Rattle.latch_cell.specs.LatchSteps.{HasLetGo};

    ghost then = { λ s m r n. HasLetGo m.0 n.0 × (n.1 ≡ m.1) };
}
