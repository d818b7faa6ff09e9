//! How one event of a thread went.

ghost use Rattle.std.specs.Prelude.{◌≡◌};
ghost use Rattle.instr_steps.specs.Outcomes.{did_in};

use jvm_types::{End, Thrown};
use machine_types::Phase;

/// How one event of a thread went.
#[derive(Clone, Copy, Debug, PartialEq, Eq)]
pub enum Did {
    Ran,
    /// It throws an exception of this class.
    Threw(Thrown),
    /// Its part is over but for a last load.
    Ending(End),
}

/// By the phase that the event leaves.
#[inline(always)]
pub fn did_in(phase: Phase) -> Did
    ensures { result ≡ did_in phase }
{
    match phase {
        Phase::Throw(_, class) => Did::Threw(class),
        Phase::Ending(e) => Did::Ending(e),
        _ => Did::Ran,
    }
}
