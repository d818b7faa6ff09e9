//! The access that the next event of a thread wants.

ghost use Rattle.std.specs.Prelude.{◌≡◌, ◌≢◌};
ghost use Rattle.machine_types.specs.Events.{wanted};
ghost use Rattle.machine_types.specs.Lawful.{IsLawful};
ghost use Rattle.machine_types.specs.declared.phase.Phase.TheVariants.{Run};

use crate::attempts::looks;
use crate::entering::enter_wants;
use crate::leaving::leave_wants;
use checked_program::Checked;
use fat_monitor::ask;
use frames::ThreadState;
use heap_words::header_word;
use instr_steps::run_want;
use machine_types::{Access, Phase};

/// The access of an event that makes no instruction.
pub fn want_between(s: &ThreadState, p: &Checked) -> Option<Access>
    requires program { p.now ≡ s.now.program }
    requires lawful { IsLawful p.now s.now }
    requires between { s.now.phase ≢ Run }
    ensures { result ≡ wanted p.now s.now s.now.phase }
{
    // the program has at most 8 workers, and its words have numbers of 32 bits
    let _workers = p.workers();
    match s.phase() {
        Phase::Idle | Phase::Start | Phase::Ended(_) => None,
        Phase::Run => unreachable!(),
        Phase::Element(word, stored) => match stored {
            Some(value) => Some(Access::Store(word, value)),
            None => Some(Access::Load(word)),
        },
        Phase::Made(reference, header) => Some(Access::Store(header_word(reference), header)),
        Phase::Throw(_, _) => looks(s),
        Phase::Enter(m, _) => enter_wants(s, m),
        Phase::Leave(m, _) => leave_wants(s, m),
        Phase::Ending(_) => Some(Access::Rest),
        _ => ask(s),
    }
}

/// The access that the next event of the thread wants: `None` exactly where that event is local, or
/// the thread is not live.
pub fn want(s: &ThreadState, p: &Checked) -> Option<Access>
    requires program { p.now ≡ s.now.program }
    requires lawful { IsLawful p.now s.now }
    ensures { result ≡ wanted p.now s.now s.now.phase }
{
    if s.phase() == Phase::Run {
        run_want(s, p)
    } else {
        want_between(s, p)
    }
}
