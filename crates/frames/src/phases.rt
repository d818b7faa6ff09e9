//! The next phase of a thread, where a limit may end it.

ghost use Rattle.std.specs.Prelude.{◌≡◌, ◌<◌};
ghost use Rattle.machine_types.specs.Going.{runs, failed_turn};

use crate::ThreadState;
use jvm_types::End;
use machine_types::Phase;

/// The thread goes on to its next instruction, or ends by Steps where it has made as many as it
/// may.
#[inline(always)]
pub fn runs(s: &mut ThreadState)
    ensures { s.new ≡ runs s.old }
{
    if s.counts().instructions < s.config().steps {
        s.set_phase(Phase::Run);
    } else {
        s.set_phase(Phase::Ending(End::Steps));
    }
}

/// One more failed turn. The thread goes on to `phase`, or ends by Turns where that was the last
/// turn that it has.
pub fn fail_turn(s: &mut ThreadState, phase: Phase)
    requires { s.old.turns < s.old.cfg.turns }
    ensures { s.new ≡ failed_turn s.old phase }
{
    let most = s.config().turns;
    let turns = s.turns() + 1;
    s.set_turns(turns);
    if turns < most {
        s.set_phase(phase);
    } else {
        s.set_phase(Phase::Ending(End::Turns));
    }
}
