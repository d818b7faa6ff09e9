//! The attempt of a thread: its begin, its checks, and its two ends.

ghost use Rattle.std.specs.Prelude.{◌≡◌, ◌<◌, ◌^◌, length, IfSome, IsSome};
ghost use Rattle.jvm_types.specs.declared.limits.TheConstants.{MOST_LIMIT};
ghost use Rattle.machine_types.specs.Elision.{begins, fails};
ghost use Rattle.frames.specs.KeptAttempts.{IsBased};
ghost use Rattle.elided_section.specs.Checkups.{checkup, section_finished};
ghost use Rattle.elided_section.specs.declared.checkup.Checkup.TheVariants.{Differs};

use crate::checkup::{Checkup, compare};
use frames::{ThreadState, count_elided, count_failed, runs};
use machine_types::Phase;

/// Begins attempt `number` of an entry of the monitor, whose free lock word was found with the
/// count `noted`. The top frame, which enters the section, is kept as it is.
pub fn begin(s: &mut ThreadState, monitor: u32, noted: u64, number: u8)
    requires { 0 < length s.old.frames }
    ensures { s.new ≡ begins s.old s.old.frames monitor noted number }
{
    s.checkpoint(monitor, noted, number);
    runs(s);
}

/// Whether the lock word that was found is as the attempt noted it.
#[inline(always)]
pub fn check(s: &ThreadState, found: u64) -> Checkup
    requires some { IsSome s.now.attempt }
    requires noted { IfSome s.now.attempt (λ a. a.noted < 2 ^ 62) }
    ensures { IfSome s.now.attempt (λ a. result ≡ checkup a.noted found) }
{
    match s.attempt() {
        Some(a) => compare(a.noted, found),
        None => unreachable!(),
    }
}

/// The same at the end of the section: where the word is as it was noted, the section is done and
/// counted, else nothing changes.
pub fn finish(s: &mut ThreadState, found: u64) -> Checkup
    requires some { IsSome s.old.attempt }
    requires noted { IfSome s.old.attempt (λ a. a.noted < 2 ^ 62) }
    requires count { s.old.counts.elided < MOST_LIMIT }
    ensures result { IfSome s.old.attempt (λ a. result ≡ checkup a.noted found) }
    ensures state { s.new ≡ section_finished s.old result }
{
    let checkup = check(s, found);
    if checkup == Checkup::Same {
        s.end_attempt();
        count_elided(s);
    }
    checkup
}

/// Gives the attempt up, where a check found the lock word other than it was noted: the frame that
/// entered the section is as it was, those above are dropped, the failure is counted, and the
/// section is entered again.
pub fn fail(s: &mut ThreadState, noted: u64, found: u64)
    requires some { IsSome s.old.attempt }
    requires differs { IfSome s.old.attempt (λ a. checkup a.noted found ≡ Differs noted found) }
    requires based { IfSome s.old.attempt (IsBased s.old.frames) }
    requires count { s.old.counts.failed < MOST_LIMIT }
    ensures { IfSome s.old.attempt (λ a. s.new ≡ fails s.old a) }
{
    match s.attempt() {
        Some(a) => {
            s.restore();
            s.end_attempt();
            count_failed(s);
            s.set_phase(Phase::Enter(a.monitor, a.number));
        }
        None => unreachable!(),
    }
}
