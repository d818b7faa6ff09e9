//! What an event does to the attempt of a thread: its checks, the entries of its monitor inside the
//! section, and its end.

ghost use Rattle.std.specs.Prelude.{◌≡◌, ◌<◌, ◌+◌, IfSome, IsSome};
ghost use Rattle.machine_types.specs.Elision.{if_same, looks};
ghost use Rattle.machine_types.specs.Going.{runs};
ghost use Rattle.machine_types.specs.Monitors.{finishes};
ghost use Rattle.instr_steps.specs.Effecting.{passes};
ghost use Rattle.step_core.specs.Claims.{CanFailCheck, CanLeave};

use checked_program::Checked;
use elided_section::{Checkup, check, fail, finish};
use frames::{ThreadState, runs};
use instr_steps::go_after;
use machine_types::{Access, After};

/// The access of a check.
#[inline(always)]
pub fn looks(s: &ThreadState) -> Option<Access>
    ensures { result ≡ looks s.now.attempt }
{
    match s.attempt() {
        Some(a) => Some(Access::Load(a.monitor)),
        None => None,
    }
}

/// Whether a check lets the thread go on. Where it does not, the attempt has failed.
#[inline(always)]
pub fn passes(s: &mut ThreadState, found: u64) -> bool
    requires { CanFailCheck s.old }
    ensures passes { result ≡ passes s.old.attempt found }
    ensures state { s.new ≡ if_same s.old s.old.attempt found s.old }
{
    if s.attempt().is_none() {
        return true;
    }
    match check(s, found) {
        Checkup::Same => true,
        Checkup::Differs { noted, found } => {
            fail(s, noted, found);
            false
        }
    }
}

/// The monitor of the attempt is entered again inside the section.
pub fn enter_inside(s: &mut ThreadState)
    requires some { IsSome s.old.attempt }
    requires inner { IfSome s.old.attempt (λ a. a.inner < 18446744073709551615) }
    ensures { IfSome s.old.attempt
        (λ a. s.new ≡ runs (record s.old { attempt = Some (record a { inner = a.inner + 1 }) })) }
{
    match s.attempt() {
        Some(a) => {
            s.set_inner(a.inner + 1);
            runs(s);
        }
        None => unreachable!(),
    }
}

/// The section of the attempt is left, by the lock word that was found.
fn finish_section(s: &mut ThreadState, p: &Checked, after: After, found: u64)
    requires some { IsSome s.old.attempt }
    requires program { p.now ≡ s.old.program }
    requires can { CanLeave p.now s.old after }
    ensures { IfSome s.old.attempt (λ a. s.new ≡ finishes p.now.program s.old after a 0 found) }
{
    match finish(s, found) {
        Checkup::Same => go_after(s, p, after),
        Checkup::Differs { noted, found } => fail(s, noted, found),
    }
}

/// The monitor of the attempt is left: inside the section, or at its end.
pub fn leave_attempt(s: &mut ThreadState, p: &Checked, after: After, found: u64)
    requires some { IsSome s.old.attempt }
    requires program { p.now ≡ s.old.program }
    requires can { CanLeave p.now s.old after }
    ensures { IfSome s.old.attempt
        (λ a. s.new ≡ finishes p.now.program s.old after a a.inner found) }
{
    match s.attempt() {
        Some(a) => {
            if a.inner == 0 {
                finish_section(s, p, after, found);
            } else {
                s.set_inner(a.inner - 1);
                go_after(s, p, after);
            }
        }
        None => unreachable!(),
    }
}
