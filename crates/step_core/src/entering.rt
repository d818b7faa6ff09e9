//! The entry of a monitor (JVMS 2.11.10).

ghost use Rattle.std.specs.Prelude.{◌≡◌, ◌<◌, length, true};
ghost use Rattle.jvm_types.specs.declared.limits.TheConstants.{MOST_ATTEMPTS};
ghost use Rattle.machine_types.specs.Elision.{may_try, tries};
ghost use Rattle.machine_types.specs.Monitors.{HasNot, claim, enter_moves, enter_wants};
ghost use Rattle.machine_types.specs.Sections.{entered_at};
ghost use Rattle.step_core.specs.Claims.{CanEnter};

use crate::attempts::enter_inside;
use crate::marked::is_marked;
use checked_program::{Checked, Spot};
use elided_section::begin;
use fat_monitor::{acquire, enter_again};
use frames::ThreadState;
use jvm_types::limits::MOST_ATTEMPTS;
use lock_word::{LockWord, read};
use machine_types::{Access, Phase};

/// The section that a frame enters at a pc.
#[inline(always)]
pub(crate) fn entered_at(pc: u32) -> Spot
    ensures { result ≡ entered_at pc }
{
    if pc == 0 {
        Spot::Method
    } else {
        Spot::Block(pc - 1)
    }
}

/// Whether the section that the top frame enters may be tried without its lock once more.
fn may_try(s: &ThreadState, p: &Checked, tried: u8) -> bool
    requires { 0 < length s.now.frames }
    ensures may { result ≡ may_try p.now s.now tried }
    ensures few { result ≡ true → tried < MOST_ATTEMPTS }
{
    s.config().elide && tried < MOST_ATTEMPTS && is_marked(p, s.method(), entered_at(s.pc()))
}

/// An attempt begins where the lock is free, and its count is not the last one.
fn try_section(s: &mut ThreadState, monitor: u32, tried: u8, lock: LockWord)
    requires frame { 0 < length s.old.frames }
    requires tried { tried < MOST_ATTEMPTS }
    ensures { s.new ≡ tries s.old monitor tried lock }
{
    match lock {
        LockWord::Free(count) => {
            if count < s.config().range as u64 {
                begin(s, monitor, count, tried + 1);
            } else {
                s.set_phase(Phase::Acquire(monitor));
            }
        }
        _ => s.set_phase(Phase::Acquire(monitor)),
    }
}

/// An entry of a monitor on which the thread has no claim, by its lock word.
fn enter_new(s: &mut ThreadState, p: &Checked, monitor: u32, tried: u8, found: u64)
    requires { CanEnter s.old monitor found }
    ensures { s.new ≡ enter_moves s.old monitor tried (may_try p.now s.old tried) HasNot found }
{
    if may_try(s, p, tried) {
        try_section(s, monitor, tried, read(found));
    } else {
        acquire(s, monitor, found);
    }
}

/// The entry of a monitor, with the number of attempts that were made at it.
pub fn enter(s: &mut ThreadState, p: &Checked, monitor: u32, tried: u8, found: u64)
    requires { CanEnter s.old monitor found }
    ensures { s.new
        ≡ enter_moves s.old monitor tried (may_try p.now s.old tried) (claim s.old monitor) found }
{
    if let Some(held) = s.held(monitor) {
        enter_again(s, monitor, held);
        return;
    }
    if let Some(a) = s.attempt() {
        if a.monitor == monitor {
            enter_inside(s);
            return;
        }
    }
    enter_new(s, p, monitor, tried, found);
}

/// The access of an entry: none where the thread has a claim on the monitor.
pub fn enter_wants(s: &ThreadState, monitor: u32) -> Option<Access>
    ensures { result ≡ enter_wants monitor (claim s.now monitor) }
{
    if s.held(monitor).is_some() {
        return None;
    }
    match s.attempt() {
        Some(a) => {
            if a.monitor == monitor {
                None
            } else {
                Some(Access::Load(monitor))
            }
        }
        None => Some(Access::Load(monitor)),
    }
}
