//! The exit of a monitor by a thread alone, whose frames are at hand: once, for the last time where
//! its flat lock is as it was left, inside its attempt, or at the end of it (JVMS 2.11.10; the flat
//! lock and the attempt are those of the PLDI 2010 publication).

ghost use Rattle.std.specs.Prelude.{◌≡◌, ◌<◌, ◌≤◌, Some, None, IfSome, IsSome, option_map, true};
ghost use Rattle.std.specs.Prelude.{false};
ghost use Rattle.jvm_types.specs.declared.limits.TheConstants.{MOST_LIMIT, MOST_WORKERS};
ghost use Rattle.machine_types.specs.HeldMonitors.{held_at};
ghost use Rattle.machine_types.specs.Threads.{head_of};
ghost use Rattle.machine_types.specs.declared.lock.Kept.TheVariants.{Flat};
ghost use Rattle.step_core.specs.Passing.{Passes};
ghost use Rattle.step_core.specs.Sections.{IsExitMade};

use checked_program::Checked;
use fat_monitor::{freed, put_depth};
use frames::{ThreadState, count_elided};
use jvm_types::Rows;
use lock_word::{LockWord, word};
use machine_types::{AttemptHead, Held, Kept};

/// A monitor that the thread holds is left once, but not for the last time.
#[inline(always)]
fn leave_once(s: &mut ThreadState, p: &Checked, monitor: u32, held: Held, words: &Rows<u64>)
    requires held { held_at s.old.held monitor ≡ Some held }
    requires depth { 1 < held.depth }
    requires passes { Passes s.old words.now }
    ensures on { IsExitMade p.now monitor s.old s.new words.now words.now }
    ensures passes { Passes s.new words.now }
    ensures of { s.new.program ≡ s.old.program }
    ensures settings { s.new.cfg ≡ s.old.cfg }
{
    put_depth(s, monitor, held, held.depth - 1);
}

/// A flat lock is freed, where its word is as it was left; else nothing changes, and it answers
/// `false`.
#[inline(always)]
fn free(
    s: &mut ThreadState,
    p: &Checked,
    monitor: u32,
    held: Held,
    noted: u64,
    words: &mut Rows<u64>,
) -> bool
    requires held { held_at s.old.held monitor ≡ Some held }
    requires last { held.depth ≤ 1 }
    requires kept { held.kept ≡ Flat noted }
    requires alone { s.old.attempt ≡ None }
    requires number { s.old.number ≤ MOST_WORKERS }
    ensures on { result ≡ true → IsExitMade p.now monitor s.old s.new words.old words.new }
    ensures passes { Passes s.new words.new }
    ensures of { s.new.program ≡ s.old.program }
    ensures settings { s.new.cfg ≡ s.old.cfg }
    ensures still { result ≡ false → s.new ≡ s.old }
    ensures same { result ≡ false → words.new ≡ words.old }
{
    let at = monitor as usize;
    if at >= words.len() || words.as_slice()[at] != word(LockWord::Held(s.number())) {
        return false;
    }
    words.set(at, freed(s, noted));
    s.drop_held(monitor);
    true
}

/// The attempt is done, and its section counted.
#[inline(always)]
fn finish(s: &mut ThreadState, p: &Checked, monitor: u32, words: &Rows<u64>)
    requires none { held_at s.old.held monitor ≡ None }
    requires some { IsSome s.old.attempt }
    requires own { IfSome s.old.attempt (λ a. a.monitor ≡ monitor) }
    requires last { IfSome s.old.attempt (λ a. a.inner ≡ 0) }
    requires passes { Passes s.old words.now }
    requires count { s.old.counts.elided < MOST_LIMIT }
    ensures on { IsExitMade p.now monitor s.old s.new words.now words.now }
    ensures passes { Passes s.new words.now }
    ensures of { s.new.program ≡ s.old.program }
    ensures settings { s.new.cfg ≡ s.old.cfg }
{
    s.end_attempt();
    count_elided(s);
}

/// The monitor of the attempt is left inside the section.
#[inline(always)]
fn leave_inside(s: &mut ThreadState, p: &Checked, monitor: u32, inner: u64, words: &Rows<u64>)
    requires none { held_at s.old.held monitor ≡ None }
    requires some { IsSome s.old.attempt }
    requires own { IfSome s.old.attempt (λ a. a.monitor ≡ monitor) }
    requires inner { IfSome s.old.attempt (λ a. a.inner ≡ inner) }
    requires deep { 0 < inner }
    requires passes { Passes s.old words.now }
    ensures on { IsExitMade p.now monitor s.old s.new words.now words.now }
    ensures passes { Passes s.new words.now }
    ensures of { s.new.program ≡ s.old.program }
    ensures settings { s.new.cfg ≡ s.old.cfg }
{
    s.set_inner(inner - 1);
}

/// The exit of a monitor of the attempt, where it is that.
#[inline(always)]
fn leave_section(
    s: &mut ThreadState,
    p: &Checked,
    monitor: u32,
    a: AttemptHead,
    words: &Rows<u64>,
) -> bool
    requires none { held_at s.old.held monitor ≡ None }
    requires is { Some a ≡ option_map head_of s.old.attempt }
    requires passes { Passes s.old words.now }
    requires count { IfSome s.old.attempt (λ a. s.old.counts.elided < MOST_LIMIT) }
    ensures on { result ≡ true → IsExitMade p.now monitor s.old s.new words.now words.now }
    ensures passes { Passes s.new words.now }
    ensures of { s.new.program ≡ s.old.program }
    ensures settings { s.new.cfg ≡ s.old.cfg }
    ensures still { result ≡ false → s.new ≡ s.old }
{
    if a.monitor != monitor {
        return false;
    }
    if a.inner == 0 {
        finish(s, p, monitor, words);
    } else {
        leave_inside(s, p, monitor, a.inner, words);
    }
    true
}

/// The exit of a monitor that the thread holds, but for the last one of a fat lock, and of a flat
/// one that is not as it was left.
#[inline(always)]
fn leave_held(
    s: &mut ThreadState,
    p: &Checked,
    monitor: u32,
    held: Held,
    words: &mut Rows<u64>,
) -> bool
    requires held { held_at s.old.held monitor ≡ Some held }
    requires number { s.old.number ≤ MOST_WORKERS }
    requires passes { Passes s.old words.old }
    ensures on { result ≡ true → IsExitMade p.now monitor s.old s.new words.old words.new }
    ensures passes { Passes s.new words.new }
    ensures of { s.new.program ≡ s.old.program }
    ensures settings { s.new.cfg ≡ s.old.cfg }
    ensures still { result ≡ false → s.new ≡ s.old }
    ensures same { result ≡ false → words.new ≡ words.old }
{
    if held.depth > 1 {
        leave_once(s, p, monitor, held, words);
        return true;
    }
    match held.kept {
        Kept::Flat(noted) => { s.attempt().is_none() && free(s, p, monitor, held, noted, words) }
        Kept::Fat(_) => false,
    }
}

/// The exit of a monitor in one event, as long as it is that of a thread alone; else nothing
/// changes, and it answers `false`.
pub fn leave(s: &mut ThreadState, p: &Checked, monitor: u32, words: &mut Rows<u64>) -> bool
    requires number { s.old.number ≤ MOST_WORKERS }
    requires passes { Passes s.old words.old }
    requires count { IfSome s.old.attempt (λ a. s.old.counts.elided < MOST_LIMIT) }
    ensures on { result ≡ true → IsExitMade p.now monitor s.old s.new words.old words.new }
    ensures passes { Passes s.new words.new }
    ensures of { s.new.program ≡ s.old.program }
    ensures settings { s.new.cfg ≡ s.old.cfg }
    ensures still { result ≡ false → s.new ≡ s.old }
    ensures same { result ≡ false → words.new ≡ words.old }
{
    if let Some(held) = s.held(monitor) {
        return leave_held(s, p, monitor, held, words);
    }
    match s.attempt() {
        Some(a) => leave_section(s, p, monitor, a, words),
        None => false,
    }
}
