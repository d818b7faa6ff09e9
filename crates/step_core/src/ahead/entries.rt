//! The entry of a monitor by a thread alone, whose frames are at hand: again, inside its attempt,
//! by an attempt that begins, or by taking a flat lock that is free (JVMS 2.11.10; the flat lock
//! and the attempt are those of the PLDI 2010 publication).

ghost use Rattle.std.specs.Prelude.{◌≡◌, ◌<◌, ◌≤◌, ℕ, length, slice_index, Some, None, IfSome};
ghost use Rattle.std.specs.Prelude.{IsSome, true, false};
ghost use Rattle.jvm_types.specs.declared.limits.TheConstants.{MOST_WORKERS};
ghost use Rattle.machine_types.specs.Elision.{may_try};
ghost use Rattle.machine_types.specs.Going.{runs};
ghost use Rattle.machine_types.specs.HeldMonitors.{held_at};
ghost use Rattle.machine_types.specs.LockWords.{word_of_lock};
ghost use Rattle.machine_types.specs.declared.lock.LockWord.TheVariants.{Free};
ghost use Rattle.step_core.specs.Alone.{IsFine, alone, stepped, stepped_by};
ghost use Rattle.step_core.specs.Passing.{Passes};
ghost use Rattle.step_core.specs.Running.{running_at};
ghost use Rattle.step_core.specs.Sections.{entering};

use crate::attempts::enter_inside;
use crate::entering::entered_at;
use crate::marked::is_marked;
use checked_program::Checked;
use fat_monitor::{enter_again, take_unheld};
use frames::{FrameStack, ThreadState};
use jvm_types::Rows;
use laws_threads::held_has_room;
use lock_word::{LockWord, word};
use machine_types::{Held, Kept};

/// The counts of a lock word are below this.
pub const COUNTS: u64 = 1 << 62;

/// A monitor that the thread holds is entered once more.
#[inline(always)]
fn enter_held(
    s: &mut ThreadState,
    f: &FrameStack,
    p: &Checked,
    monitor: u32,
    held: Held,
    words: &Rows<u64>,
    count: u32,
)
    requires held { held_at s.old.held monitor ≡ Some held }
    requires depth { held.depth < 18446744073709551615 }
    requires passes { Passes s.old words.now }
    ensures on { alone (runs (running_at s.new f.now count)) words.now
        ≡ stepped p.now (alone (entering s.old f.now count monitor) words.now) }
    ensures passes { Passes s.new words.now }
    ensures of { s.new.program ≡ s.old.program }
    ensures settings { s.new.cfg ≡ s.old.cfg }
{
    s.set_turns(0);
    enter_again(s, monitor, held);
}

/// The monitor of the attempt is entered again inside the section.
#[inline(always)]
fn enter_section_again(
    s: &mut ThreadState,
    f: &FrameStack,
    p: &Checked,
    monitor: u32,
    words: &Rows<u64>,
    count: u32,
)
    requires none { held_at s.old.held monitor ≡ None }
    requires some { IsSome s.old.attempt }
    requires own { IfSome s.old.attempt (λ a. a.monitor ≡ monitor) }
    requires inner { IfSome s.old.attempt (λ a. a.inner < 18446744073709551615) }
    requires passes { Passes s.old words.now }
    ensures on { alone (runs (running_at s.new f.now count)) words.now
        ≡ stepped p.now (alone (entering s.old f.now count monitor) words.now) }
    ensures passes { Passes s.new words.now }
    ensures of { s.new.program ≡ s.old.program }
    ensures settings { s.new.cfg ≡ s.old.cfg }
{
    s.set_turns(0);
    enter_inside(s);
}

/// Whether the section that the top frame enters may be tried without its lock.
#[inline(always)]
pub fn may_try(s: &ThreadState, f: &FrameStack, p: &Checked, monitor: u32, count: u32) -> bool
    requires { 0 < length f.now.frames }
    ensures { result ≡ may_try p.now (entering s.now f.now count monitor) 0 }
{
    s.config().elide && is_marked(p, f.method(), entered_at(f.pc()))
}

/// An attempt begins, by the count of the free lock word.
#[inline(always)]
fn begin(
    s: &mut ThreadState,
    f: &FrameStack,
    p: &Checked,
    monitor: u32,
    noted: u64,
    words: &Rows<u64>,
    count: u32,
)
    requires of { s.old.program ≡ p.now }
    requires program { f.now.program ≡ p.now.program }
    requires frame { 0 < length f.now.frames }
    requires held { held_at s.old.held monitor ≡ None }
    requires alone { s.old.attempt ≡ None }
    requires may { may_try p.now (entering s.old f.now count monitor) 0 ≡ true }
    requires word { slice_index words.now monitor ≡ word_of_lock (Free noted) }
    requires few { noted < s.old.cfg.range }
    ensures on { alone (runs (running_at s.new f.now count)) words.now
        ≡ stepped p.now (alone (entering s.old f.now count monitor) words.now) }
    ensures passes { Passes s.new words.now }
    ensures of { s.new.program ≡ s.old.program }
    ensures settings { s.new.cfg ≡ s.old.cfg }
{
    s.set_turns(0);
    s.checkpoint_of(f, monitor, noted, 1);
}

/// A flat lock is taken, in two events.
#[inline(always)]
fn take_flat(
    s: &mut ThreadState,
    f: &FrameStack,
    p: &Checked,
    monitor: u32,
    noted: u64,
    words: &mut Rows<u64>,
    count: u32,
)
    requires of { s.old.program ≡ p.now }
    requires held { held_at s.old.held monitor ≡ None }
    requires alone { s.old.attempt ≡ None }
    requires locks { may_try p.now (entering s.old f.now count monitor) 0 ≡ false }
    requires there { monitor < length words.old }
    requires word { slice_index words.old monitor ≡ word_of_lock (Free noted) }
    requires number { s.old.number ≤ MOST_WORKERS }
    requires fine { IsFine p.now
        (stepped p.now (alone (entering s.old f.now count monitor) words.old)) }
    ensures on { alone (runs (running_at s.new f.now count)) words.new
        ≡ stepped p.now (stepped p.now (alone (entering s.old f.now count monitor) words.old)) }
    ensures passes { Passes s.new words.new }
    ensures of { s.new.program ≡ s.old.program }
    ensures settings { s.new.cfg ≡ s.old.cfg }
{
    held_has_room();
    let _limits = s.config();
    let _depth = f.depth();
    s.set_turns(0);
    take_unheld(s, monitor, Kept::Flat(noted));
    words.set(monitor as usize, word(LockWord::Held(s.number())));
}

/// An entry of a monitor on which the thread has no claim, and whose lock word is free: tells how
/// many events it made.
#[inline(always)]
fn enter_new(
    s: &mut ThreadState,
    f: &FrameStack,
    p: &Checked,
    monitor: u32,
    noted: u64,
    words: &mut Rows<u64>,
    count: u32,
) -> u8
    requires of { s.old.program ≡ p.now }
    requires program { f.now.program ≡ p.now.program }
    requires frame { 0 < length f.now.frames }
    requires held { held_at s.old.held monitor ≡ None }
    requires alone { s.old.attempt ≡ None }
    requires there { monitor < length words.old }
    requires word { slice_index words.old monitor ≡ word_of_lock (Free noted) }
    requires number { s.old.number ≤ MOST_WORKERS }
    requires fine { IsFine p.now
        (stepped p.now (alone (entering s.old f.now count monitor) words.old)) }
    ensures on { 0 < result → alone (runs (running_at s.new f.now count)) words.new
        ≡ stepped_by p.now result (alone (entering s.old f.now count monitor) words.old) }
    ensures few { result ≤ 2 }
    ensures still { result ≡ 0 → s.new ≡ s.old }
    ensures same { result ≡ 0 → words.new ≡ words.old }
    ensures passes { Passes s.new words.new }
    ensures of { s.new.program ≡ s.old.program }
    ensures settings { s.new.cfg ≡ s.old.cfg }
{
    if may_try(s, f, p, monitor, count) {
        if noted >= s.config().range as u64 {
            return 0;
        }
        begin(s, f, p, monitor, noted, words, count);
        1
    } else {
        take_flat(s, f, p, monitor, noted, words, count);
        2
    }
}

/// An entry of a monitor whose lock word is free, so that the thread does not hold it, by its
/// attempt, or by that word: tells how many events it made.
#[inline(always)]
fn enter_free(
    s: &mut ThreadState,
    f: &FrameStack,
    p: &Checked,
    monitor: u32,
    noted: u64,
    words: &mut Rows<u64>,
    count: u32,
) -> u8
    requires of { s.old.program ≡ p.now }
    requires program { f.now.program ≡ p.now.program }
    requires there { monitor < length words.old }
    requires word { slice_index words.old monitor ≡ word_of_lock (Free noted) }
    requires passes { Passes s.old words.old }
    requires fine { (k : ℕ)
        → IsFine p.now (stepped_by p.now k (alone (entering s.old f.now count monitor) words.old)) }
    ensures on { 0 < result → alone (runs (running_at s.new f.now count)) words.new
        ≡ stepped_by p.now result (alone (entering s.old f.now count monitor) words.old) }
    ensures few { result ≤ 2 }
    ensures still { result ≡ 0 → s.new ≡ s.old }
    ensures same { result ≡ 0 → words.new ≡ words.old }
    ensures passes { Passes s.new words.new }
    ensures of { s.new.program ≡ s.old.program }
    ensures settings { s.new.cfg ≡ s.old.cfg }
{
    // its limits are `u32`s, and there are at most 9 threads
    let _limits = s.config();
    let _workers = p.workers();
    match s.attempt() {
        Some(a) => {
            if a.monitor != monitor {
                return 0;
            }
            enter_section_again(s, f, p, monitor, words, count);
            1
        }
        None => enter_new(s, f, p, monitor, noted, words, count),
    }
}

/// The count of a lock word that is there and is free.
#[inline(always)]
fn free_count(words: &Rows<u64>, monitor: u32) -> Option<u64>
    ensures there { IsSome result → monitor < length words.now }
    ensures free { IfSome result
        (λ noted. slice_index words.now monitor ≡ word_of_lock (Free noted)) }
{
    let at = monitor as usize;
    if at >= words.len() {
        return None;
    }
    let found = words.as_slice()[at];
    let noted = found / 4;
    if noted < COUNTS && found == word(LockWord::Free(noted)) {
        Some(noted)
    } else {
        None
    }
}

/// The entry of a monitor, behind the instruction that begins it, as long as its events are those
/// of a thread alone that waits for nobody: tells how many they are. Where there is none, nothing
/// changes. It is inlined with all that has the frames, so that the loop keeps them at hand.
#[inline(always)]
pub fn enter_at(
    s: &mut ThreadState,
    f: &FrameStack,
    p: &Checked,
    monitor: u32,
    words: &mut Rows<u64>,
    count: u32,
) -> u8
    requires of { s.old.program ≡ p.now }
    requires program { f.now.program ≡ p.now.program }
    requires passes { Passes s.old words.old }
    requires fine { (k : ℕ)
        → IsFine p.now (stepped_by p.now k (alone (entering s.old f.now count monitor) words.old)) }
    ensures on { 0 < result → alone (runs (running_at s.new f.now count)) words.new
        ≡ stepped_by p.now result (alone (entering s.old f.now count monitor) words.old) }
    ensures few { result ≤ 2 }
    ensures still { result ≡ 0 → s.new ≡ s.old }
    ensures same { result ≡ 0 → words.new ≡ words.old }
    ensures passes { Passes s.new words.new }
    ensures of { s.new.program ≡ s.old.program }
    ensures settings { s.new.cfg ≡ s.old.cfg }
{
    // its limits are `u32`s
    let _limits = s.config();
    if let Some(noted) = free_count(words, monitor) {
        return enter_free(s, f, p, monitor, noted, words, count);
    }
    match s.held(monitor) {
        Some(held) => {
            enter_held(s, f, p, monitor, held, words, count);
            1
        }
        None => 0,
    }
}
