//! The access that a thread asks for.

ghost use Rattle.std.specs.Prelude.{◌≡◌, ◌≤◌, None, if◌then◌else◌};
ghost use Rattle.std.specs.List.{AllByRecursion};
ghost use Rattle.jvm_types.specs.declared.limits.TheConstants.{MOST_WORKERS};
ghost use Rattle.machine_types.specs.Bounds.{KeptFits, PhaseFits};
ghost use Rattle.machine_types.specs.HeldMonitors.{held_at};
ghost use Rattle.machine_types.specs.Monitors.{claim, count_kept, freed, leave_wants, release};
ghost use Rattle.fat_monitor.specs.Asking.{asked_access, asked_in, is_last_exit};

use crate::bits::{all_but, bit_of};
use frames::ThreadState;
use heap_words::{bits_word, owner_word};
use jvm_types::fixed_words::NEXT_RECORD_WORD;
use lock_word::{LockWord, next_count, word};
use machine_types::{Access, Held, Kept, Phase};

/// The count that a flat lock had where the thread took it.
pub fn count_kept(held: Option<Held>) -> u64
    ensures { result ≡ count_kept held }
{
    match held {
        Some(h) => match h.kept {
            Kept::Flat(count) => count,
            Kept::Fat(_) => 0,
        },
        None => 0,
    }
}

/// The free lock word that a release leaves, where the thread found the lock free with this count.
pub fn freed(s: &ThreadState, count: u64) -> u64
    ensures { result ≡ freed s.now count }
{
    word(LockWord::Free(next_count(count, s.config().range)))
}

/// The access by which the thread gives a monitor up.
fn release(s: &ThreadState, monitor: u32, kept: Kept) -> Access
    requires number { s.now.number ≤ MOST_WORKERS }
    requires kept { KeptFits kept }
    ensures { result ≡ release s.now monitor kept }
{
    match kept {
        Kept::Flat(count) => Access::Cas(
            monitor,
            word(LockWord::Held(s.number())),
            freed(s, count),
        ),
        Kept::Fat(record) => Access::Store(owner_word(record), 0),
    }
}

/// The access by which a thread gives up a monitor that it holds by its last entry.
pub fn ask_last_exit(s: &ThreadState, monitor: u32) -> Option<Access>
    requires number { s.now.number ≤ MOST_WORKERS }
    requires kept { AllByRecursion (λ h. KeptFits h.kept) s.now.held }
    ensures { result ≡ (if is_last_exit (claim s.now monitor) then leave_wants s.now monitor
        (claim s.now monitor) else None) }
{
    match s.held(monitor) {
        Some(h) => {
            if h.depth > 1 {
                None
            } else {
                Some(release(s, monitor, h.kept))
            }
        }
        None => None,
    }
}

/// The access of a phase.
fn ask_in(s: &ThreadState, phase: Phase) -> Option<Access>
    requires number { s.now.number ≤ MOST_WORKERS }
    requires phase { PhaseFits phase }
    requires kept { AllByRecursion (λ h. KeptFits h.kept) s.now.held }
    ensures { result ≡ asked_in s.now phase }
{
    match phase {
        Phase::Acquire(m) => Some(Access::Load(m)),
        Phase::Take(m, count) => Some(Access::Cas(
            m,
            word(LockWord::Free(count)),
            word(LockWord::Held(s.number())),
        )),
        Phase::Flag(m, u) => Some(Access::Cas(
            m,
            word(LockWord::Held(u)),
            word(LockWord::Flagged(u)),
        )),
        Phase::TakeFat(_, r) | Phase::Retake(_, r, _) => {
            Some(Access::Cas(owner_word(r), 0, s.number() as u64 + 1))
        }
        Phase::Leave(m, _) => ask_last_exit(s, m),
        Phase::Grow(_, _) => Some(Access::Add(NEXT_RECORD_WORD, 1)),
        Phase::FlatOut(m, _) => Some(Access::Store(m, freed(s, count_kept(s.held(m))))),
        Phase::Own(_, r, _) => Some(Access::Store(owner_word(r), s.number() as u64 + 1)),
        Phase::FatIn(m, r, _) => Some(Access::Store(m, word(LockWord::Fat(r)))),
        Phase::WaitBit(_, r) => Some(Access::Or(bits_word(r), bit_of(s.number()))),
        Phase::WaitOut(_, r) => Some(Access::Store(owner_word(r), 0)),
        Phase::WaitLook(_, r, _) | Phase::NotifyLook(_, r) => Some(Access::Load(bits_word(r))),
        Phase::NotifyOne(_, r, u) => Some(Access::And(bits_word(r), all_but(u))),
        Phase::NotifyAll(_, r) => Some(Access::Store(bits_word(r), 0)),
        _ => None,
    }
}

/// What the thread asks of the words in the phases `Acquire` to `TakeFat` and `Grow` to
/// `NotifyAll`, and in `Leave` where it holds the monitor by its last entry. The answer is `None`
/// in every other one.
pub fn ask(s: &ThreadState) -> Option<Access>
    requires number { s.now.number ≤ MOST_WORKERS }
    requires phase { PhaseFits s.now.phase }
    requires kept { AllByRecursion (λ h. KeptFits h.kept) s.now.held }
    ensures { result ≡ asked_access s.now }
{
    ask_in(s, s.phase())
}
