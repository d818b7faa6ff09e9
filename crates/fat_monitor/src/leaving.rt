//! How a monitor is left that a thread holds by its last entry, and how its flat lock is made fat.

ghost use Rattle.std.specs.Prelude.{◌≡◌, ◌≤◌, ◌<◌, true, Some, None, if◌then◌else◌, nat_lt};
ghost use Rattle.jvm_types.specs.declared.limits.TheConstants.{MOST_LIMIT, MOST_WORKERS};
ghost use Rattle.machine_types.specs.Going.{with_phase};
ghost use Rattle.machine_types.specs.HeldMonitors.{held_at};
ghost use Rattle.machine_types.specs.Monitors.{claim, fattens, grown, grows_not, leave_moves};
ghost use Rattle.machine_types.specs.Monitors.{lets_go, released};
ghost use Rattle.machine_types.specs.declared.phase.Phase.TheVariants.{Own};
ghost use Rattle.fat_monitor.specs.Asking.{is_last_exit};
ghost use Rattle.fat_monitor.specs.Answering.{CanGoOn};

use checked_program::Checked;
use frames::{ThreadState, count_inflated};
use instr_steps::go_after;
use jvm_types::End;
use jvm_types::fixed_words::MONITOR_RECORDS;
use lock_word::{LockWord, word};
use machine_types::{After, Held, Kept, Phase, Toward};

/// The monitor is no longer held.
pub fn let_go(s: &mut ThreadState, p: &Checked, monitor: u32, after: After)
    requires program { p.now ≡ s.old.program }
    requires onward { CanGoOn p.now s.old after }
    ensures { s.new ≡ lets_go p.now.program s.old monitor after }
{
    s.drop_held(monitor);
    go_after(s, p, after);
}

/// By the word that the release found: a flat lock that is not as the thread left it has been
/// flagged, and is made fat.
fn release(s: &mut ThreadState, p: &Checked, monitor: u32, after: After, kept: Kept, found: u64)
    requires program { p.now ≡ s.old.program }
    requires onward { CanGoOn p.now s.old after }
    requires number { s.old.number ≤ MOST_WORKERS }
    ensures { s.new ≡ released p.now.program s.old monitor after kept found }
{
    match kept {
        Kept::Flat(_) => {
            if found == word(LockWord::Held(s.number())) {
                let_go(s, p, monitor, after);
            } else {
                s.set_phase(Phase::Grow(monitor, Toward::Leave(after)));
            }
        }
        Kept::Fat(_) => let_go(s, p, monitor, after),
    }
}

/// The last exit of a monitor that the thread holds.
pub fn exit_last(s: &mut ThreadState, p: &Checked, monitor: u32, after: After, found: u64)
    requires last { is_last_exit (claim s.old monitor) ≡ true }
    requires program { p.now ≡ s.old.program }
    requires onward { CanGoOn p.now s.old after }
    requires number { s.old.number ≤ MOST_WORKERS }
    ensures { s.new ≡ leave_moves p.now.program s.old monitor after (claim s.old monitor) found }
{
    match s.held(monitor) {
        Some(h) => release(s, p, monitor, after, h.kept, found),
        None => unreachable!(),
    }
}

/// There is no record left: a lock that was to be left is freed, and a thread that was to wait ends
/// by Records.
fn grow_not(s: &mut ThreadState, monitor: u32, toward: Toward)
    ensures { s.new ≡ grows_not s.old monitor toward }
{
    match toward {
        Toward::Leave(after) => s.set_phase(Phase::FlatOut(monitor, after)),
        Toward::Wait => s.set_phase(Phase::Ending(End::Records)),
    }
}

/// By the number of the record that was drawn.
pub fn grow(s: &mut ThreadState, monitor: u32, toward: Toward, number: u64)
    ensures { s.new ≡ (if nat_lt number MONITOR_RECORDS then with_phase s.old
        (Own monitor number toward) else grows_not s.old monitor toward) }
{
    if number < MONITOR_RECORDS as u64 {
        s.set_phase(Phase::Own(monitor, number as u32, toward));
    } else {
        grow_not(s, monitor, toward);
    }
}

fn grown(monitor: u32, number: u32, toward: Toward) -> Phase
    ensures { result ≡ grown monitor number toward }
{
    match toward {
        Toward::Leave(after) => Phase::Leave(monitor, after),
        Toward::Wait => Phase::WaitBit(monitor, number),
    }
}

/// The lock word has the record: the thread keeps its number, and the lock is counted.
pub fn fatten(s: &mut ThreadState, monitor: u32, number: u32, toward: Toward)
    requires { s.old.counts.inflated < MOST_LIMIT }
    ensures { s.new ≡ fattens s.old monitor number toward (held_at s.old.held monitor) }
{
    if let Some(h) = s.held(monitor) {
        s.put_held(Held {
            kept: Kept::Fat(number),
            ..h
        });
        count_inflated(s);
        s.set_phase(grown(monitor, number, toward));
    }
}
