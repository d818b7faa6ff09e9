//! What an event stands for in the plain machine.

ghost use Rattle.std.specs.Prelude.{◌≡◌};
ghost use Rattle.machine_types.specs.Lawful.{IsLawful};
ghost use Rattle.event_texts.specs.Acts.{fate_of};
ghost use Rattle.event_texts.specs.Shares.{owed_behind, share_by, share_in};

use crate::acts::{Acts, acts_of};
use crate::fates::{Fate, fate_at};
use checked_program::Checked;
use frames::ThreadState;

/// What an event stands for in the plain machine.
#[derive(Debug, Drop)]
pub enum Share {
    /// Outside of attempts: these steps.
    Steps(Acts),
    /// In an attempt: nothing yet. So many steps are owed behind the event; none where the attempt
    /// fails.
    Owes(u64),
    /// In an attempt that finishes: an entry, so many steps that were owed, and an exit.
    Section(u64),
}

fn share_in(acts: &Acts, fate: Fate, was: u64) -> Share
    ensures { result ≡ share_in acts.now (fate_of fate) was }
{
    match fate {
        Fate::GoesOn => Share::Owes(was.saturating_add(acts.len())),
        Fate::Fails => Share::Owes(0),
        Fate::Finishes => Share::Section(was),
    }
}

/// What the event of a thread stands for that comes next and finds this, where so many steps are
/// owed of the open attempt.
pub fn share_of(s: &ThreadState, p: &Checked, got: u64, was: u64) -> Share
    requires program { p.now ≡ s.now.program }
    requires lawful { IsLawful p.now s.now }
    ensures { result ≡ share_by p.now s.now s.now.attempt got was }
{
    let acts = acts_of(s, p, got);
    match s.attempt() {
        Some(a) => share_in(&acts, fate_at(s, p, a, got), was),
        None => Share::Steps(acts),
    }
}

/// How many steps are owed behind it.
pub fn owed_behind(share: &Share, was: u64) -> u64
    ensures { result ≡ owed_behind share.now was }
{
    match share {
        Share::Steps(_) => was,
        Share::Owes(now) => *now,
        Share::Section(_) => 0,
    }
}
