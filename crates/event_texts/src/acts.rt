//! The acts of the plain machine for which one event stands, as if its thread held what it has an
//! attempt on.

ghost use Rattle.std.specs.Prelude.{◌≡◌, ◌<◌, ◌==◌, ◌^◌, [], ◌∷◌};
ghost use Rattle.machine_types.specs.Frames.{top_of};
ghost use Rattle.machine_types.specs.History.{acts_of, enter_acts, act_if, instruction_acts};
ghost use Rattle.machine_types.specs.History.{leave_acts, notify_acts, release_acts, run_acts};
ghost use Rattle.machine_types.specs.HeldMonitors.{held_at};
ghost use Rattle.machine_types.specs.Lawful.{IsLawful};
ghost use Rattle.machine_types.specs.LockWords.{word_of_lock};
ghost use Rattle.machine_types.specs.Monitors.{claim};
ghost use Rattle.machine_types.specs.declared.lock.LockWord.TheVariants.{Free};
ghost use Rattle.machine_types.specs.declared.phase.Phase.TheVariants.{Run};
ghost use Rattle.event_texts.specs.Acts.{DoingFits, MonitorFits, doing_acts, listed, tried};

use crate::doing::{Doing, next_doing};
use checked_program::Checked;
use frames::ThreadState;
use instr_effects::ints::low;
use jvm_types::fixed_words::HEADER_CLASSES;
use laws_threads::effects_are_allowed;
use machine_types::{Act, AttemptHead, Effect, Held, Kept, Phase};
use std::marker::Model;

/// Acts, at most two.
#[derive(Debug, Drop)]
pub struct Acts {
    first: Option<Act>,
    second: Option<Act>,
}

impl Model for Acts {
    ghost use Rattle.std.specs.Prelude.{List};
    ghost use Rattle.machine_types.specs.declared.plain.Act.{Act as PlainAct};
    ghost use Rattle.event_texts.specs.Acts.{listed};

    ghost Value = { List PlainAct };

    ghost view = { λ a. listed a.first a.second };
}

impl Acts {
    ghost use Rattle.std.specs.Prelude.{length};

    pub fn none() -> Acts
        ensures { result ≡ [] }
    {
        Acts {
            first: None,
            second: None,
        }
    }

    pub fn one(act: Act) -> Acts
        ensures { result ≡ act ∷ [] }
    {
        Acts {
            first: Some(act),
            second: None,
        }
    }

    pub fn two(act: Act, other: Act) -> Acts
        ensures { result ≡ act ∷ other ∷ [] }
    {
        Acts {
            first: Some(act),
            second: Some(other),
        }
    }

    /// The first and the second of them.
    pub fn both(&self) -> (Option<Act>, Option<Act>)
        ensures { listed result.0 result.1 ≡ self.now }
    {
        (self.first, self.second)
    }

    /// How many there are.
    pub fn len(&self) -> u64
        ensures { result ≡ length self.now }
    {
        match (self.first, self.second) {
            (None, _) => 0,
            (Some(_), None) => 1,
            (Some(_), Some(_)) => 2,
        }
    }
}

fn if_so(so: bool, act: Act) -> Acts
    ensures { result ≡ act_if so act }
{
    if so { Acts::one(act) } else { Acts::none() }
}

/// A notification, which on a flat lock is done with its instruction.
fn notified(held: Option<Held>, act: Act) -> Acts
    ensures { result ≡ notify_acts held act }
{
    match held {
        Some(h) => match h.kept {
            Kept::Flat(_) => Acts::two(Act::Do, act),
            Kept::Fat(_) => Acts::one(Act::Do),
        },
        None => Acts::one(Act::Do),
    }
}

fn held(s: &ThreadState, m: u64) -> Option<Held>
    requires { m < 2 ^ 32 }
    ensures { result ≡ held_at s.now.held m }
{
    s.held(m as u32)
}

/// Of an instruction. An element that is there is read or stored in a second event.
fn instruction_acts(s: &ThreadState, effect: Effect, got: u64) -> Acts
    requires { MonitorFits effect }
    ensures { result ≡ instruction_acts s.now effect got }
{
    match effect {
        Effect::Indexes(_, i, _) => {
            if low(i) < got / HEADER_CLASSES {
                Acts::none()
            } else {
                Acts::one(Act::Do)
            }
        }
        Effect::Prints(_) => if_so(s.prints_made() < s.config().prints, Act::Do),
        Effect::Notifies(m) => notified(held(s, m), Act::Notify(None)),
        Effect::NotifiesAll(m) => notified(held(s, m), Act::NotifyAll),
        Effect::Stuck => Acts::none(),
        _ => Acts::one(Act::Do),
    }
}

fn doing_acts(s: &ThreadState, doing: Option<Doing>, got: u64) -> Acts
    requires { DoingFits doing }
    ensures { result ≡ doing_acts s.now doing got }
{
    match doing {
        Some(d) => instruction_acts(s, d.effect, got),
        None => Acts::none(),
    }
}

#[tactic(auto, using(crate::proofs::DoingActs::acts_by_doing))]
fn run_acts(s: &ThreadState, p: &Checked, got: u64) -> Acts
    requires program { p.now ≡ s.now.program }
    requires lawful { IsLawful p.now s.now }
    requires phase { s.now.phase ≡ Run }
    ensures { result ≡ run_acts p.now s.now (top_of p.now.program s.now.frames) got }
{
    effects_are_allowed();
    // the heap has less than 2^32 words, and the program is marked
    let _heap = p.heap();
    let _workers = p.workers();
    doing_acts(s, next_doing(s, p), got)
}

/// The attempt on a monitor, where the thread tries it, and does not hold it.
pub fn tried(s: &ThreadState, m: u32) -> Option<AttemptHead>
    ensures { result ≡ tried (claim s.now m) }
{
    if s.held(m).is_some() {
        return None;
    }
    match s.attempt() {
        Some(a) if a.monitor == m => Some(a),
        _ => None,
    }
}

fn enter_acts(s: &ThreadState, m: u32) -> Acts
    ensures { result ≡ enter_acts (claim s.now m) }
{
    if_so(s.held(m).is_some() || tried(s, m).is_some(), Act::Enter)
}

/// Of the last exit of a monitor that is held.
fn release_acts(s: &ThreadState, kept: Kept, got: u64) -> Acts
    ensures { result ≡ release_acts s.now kept got }
{
    match kept {
        Kept::Flat(_) => if_so(got == 4 * (s.number() as u64 + 1) + 2, Act::Exit),
        Kept::Fat(_) => Acts::one(Act::Exit),
    }
}

fn leave_acts(s: &ThreadState, m: u32, got: u64) -> Acts
    ensures { result ≡ leave_acts s.now (claim s.now m) got }
{
    match (s.held(m), tried(s, m)) {
        (Some(h), _) => {
            if h.depth > 1 {
                Acts::one(Act::Exit)
            } else {
                release_acts(s, h.kept, got)
            }
        }
        (None, Some(a)) => if_so(a.inner > 0, Act::Exit),
        (None, None) => Acts::none(),
    }
}

/// Whether a lock word is that of a free lock with this count.
pub fn is_free(got: u64, count: u64) -> bool
    ensures { result ≡ (got == word_of_lock (Free count)) }
{
    got % 4 == 0 && got / 4 == count
}

/// Of the event that comes next and finds this.
pub fn acts_of(s: &ThreadState, p: &Checked, got: u64) -> Acts
    requires program { p.now ≡ s.now.program }
    requires lawful { IsLawful p.now s.now }
    ensures { result ≡ acts_of p.now s.now s.now.phase got }
{
    match s.phase() {
        Phase::Start => Acts::one(Act::Begin),
        Phase::Run => run_acts(s, p, got),
        Phase::Element(_, _) | Phase::Throw(_, _) => Acts::one(Act::Do),
        Phase::Enter(m, _) => enter_acts(s, m),
        Phase::Take(_, count) => if_so(is_free(got, count), Act::Enter),
        Phase::TakeFat(_, _) => if_so(got == 0, Act::Enter),
        Phase::Leave(m, _) => leave_acts(s, m, got),
        Phase::FlatOut(_, _) => Acts::one(Act::Exit),
        Phase::WaitOut(_, _) => Acts::one(Act::Wait),
        Phase::Retake(_, _, _) => if_so(got == 0, Act::Retake),
        Phase::NotifyLook(_, _) => if_so(got == 0, Act::Notify(None)),
        Phase::NotifyOne(_, _, u) => Acts::one(Act::Notify(Some(u))),
        Phase::NotifyAll(_, _) => Acts::one(Act::NotifyAll),
        _ => Acts::none(),
    }
}
