//! What is seen of a thread before its event, and behind it.

ghost use Rattle.std.specs.Prelude.{◌≡◌, ◌<◌, length};
ghost use Rattle.frames.specs.FrameLists.{top};
ghost use Rattle.event_texts.specs.Sights.{after_event, before_of, own_spot, effect_of, spot_of};
ghost use Rattle.event_texts.specs.Sights.{value_at_top};

use crate::doing::{Doing, next_doing};
use crate::words::{SharedWord, word_of};
use checked_program::Checked;
use frames::ThreadState;
use jvm_types::Counts;
use machine_types::{Access, AttemptHead, Effect, Phase};

/// A place in the code of a program.
#[derive(Clone, Copy, Debug, PartialEq, Eq)]
pub struct Spot {
    /// The number of its method.
    pub method: u32,
    pub pc: u32,
}

/// A thread before its event.
#[derive(Clone, Copy, Debug, PartialEq, Eq)]
pub struct Before {
    pub thread: u8,
    /// The attempt that it is in.
    pub attempt: Option<AttemptHead>,
    /// Where its event is told.
    pub spot: Option<Spot>,
    /// Where its top frame stands.
    pub frame_spot: Option<Spot>,
    pub phase: Phase,
    /// What its instruction does, where the event is one.
    pub effect: Option<Effect>,
    /// The access of the event, and its word.
    pub access: Option<Access>,
    pub word: SharedWord,
    /// What the event finds in the word.
    pub found: u64,
    pub counts: Counts,
}

/// A thread behind its event.
#[derive(Clone, Copy, Debug, PartialEq, Eq)]
pub struct After {
    pub attempt: Option<AttemptHead>,
    pub spot: Option<Spot>,
    /// The value on top of the stack of the top frame, where there is one.
    pub top: Option<u64>,
    pub phase: Phase,
    pub counts: Counts,
    /// What the event left in its word.
    pub left: u64,
}

/// Where the top frame stands, where there is one.
fn top_spot(s: &ThreadState) -> Option<Spot>
    ensures { result ≡ spot_of s.now.frames }
{
    if s.depth() == 0 {
        None
    } else {
        Some(Spot {
            method: s.method(),
            pc: s.pc(),
        })
    }
}

/// Where the event of a thread is told, which made its last instruction there.
fn own_spot(s: &ThreadState, last: Option<Spot>) -> Option<Spot>
    ensures { result ≡ own_spot s.now.phase (spot_of s.now.frames) last }
{
    match s.phase() {
        Phase::Start => None,
        Phase::Run | Phase::Throw(_, _) => top_spot(s),
        _ => last,
    }
}

/// The value on top of the stack of the top frame, where there is one.
fn value_at_top(s: &ThreadState) -> Option<u64>
    ensures { result ≡ value_at_top s.now.frames }
{
    if s.depth() == 0 {
        return None;
    }
    match s.stack().get(0) {
        Some(value) => Some(*value),
        None => None,
    }
}

/// What its instruction does, where the event is one.
fn effect_of(phase: Phase, doing: Option<Doing>) -> Option<Effect>
    ensures { result ≡ effect_of phase doing }
{
    match (phase, doing) {
        (Phase::Run, Some(d)) => Some(d.effect),
        _ => None,
    }
}

/// A thread before its event, which made its last instruction there. The event makes this access
/// and finds this. It is told where its instruction stands, also where it is a further event of an
/// instruction behind which the thread stands already.
pub fn see_before(
    s: &ThreadState,
    p: &Checked,
    last: Option<Spot>,
    access: Option<Access>,
    found: u64,
) -> Before
    ensures { result ≡ before_of p.now.program s.now last access found }
{
    let doing = next_doing(s, p);
    Before {
        thread: s.number(),
        attempt: s.attempt(),
        spot: own_spot(s, last),
        frame_spot: top_spot(s),
        phase: s.phase(),
        effect: effect_of(s.phase(), doing),
        access,
        word: word_of(s, doing),
        found,
        counts: s.counts(),
    }
}

/// A thread behind its event, which left this in its word.
pub fn see_after(s: &ThreadState, left: u64) -> After
    ensures { result ≡ after_event s.now left }
{
    After {
        attempt: s.attempt(),
        spot: top_spot(s),
        top: value_at_top(s),
        phase: s.phase(),
        counts: s.counts(),
        left,
    }
}
