//! What an instruction does, before anything changes (JVMS 6.5).

ghost use Rattle.std.specs.Prelude.{◌≡◌, ◌<◌, ◌≤◌, ◌+◌, ℕ, length, slice_get, Some, IfOk};
ghost use Rattle.std.specs.Option.{option_map};
ghost use Rattle.jvm_types.specs.declared.fixed_words.TheConstants.{OBJECT_HEAD_WORDS};
ghost use Rattle.jvm_types.specs.declared.limits.TheConstants.{MOST_HEAP};
ghost use Rattle.machine_types.specs.Effects.{read_by};
ghost use Rattle.machine_types.specs.Frames.{effect_at, frames_of, top_of, went_on};
ghost use Rattle.machine_types.specs.Words.{variable_word};
ghost use Rattle.machine_types.specs.Ints.{int_of, low};
ghost use Rattle.machine_types.specs.Onward.{done, Running};
ghost use Rattle.machine_types.specs.PlainInstructions.{plain_did, got_by, if_plain_held, if_left};
ghost use Rattle.machine_types.specs.PlainInstructions.{plain_indexed, indexed_in};
ghost use Rattle.machine_types.specs.PlainInstructions.{plain_instructed, instructed_by};
ghost use Rattle.machine_types.specs.PlainInstructions.{plain_leaves, plain_leaving, plain_made};
ghost use Rattle.machine_types.specs.PlainState.{Plain as State, PlainThread, plain_goes_on};
ghost use Rattle.machine_types.specs.PlainState.{value_at, with_thread, written};
ghost use Rattle.plain_frames.specs.Changes.{onward_of};
ghost use Rattle.history_rule.specs.Deeds.{deed_done};
ghost use Rattle.history_rule.specs.Small.{HasRoomForStep, MakesSmall};
ghost use Rattle.plain_threads.specs.Statuses.{plain_status_of};

use crate::deed::Deed;
use crate::plain_state::PlainState;
use checked_program::Checked;
use jvm_types::Thrown;
use machine_types::{Effect, Variable};
use plain_frames::{
    At, Change, Onward, Then, done, effect_at, length_of, pushed, returns, threw, top_of, went_on,
};
use plain_memory::{header_place, value_place, variable_place};
use plain_threads::Status;
use std::alloc::{AllocError, Global};

/// The low 32 bits.
fn low(a: u64) -> u64
    ensures { result ≡ low a }
{
    a % (1 << 32)
}

fn int_of(a: u64) -> i32
    ensures { result ≡ int_of a }
{
    (low(a) as u32).cast_signed()
}

/// The place that an effect reads.
fn place_read(effect: Effect) -> Option<u128>
    ensures { result ≡ read_by effect }
{
    match effect {
        Effect::Reads(variable) => Some(variable_place(variable)),
        Effect::Indexes(array, _, _) => Some(header_place(array)),
        Effect::Measures(array) => Some(header_place(array)),
        Effect::Raises(object) => Some(header_place(object)),
        _ => None,
    }
}

/// The thread goes on as the frames alone tell, by an effect of which no more is to be said.
fn plain_deed(
    alloc: Global,
    p: &Checked,
    at: &At,
    effect: Effect,
    got: u64,
) -> Result<Deed, AllocError>
    ensures { IfOk result (λ d.
        (q : State) (t : ℕ) (x : PlainThread) → deed_done q t x (frames_of at.now) d ≡
        option_map (λ o. with_thread q t (plain_goes_on x o))
        (done p.now.program at.now effect got)) }
{
    match done(alloc, p, at, effect, got)? {
        Some(onward) => Ok(Deed::Goes(onward)),
        None => Ok(Deed::Stuck),
    }
}

impl PlainState {
    /// What stands at a place.
    fn value_at(&self, place: u128) -> Option<u64>
        ensures { result ≡ value_at self.now place }
    {
        self.memory.value_at(place)
    }

    /// What stands at the place that an effect reads, and 0 where it reads none.
    fn got_by(&self, effect: Effect) -> Option<u64>
        ensures { result ≡ got_by (value_at self.now) (read_by effect) }
    {
        match place_read(effect) {
            Some(place) => self.value_at(place),
            None => Some(0),
        }
    }

    fn writes(
        &self,
        alloc: Global,
        p: &Checked,
        at: &At,
        variable: Variable,
        word: u64,
    ) -> Result<Deed, AllocError>
        ensures { IfOk result (λ d.
            (t : ℕ) (x : PlainThread) → deed_done self.now t x (frames_of at.now) d ≡ option_map
            (λ was.
            with_thread (written self.now (variable_word variable) word) t
            (plain_goes_on x (Running (went_on p.now.program at.now 0))))
            (value_at self.now (variable_word variable))) }
    {
        let place = variable_place(variable);
        match self.value_at(place) {
            Some(_) => Ok(Deed::Writes(place, word, went_on(alloc, p, at, 0)?)),
            None => Ok(Deed::Stuck),
        }
    }

    /// An element is read or written, whose place holds this value.
    fn element(
        &self,
        alloc: Global,
        p: &Checked,
        at: &At,
        place: u128,
        stored: Option<u64>,
        value: u64,
    ) -> Result<Deed, AllocError>
        ensures { IfOk result (λ d.
            (t : ℕ) (x : PlainThread) → deed_done self.now t x (frames_of at.now) d
            ≡ Some (indexed_in p.now.program self.now t x at.now place stored value)) }
    {
        match stored {
            None => Ok(Deed::Goes(Onward::Running(Change::Top(went_on(alloc, p, at, value)?)))),
            Some(v) => Ok(Deed::Writes(place, v, went_on(alloc, p, at, 0)?)),
        }
    }

    fn indexes(
        &self,
        alloc: Global,
        p: &Checked,
        at: &At,
        array: u64,
        index: u64,
        stored: Option<u64>,
        count: u64,
    ) -> Result<Deed, AllocError>
        ensures { IfOk result (λ d.
            (t : ℕ) (x : PlainThread) → deed_done self.now t x (frames_of at.now) d ≡
            plain_indexed p.now.program self.now t x at.now array index stored
            count) }
    {
        if index >= count {
            return Ok(Deed::Goes(threw(Thrown::ArrayIndexOutOfBoundsException, at)));
        }
        let place = value_place(array, index);
        match self.value_at(place) {
            Some(value) => self.element(alloc, p, at, place, stored, value),
            None => Ok(Deed::Stuck),
        }
    }

    fn makes(
        &self,
        alloc: Global,
        p: &Checked,
        at: &At,
        header: u64,
        size: u64,
    ) -> Result<Deed, AllocError>
        requires room { HasRoomForStep self.now }
        requires small { size ≤ MOST_HEAP + OBJECT_HEAD_WORDS }
        ensures { IfOk result (λ d.
            (t : ℕ) (x : PlainThread) → deed_done self.now t x (frames_of at.now) d
            ≡ Some (plain_made p.now.program self.now t x at.now header size)) }
    {
        let next = self.memory.next_behind(size);
        let heap = p.heap();
        if next <= heap as u64 {
            let frame = pushed(alloc, p, at, self.memory.next())?;
            Ok(Deed::Makes(header, size as u32, next, frame))
        } else {
            Ok(Deed::Passes(next))
        }
    }

    /// A thread goes on by leaving a monitor only where it holds that.
    fn if_left(&self, t: u8, at: &At, onward: Onward) -> Onward
        ensures { (x : PlainThread) → plain_goes_on x (onward_of (frames_of at.now) result)
            ≡ if_left self.now t x at.now (onward_of (frames_of at.now) onward) }
    {
        match onward {
            Onward::Leaving(m, after, change) => {
                if self.holds(t, m) {
                    Onward::Leaving(m, after, change)
                } else {
                    threw(Thrown::IllegalMonitorStateException, at)
                }
            }
            Onward::Running(change) => Onward::Running(change),
            Onward::Throwing(object, class, change) => Onward::Throwing(object, class, change),
            Onward::Entering(m, change) => Onward::Entering(m, change),
            Onward::RootReturned => Onward::RootReturned,
            Onward::Uncaught(class) => Onward::Uncaught(class),
        }
    }

    fn leaves(
        &self,
        alloc: Global,
        p: &Checked,
        t: u8,
        at: &At,
        m: u64,
    ) -> Result<Onward, AllocError>
        ensures { IfOk result (λ o.
            (x : PlainThread) → plain_goes_on x (onward_of (frames_of at.now) o)
            ≡ plain_leaves p.now.program self.now t x at.now m) }
    {
        if m == 0 {
            return Ok(threw(Thrown::NullPointerException, at));
        }
        let frame = went_on(alloc, p, at, 0)?;
        Ok(self.if_left(t, at, Onward::Leaving(m, Then::Next, Change::Top(frame))))
    }

    fn asks(
        &self,
        alloc: Global,
        p: &Checked,
        t: u8,
        at: &At,
        m: u64,
        status: Status,
    ) -> Result<Deed, AllocError>
        ensures { IfOk result (λ d.
            (x : PlainThread) → deed_done self.now t x (frames_of at.now) d ≡ Some (with_thread
            self.now t (if_plain_held self.now t m x at.now (plain_leaving
            p.now.program x at.now (plain_status_of status))))) }
    {
        if self.holds(t, m) {
            Ok(Deed::Asks(status, went_on(alloc, p, at, 0)?))
        } else {
            Ok(Deed::Goes(threw(Thrown::IllegalMonitorStateException, at)))
        }
    }

    fn did(
        &self,
        alloc: Global,
        p: &Checked,
        t: u8,
        at: &At,
        effect: Effect,
        got: u64,
    ) -> Result<Deed, AllocError>
        requires room { HasRoomForStep self.now }
        requires small { MakesSmall effect }
        ensures { IfOk result (λ d.
            (x : PlainThread) → deed_done self.now t x (frames_of at.now) d
            ≡ plain_did p.now.program self.now t x at.now effect got) }
    {
        match effect {
            Effect::Writes(variable, word) => self.writes(alloc, p, at, variable, word),
            Effect::Indexes(array, index, stored) => self.indexes(
                alloc,
                p,
                at,
                array,
                low(index),
                stored,
                length_of(got),
            ),
            Effect::Makes(header, size) => self.makes(alloc, p, at, header, size),
            Effect::Prints(n) => Ok(Deed::Prints(int_of(n), went_on(alloc, p, at, 0)?)),
            Effect::Returns => Ok(Deed::Goes(self.if_left(t, at, returns(alloc, p, at)?))),
            Effect::Leaves(m) => Ok(Deed::Goes(self.leaves(alloc, p, t, at, m)?)),
            Effect::Waits(m) => self.asks(alloc, p, t, at, m, Status::Wait(m)),
            Effect::Notifies(m) => self.asks(alloc, p, t, at, m, Status::Notify(m)),
            Effect::NotifiesAll(m) => self.asks(alloc, p, t, at, m, Status::NotifyAll(m)),
            Effect::Goes(_, _)
            | Effect::Throws(_)
            | Effect::Reads(_)
            | Effect::Measures(_)
            | Effect::Raises(_)
            | Effect::Calls(_)
            | Effect::Enters(_)
            | Effect::Stuck => plain_deed(alloc, p, at, effect, got),
        }
    }

    /// By the effect of the instruction.
    fn instructed_by(&self, alloc: Global, p: &Checked, t: u8, at: &At) -> Result<Deed, AllocError>
        requires { HasRoomForStep self.now }
        ensures { IfOk result (λ d.
            (x : PlainThread) → deed_done self.now t x (frames_of at.now) d ≡ instructed_by
            p.now.program self.now t x at.now (effect_at p.now.program at.now)) }
    {
        let _checked = p.program();
        let effect = effect_at(p, at);
        match self.got_by(effect) {
            Some(got) => self.did(alloc, p, t, at, effect, got),
            None => Ok(Deed::Stuck),
        }
    }

    /// What the instruction does that the top frame of a thread stands at.
    pub fn plan(&self, alloc: Global, p: &Checked, t: u8) -> Result<Deed, AllocError>
        requires thread { t < length self.now.threads }
        requires room { HasRoomForStep self.now }
        ensures { IfOk result (λ d.
            (x : PlainThread) → slice_get self.now.threads t ≡ Some x → deed_done self.now t x
            x.frames d ≡ plain_instructed p.now.program self.now t x
            (top_of p.now.program x.frames)) }
    {
        match top_of(p, self.threads.at(t).frames()) {
            Some(at) => self.instructed_by(alloc, p, t, &at),
            None => Ok(Deed::Stuck),
        }
    }
}
