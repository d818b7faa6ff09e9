//! The words that threads share, by what they are to the program.

ghost use Rattle.std.specs.Prelude.{◌≡◌};
ghost use Rattle.machine_types.specs.HeldMonitors.{held_at};
ghost use Rattle.event_texts.specs.SharedWords.{effect_word, element_of, leave_word, run_word};
ghost use Rattle.event_texts.specs.SharedWords.{tried_lock, variable_named, shared_word_of};

use crate::doing::Doing;
use frames::ThreadState;
use instr_effects::ints::low;
use jvm_types::Target;
use machine_types::{AttemptHead, Effect, Held, Kept, Phase, Variable};

/// One of the words that threads share.
#[derive(Clone, Copy, Debug, PartialEq, Eq)]
pub enum SharedWord {
    /// The word of null, which holds 0.
    Null,
    /// The next free word of the heap.
    NextFree,
    /// The ticket of the next print.
    NextTicket,
    /// The next monitor record.
    NextRecord,
    /// The owner of the record of this monitor; with the number of the record.
    Owner(u32, u32),
    /// The waiting bits of the record of this monitor; with the number of the record.
    Waiting(u32, u32),
    /// The lock word of this object.
    Lock(u32),
    /// The header of this object.
    Header(u64),
    /// A field of this object, by the field's number in the program.
    Field(u64, u32),
    /// A static field, by its number in the program.
    StaticField(u32),
    /// An element of this array, by its index.
    Element(u64, u32),
}

/// The lock word of the attempt, where there is one.
fn tried_lock(attempt: Option<AttemptHead>) -> SharedWord
    ensures { result ≡ tried_lock attempt }
{
    match attempt {
        Some(a) => SharedWord::Lock(a.monitor),
        None => SharedWord::Null,
    }
}

/// The field that an instruction names, of the object that it is given.
fn variable_named(target: Target, variable: Variable) -> SharedWord
    ensures { result ≡ variable_named target variable }
{
    match (target, variable) {
        (Target::Field(number), Variable::Instance(reference, _)) => {
            SharedWord::Field(reference, number)
        }
        (Target::Field(number), Variable::Static(_)) => SharedWord::StaticField(number),
        _ => SharedWord::Null,
    }
}

fn effect_word(attempt: Option<AttemptHead>, target: Target, effect: Effect) -> SharedWord
    ensures { result ≡ effect_word attempt target effect }
{
    match effect {
        Effect::Reads(variable) => variable_named(target, variable),
        Effect::Writes(variable, _) => variable_named(target, variable),
        Effect::Indexes(array, _, _) => SharedWord::Header(array),
        Effect::Measures(array) => SharedWord::Header(array),
        Effect::Raises(object) => SharedWord::Header(object),
        Effect::Makes(_, _) => SharedWord::NextFree,
        Effect::Prints(_) => SharedWord::NextTicket,
        _ => tried_lock(attempt),
    }
}

fn run_word(attempt: Option<AttemptHead>, doing: Option<Doing>) -> SharedWord
    ensures { result ≡ run_word attempt doing }
{
    match doing {
        Some(d) => effect_word(attempt, d.target, d.effect),
        None => SharedWord::Null,
    }
}

/// The element that the instruction of the top frame names.
fn element_of(doing: Option<Doing>) -> SharedWord
    ensures { result ≡ element_of doing }
{
    match doing {
        Some(d) => match d.effect {
            Effect::Indexes(array, i, _) => SharedWord::Element(array, low(i) as u32),
            _ => SharedWord::Null,
        },
        None => SharedWord::Null,
    }
}

/// The word by which a monitor is left.
fn leave_word(monitor: u32, held: Option<Held>) -> SharedWord
    ensures { result ≡ leave_word monitor held }
{
    match held {
        Some(h) => match h.kept {
            Kept::Flat(_) => SharedWord::Lock(monitor),
            Kept::Fat(record) => SharedWord::Owner(monitor, record),
        },
        None => SharedWord::Lock(monitor),
    }
}

/// The word that the next event of a thread accesses, where it accesses one; with what its top
/// frame is about to do.
pub fn word_of(s: &ThreadState, doing: Option<Doing>) -> SharedWord
    ensures { result ≡ shared_word_of s.now doing s.now.phase }
{
    match s.phase() {
        Phase::Run => run_word(s.attempt(), doing),
        Phase::Element(_, _) => element_of(doing),
        Phase::Made(reference, _) => SharedWord::Header(reference as u64),
        Phase::Throw(_, _) => tried_lock(s.attempt()),
        Phase::Enter(m, _) => SharedWord::Lock(m),
        Phase::Acquire(m) => SharedWord::Lock(m),
        Phase::Take(m, _) => SharedWord::Lock(m),
        Phase::Flag(m, _) => SharedWord::Lock(m),
        Phase::TakeFat(m, r) => SharedWord::Owner(m, r),
        Phase::Leave(m, _) => leave_word(m, s.held(m)),
        Phase::Grow(_, _) => SharedWord::NextRecord,
        Phase::FlatOut(m, _) => SharedWord::Lock(m),
        Phase::Own(m, r, _) => SharedWord::Owner(m, r),
        Phase::FatIn(m, _, _) => SharedWord::Lock(m),
        Phase::WaitBit(m, r) => SharedWord::Waiting(m, r),
        Phase::WaitOut(m, r) => SharedWord::Owner(m, r),
        Phase::WaitLook(m, r, _) => SharedWord::Waiting(m, r),
        Phase::Retake(m, r, _) => SharedWord::Owner(m, r),
        Phase::NotifyLook(m, r) => SharedWord::Waiting(m, r),
        Phase::NotifyOne(m, r, _) => SharedWord::Waiting(m, r),
        Phase::NotifyAll(m, r) => SharedWord::Waiting(m, r),
        _ => SharedWord::Null,
    }
}
