//! What an instruction does to the frames (JVMS 6.5), by its effect.

ghost use Rattle.std.specs.Prelude.{◌≡◌, slice_get, IfOk};
ghost use Rattle.std.specs.Option.{option_map};
ghost use Rattle.machine_types.specs.Frames.{effect_at, frames_of, went};
ghost use Rattle.machine_types.specs.Onward.{called, done, Running, Throwing};
ghost use Rattle.machine_types.specs.ReadyObjects.{thrown_of};
ghost use Rattle.machine_types.specs.Words.{header_class, header_length};
ghost use Rattle.plain_frames.specs.Changes.{onward_of};

use crate::at::At;
use crate::calls::called;
use crate::exceptions::returns;
use crate::made::{made_on, went_on};
use crate::onward::{Change, Onward, Then, threw};
use checked_program::Checked;
use heap_words::{header_class, thrown_of};
use instr_effects::effect;
use jvm_types::fixed_words::HEADER_CLASSES;
use machine_types::Effect;
use std::alloc::{AllocError, Global};

/// The effect of the instruction that the top frame stands at.
pub fn effect_at(p: &Checked, at: &At) -> Effect
    ensures { result ≡ effect_at p.now.program at.now }
{
    let insn = at.insn();
    let frame = at.frame();
    effect(
        p.program(),
        insn.next,
        at.target(),
        &insn.op,
        frame.locals(),
        frame.stack(),
    )
}

/// The length that a header tells.
pub fn length_of(header: u64) -> u64
    ensures { result ≡ header_length header }
{
    header / HEADER_CLASSES
}

/// It goes on at a pc, with the value that its instruction makes.
fn runs(alloc: Global, p: &Checked, at: &At, to: u32, made: u64) -> Result<Onward, AllocError>
    ensures { IfOk result
        (λ o. onward_of (frames_of at.now) o ≡ Running (went p.now.program at.now to made)) }
{
    let f = made_on(alloc, p, at, to, made)?;
    Ok(Onward::Running(Change::Top(f)))
}

/// It raises an object, by the header of that.
fn raised(x: u64, header: u64, at: &At) -> Option<Onward>
    ensures { option_map (onward_of (frames_of at.now)) result ≡ option_map
        (λ class. Throwing x class (frames_of at.now)) (thrown_of (header_class header)) }
{
    let _ = at;
    match thrown_of(header_class(header)) {
        Some(class) => Some(Onward::Throwing(x, class, Change::Same)),
        None => None,
    }
}

/// How it goes on by an effect and the word that it found; `None` where the machine has more to
/// say.
pub fn done(
    alloc: Global,
    p: &Checked,
    at: &At,
    effect: Effect,
    got: u64,
) -> Result<Option<Onward>, AllocError>
    ensures { IfOk result
        (λ o. option_map (onward_of (frames_of at.now)) o ≡ done p.now.program at.now effect got) }
{
    let next = at.insn().next;
    match effect {
        Effect::Goes(to, made) => Ok(Some(runs(alloc, p, at, to, made)?)),
        Effect::Throws(x) => Ok(Some(threw(x, at))),
        Effect::Reads(_) => Ok(Some(runs(alloc, p, at, next, got)?)),
        Effect::Writes(_, _) | Effect::Prints(_) => Ok(Some(runs(alloc, p, at, next, 0)?)),
        Effect::Measures(_) => Ok(Some(runs(alloc, p, at, next, length_of(got))?)),
        Effect::Raises(x) => Ok(raised(x, got, at)),
        Effect::Calls(number) => calls(alloc, p, at, number),
        Effect::Returns => Ok(Some(returns(alloc, p, at)?)),
        Effect::Enters(m) => Ok(Some(Onward::Entering(m, Change::Top(went_on(alloc, p, at, 0)?)))),
        Effect::Leaves(m) => Ok(Some(Onward::Leaving(
            m,
            Then::Next,
            Change::Top(went_on(alloc, p, at, 0)?),
        ))),
        _ => Ok(None),
    }
}

/// It calls a method by its number.
fn calls(alloc: Global, p: &Checked, at: &At, number: u32) -> Result<Option<Onward>, AllocError>
    ensures { IfOk result (λ o.
        option_map (onward_of (frames_of at.now)) o ≡ option_map
        (called p.now.program at.now number) (slice_get p.now.program.methods number)) }
{
    match p.program().methods.get(number as usize) {
        Some(m) => Ok(Some(called(alloc, p, at, number, m)?)),
        None => Ok(None),
    }
}
