//! One instruction, by its effect.

ghost use Rattle.std.specs.Prelude.{◌≡◌, ◌<◌, ℕ, List, length};
ghost use Rattle.jvm_types.specs.declared.code.Op.TheVariants.{Lookupswitch};
ghost use Rattle.jvm_types.specs.declared.program.Program.{Program};
ghost use Rattle.jvm_types.specs.declared.program.Target.{Target as Named};
ghost use Rattle.machine_types.specs.Effects.{effect};
ghost use Rattle.machine_types.specs.Frames.{effect_at};
ghost use Rattle.machine_types.specs.FoundWords.{WordFits, effect_content};
ghost use Rattle.machine_types.specs.Instructions.{begun, did, instructed};
ghost use Rattle.machine_types.specs.declared.phase.Phase.TheVariants.{Run};
ghost use Rattle.frames.specs.FrameLists.{top};
ghost use Rattle.instr_effects.specs.SwitchKeys.{AreKeys};
ghost use Rattle.laws_threads.specs.TopFrames.{IsAllowed};
ghost use Rattle.instr_steps.specs.Effecting.{CallerFitsAfter, CanFail};
ghost use Rattle.instr_steps.specs.Places.{CanGo, IsTopAt, at_place};

use crate::calls::{call, return_from};
use crate::checks::passes;
use crate::monitors::{enter, leave, notify, notify_all, wait};
use crate::moves::{run_on, run_to, throw};
use crate::objects::{index, make, measure, print, raise};
use crate::places::CurrentInsn;
use checked_program::Checked;
use frames::{ThreadState, count_instruction};
use heap_words::header;
use instr_effects::{case_by_halves, effect, is_checked};
use jvm_types::{Case, Op, Target};
use machine_types::Effect;

/// The effect of a `lookupswitch` whose keys ascend.
fn look_up(otherwise: u32, cases: &[Case], stack: &[u64]) -> Effect
    requires { AreKeys cases.now }
    ensures { (p : Program) (next : ℕ) (target : Named) (locals : List ℕ)
        → result ≡ effect p next target (Lookupswitch otherwise cases.now) locals stack.now }
{
    match stack {
        [key, ..] => Effect::Goes(case_by_halves(otherwise, cases, *key), 0),
        [] => Effect::Stuck,
    }
}

/// The effect of the instruction at which the top frame stands.
#[inline(always)]
pub fn effect_here(s: &ThreadState, p: &Checked, place: &CurrentInsn) -> Effect
    requires some { 0 < length s.now.frames }
    requires stands { IsTopAt p.now.program s.now.frames place.now }
    ensures { result ≡ effect_at p.now.program (at_place s.now.frames place.now) }
{
    let insn = place.insn();
    match (&insn.op, place.target()) {
        (Op::New(_), Target::Class(class)) => {
            Effect::Makes(header(class, 0), p.object_size(class) as u64)
        }
        (Op::Lookupswitch { otherwise, cases }, _) => {
            look_up(*otherwise, cases.as_slice(), s.stack())
        }
        (op, target) => effect(p.program(), insn.next, target, op, s.locals(), s.stack()),
    }
}

/// What the effect makes of the thread, by the word that it found.
#[inline(always)]
pub fn do_effect(s: &mut ThreadState, p: &Checked, place: &CurrentInsn, effect: Effect, got: u64)
    requires phase { s.old.phase ≡ Run }
    requires program { p.now ≡ s.old.program }
    requires stands { IsTopAt p.now.program s.old.frames place.now }
    requires row { CanGo p.now.program s.old.frames place.now }
    requires allowed { IsAllowed p.now.program (at_place s.old.frames place.now) effect }
    requires fits { WordFits p.now.program (effect_content p.now.program place.now.target effect)
        got }
    requires receiver { (top s.old.frames).receiver < 4294967296 }
    requires caller { CallerFitsAfter p.now.program s.old.frames place.now effect }
    ensures { s.new ≡ did p.now.program s.old (at_place s.old.frames place.now) effect got }
{
    match effect {
        Effect::Goes(to, made) => run_to(s, p, place, to, made),
        Effect::Throws(x) => throw(s, p, place, x),
        Effect::Reads(_) => run_on(s, p, place, got),
        Effect::Writes(_, _) => run_on(s, p, place, 0),
        Effect::Indexes(array, i, stored) => index(s, p, place, array, i, stored, got),
        Effect::Measures(_) => measure(s, p, place, got),
        Effect::Raises(x) => raise(s, p, place, x, got),
        Effect::Makes(word, size) => make(s, p, place, word, size, got),
        Effect::Prints(value) => print(s, p, place, value, got),
        Effect::Calls(number) => call(s, p, place, number),
        Effect::Returns => return_from(s, p, place),
        Effect::Enters(monitor) => enter(s, p, place, monitor),
        Effect::Leaves(monitor) => leave(s, p, place, monitor),
        Effect::Waits(monitor) => wait(s, p, place, monitor),
        Effect::Notifies(monitor) => notify(s, p, place, monitor),
        Effect::NotifiesAll(monitor) => notify_all(s, p, place, monitor),
        Effect::Stuck => unreachable!(),
    }
}

/// One more instruction: in an attempt behind its check, where it has one.
#[inline(always)]
pub fn instruct(s: &mut ThreadState, p: &Checked, place: &CurrentInsn, effect: Effect, got: u64)
    requires phase { s.old.phase ≡ Run }
    requires program { p.now ≡ s.old.program }
    requires stands { IsTopAt p.now.program s.old.frames place.now }
    requires row { CanGo p.now.program s.old.frames place.now }
    requires allowed { IsAllowed p.now.program (at_place s.old.frames place.now) effect }
    requires fits { WordFits p.now.program (effect_content p.now.program place.now.target effect)
        got }
    requires receiver { (top s.old.frames).receiver < 4294967296 }
    requires caller { CallerFitsAfter p.now.program s.old.frames place.now effect }
    requires count { s.old.counts.instructions < s.old.cfg.steps }
    requires attempt { CanFail s.old }
    ensures { s.new
        ≡ instructed p.now.program (begun s.old) (at_place s.old.frames place.now) effect got }
{
    let _most = s.config().steps;
    count_instruction(s);
    if !is_checked(s.pc(), effect) || passes(s, got) {
        do_effect(s, p, place, effect, got);
    }
}
