//! The next instruction of a lawful thread.

ghost use Rattle.std.specs.Prelude.{◌≡◌, ◌<◌, ◌^◌, ℕ, None, length, IfSome, slice_index};
ghost use Rattle.std.specs.Option.{option_map};
ghost use Rattle.machine_types.specs.Accesses.{accessed, found_by, left_by, words_after};
ghost use Rattle.machine_types.specs.Elision.{looks};
ghost use Rattle.machine_types.specs.Events.{moved, wanted};
ghost use Rattle.machine_types.specs.FoundWords.{Fits};
ghost use Rattle.machine_types.specs.Instructions.{begun, effect_wants, instructed};
ghost use Rattle.machine_types.specs.declared.effect.Effect.TheVariants.{Goes};
ghost use Rattle.machine_types.specs.Lawful.{IsLawful};
ghost use Rattle.machine_types.specs.declared.access.Access.TheVariants.{Load};
ghost use Rattle.machine_types.specs.declared.phase.Phase.TheVariants.{Run};
ghost use Rattle.frames.specs.FrameLists.{top};
ghost use Rattle.instr_effects.specs.Fitting.{HasPlace};
ghost use Rattle.instr_steps.specs.Places.{CanGo, IsTopAt, at_place};
ghost use Rattle.instr_steps.specs.Outcomes.{did_in};

use crate::did::{Did, did_in};
use crate::effecting::{effect_here, instruct};
use crate::moves::{keep_running, move_to};
use crate::objects::has_print_left;
use crate::places::{CurrentInsn, next_place};
use checked_program::Checked;
use frames::{ThreadState, count_instruction};
use instr_effects::{perform, wants};
use jvm_types::Rows;
use machine_types::{Access, Effect};

/// The monitor of the attempt, where there is one.
#[inline(always)]
fn tried_monitor(s: &ThreadState) -> Option<u32>
    ensures { looks s.now.attempt ≡ option_map Load result }
{
    match s.attempt() {
        Some(a) => Some(a.monitor),
        None => None,
    }
}

/// The access that an effect wants.
#[inline(always)]
pub(crate) fn want_of(s: &ThreadState, effect: Effect) -> Option<Access>
    requires frame { 0 < length s.now.frames }
    requires place { HasPlace effect }
    ensures { result ≡ effect_wants s.now (top s.now.frames).pc effect }
{
    wants(s.pc(), effect, tried_monitor(s), has_print_left(s))
}

/// An instruction that only goes on, outside an attempt, where it wants no access. Its count comes
/// last, so that nothing is written between the looks at the instruction.
#[inline(always)]
pub(crate) fn go_alone(s: &mut ThreadState, p: &Checked, place: &CurrentInsn, to: u32, made: u64)
    requires phase { s.old.phase ≡ Run }
    requires program { p.now ≡ s.old.program }
    requires stands { IsTopAt p.now.program s.old.frames place.now }
    requires row { CanGo p.now.program s.old.frames place.now }
    requires count { s.old.counts.instructions < s.old.cfg.steps }
    requires alone { s.old.attempt ≡ None }
    ensures wants { (pc : ℕ) → effect_wants s.old pc (Goes to made) ≡ None }
    ensures state { s.new ≡ instructed p.now.program (begun s.old) (at_place s.old.frames place.now)
        (Goes to made) 0 }
{
    let _most = s.config().steps;
    move_to(s, p, place, to, made);
    count_instruction(s);
    keep_running(s);
}

/// The access that the next instruction wants.
pub fn run_want(s: &ThreadState, p: &Checked) -> Option<Access>
    requires program { p.now ≡ s.now.program }
    requires lawful { IsLawful p.now s.now }
    requires phase { s.now.phase ≡ Run }
    ensures { result ≡ wanted p.now s.now Run }
{
    let place = next_place(s, p);
    let effect = effect_here(s, p, &place);
    want_of(s, effect)
}

/// The next instruction, by the word that its access found; it is 0 where it wants none.
pub fn run(s: &mut ThreadState, p: &Checked, got: u64)
    requires program { p.now ≡ s.old.program }
    requires lawful { IsLawful p.now s.old }
    requires phase { s.old.phase ≡ Run }
    requires fits { Fits p.now s.old got }
    ensures { s.new ≡ moved p.now s.old Run got }
{
    let place = next_place(s, p);
    let effect = effect_here(s, p, &place);
    instruct(s, p, &place, effect, got);
}

/// The next instruction with its access to the words that threads share, which is there, and whose
/// sum fits 64 bits.
#[inline(always)]
pub fn run_with(s: &mut ThreadState, p: &Checked, words: &mut Rows<u64>)
    requires program { p.now ≡ s.old.program }
    requires lawful { IsLawful p.now s.old }
    requires phase { s.old.phase ≡ Run }
    requires word { IfSome (wanted p.now s.old Run) (λ a. accessed a < length words.old) }
    requires sum { IfSome (wanted p.now s.old Run)
        (λ a. left_by a (slice_index words.old (accessed a)) < 2 ^ 64) }
    requires fits { Fits p.now s.old (found_by words.old (wanted p.now s.old Run)) }
    ensures state { s.new ≡ moved p.now s.old Run (found_by words.old (wanted p.now s.old Run)) }
    ensures words { words.new ≡ words_after words.old (wanted p.now s.old Run) }
{
    let place = next_place(s, p);
    let effect = effect_here(s, p, &place);
    if let Effect::Goes(to, made) = effect {
        if s.attempt().is_none() {
            go_alone(s, p, &place, to, made);
            return;
        }
    }
    let got = match want_of(s, effect) {
        Some(access) => perform(words, access),
        None => 0,
    };
    instruct(s, p, &place.again(), effect, got);
}

/// The next instruction, which wants no access.
pub fn local(s: &mut ThreadState, p: &Checked) -> Did
    requires program { p.now ≡ s.old.program }
    requires lawful { IsLawful p.now s.old }
    requires phase { s.old.phase ≡ Run }
    requires wants { wanted p.now s.old Run ≡ None }
    ensures state { s.new ≡ moved p.now s.old Run 0 }
    ensures did { result ≡ did_in s.new.phase }
{
    let place = next_place(s, p);
    let effect = effect_here(s, p, &place);
    instruct(s, p, &place, effect, 0);
    did_in(s.phase())
}
