//! The next instruction in two halves: what it wants, and what it makes of the thread by the word
//! that its access found. Its effect is told in between, so that it is looked for once.

ghost use Rattle.std.specs.Prelude.{◌≡◌, is_some, if◌then◌else◌, IfSome, option_map};
ghost use Rattle.machine_types.specs.Events.{moved, wanted};
ghost use Rattle.machine_types.specs.FoundWords.{Fits};
ghost use Rattle.machine_types.specs.Lawful.{IsLawful};
ghost use Rattle.machine_types.specs.declared.phase.Phase.TheVariants.{Run};
ghost use Rattle.machine_types.specs.Frames.{effect_at};
ghost use Rattle.instr_steps.specs.NextPlace.{IsEffectHere, IsNext};
ghost use Rattle.instr_steps.specs.Places.{at_place};

use crate::effecting::{effect_here, instruct};
use crate::places::{CurrentInsn, next_place};
use crate::running::{go_alone, want_of};
use checked_program::Checked;
use frames::ThreadState;
use machine_types::{Access, Effect};

/// What the next instruction wants: its access, and the effect that has it.
#[derive(Clone, Copy, Debug, PartialEq, Eq)]
pub struct InsnWant {
    pub access: Access,
    pub effect: Effect,
}

/// The next instruction at once, where it wants no access; else what it wants is answered, and
/// nothing changes.
#[inline(always)]
pub fn run_or_want(s: &mut ThreadState, p: &Checked) -> Option<InsnWant>
    requires program { p.now ≡ s.old.program }
    requires lawful { IsLawful p.now s.old }
    requires phase { s.old.phase ≡ Run }
    ensures access { option_map (λ w. w.access) result ≡ wanted p.now s.old Run }
    ensures effect { IfSome result (λ w. IsEffectHere p.now s.old w.effect) }
    ensures state { s.new ≡ (if is_some result then s.old else moved p.now s.old Run 0) }
{
    let place = next_place(s, p);
    let effect = effect_here(s, p, &place);
    if let Effect::Goes(to, made) = effect {
        if s.attempt().is_none() {
            go_alone(s, p, &place, to, made);
            return None;
        }
    }
    match want_of(s, effect) {
        Some(access) => Some(InsnWant { access, effect }),
        None => {
            instruct(s, p, &place, effect, 0);
            None
        }
    }
}

/// The effect that was told is that of the instruction at the place.
#[inline(always)]
fn effect_told(_s: &ThreadState, _p: &Checked, _place: &CurrentInsn, effect: Effect) -> Effect
    requires next { IsNext _p.now _s.now _place.now }
    requires effect { IsEffectHere _p.now _s.now effect }
    ensures { result ≡ effect_at _p.now.program (at_place _s.now.frames _place.now) }
{
    effect
}

/// The next instruction, which has this effect, by the word that its access found.
pub fn run_by(s: &mut ThreadState, p: &Checked, effect: Effect, got: u64)
    requires program { p.now ≡ s.old.program }
    requires lawful { IsLawful p.now s.old }
    requires phase { s.old.phase ≡ Run }
    requires effect { IsEffectHere p.now s.old effect }
    requires fits { Fits p.now s.old got }
    ensures { s.new ≡ moved p.now s.old Run got }
{
    let place = next_place(s, p);
    let effect = effect_told(s, p, &place, effect);
    instruct(s, p, &place, effect, got);
}
