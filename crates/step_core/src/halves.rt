//! The next event of a thread in two halves: what it wants, and what it makes of the thread by the
//! word that its access found.

ghost use Rattle.std.specs.Prelude.{◌≡◌};
ghost use Rattle.machine_types.specs.Events.{moved};
ghost use Rattle.machine_types.specs.FoundWords.{Fits};
ghost use Rattle.machine_types.specs.Lawful.{IsLawful};
ghost use Rattle.step_core.specs.Wanting.{IsFor, IsStepOrWant};

use crate::moving::make_between;
use crate::wanting::want_between;
use checked_program::Checked;
use frames::ThreadState;
use instr_steps::{run_by, run_or_want};
use laws_threads::lawful_is_kept;
use machine_types::{Access, Effect, Phase};

/// What the next event of a thread wants: an access, and the effect of the instruction that it
/// makes, where it makes one.
#[derive(Clone, Copy, Debug, PartialEq, Eq)]
pub struct Want {
    pub access: Access,
    pub effect: Option<Effect>,
}

/// The next event of the thread at once, where it wants no access; else what it wants is answered,
/// and nothing changes.
#[inline(always)]
pub fn step_or_want(s: &mut ThreadState, p: &Checked) -> Option<Want>
    requires program { p.now ≡ s.old.program }
    requires lawful { IsLawful p.now s.old }
    ensures step { IsStepOrWant p.now s.old s.new result }
    ensures lawful { IsLawful p.now s.new }
{
    lawful_is_kept();
    let _checked = p.program();
    if s.phase() == Phase::Run {
        return match run_or_want(s, p) {
            Some(want) => Some(Want {
                access: want.access,
                effect: Some(want.effect),
            }),
            None => None,
        };
    }
    match want_between(s, p) {
        Some(access) => Some(Want {
            access,
            effect: None,
        }),
        None => {
            make_between(s, p, 0);
            None
        }
    }
}

/// What the thread becomes by the word that the access found which it wanted, with the effect that
/// was told.
#[inline(always)]
pub fn apply_effect(s: &mut ThreadState, p: &Checked, effect: Option<Effect>, got: u64)
    requires program { p.now ≡ s.old.program }
    requires lawful { IsLawful p.now s.old }
    requires effect { IsFor p.now s.old effect }
    requires fits { Fits p.now s.old got }
    ensures state { s.new ≡ moved p.now s.old s.old.phase got }
    ensures lawful { IsLawful p.now s.new }
{
    lawful_is_kept();
    let _checked = p.program();
    match effect {
        Some(effect) => run_by(s, p, effect, got),
        None => make_between(s, p, got),
    }
}
