//! What follows an instruction, or precedes the first one: a root, an element, a new object, an
//! exception, and what is done when a monitor was left.

ghost use Rattle.std.specs.Prelude.{◌≡◌, ℕ};
ghost use Rattle.jvm_types.specs.declared.outcome.Thrown.{Thrown as Class};
ghost use Rattle.machine_types.specs.Events.{moved};
ghost use Rattle.machine_types.specs.Going.{goes_after, goes_on_if};
ghost use Rattle.machine_types.specs.Lawful.{IsLawful, within};
ghost use Rattle.machine_types.specs.Onward.{dispatched};
ghost use Rattle.machine_types.specs.declared.phase.After.TheVariants.{Return};
ghost use Rattle.machine_types.specs.Typed.{AfterHolds};
ghost use Rattle.machine_types.specs.declared.phase.Phase.TheVariants.{Start, Throw};
ghost use Rattle.instr_steps.specs.Outcomes.{did_in};
ghost use Rattle.instr_steps.specs.Phases.{IsElement, IsMadePhase, IsThrow};

use crate::calls::{begin_first, give_back};
use crate::did::{Did, did_in};
use crate::exceptions::{hand, unwind};
use crate::moves::go_on;
use crate::places::place_of;
use checked_program::Checked;
use frames::{ThreadState, runs};
use machine_types::{After, Phase};

/// The next root of a thread begins.
pub fn begin_root(s: &mut ThreadState, p: &Checked)
    requires program { p.now ≡ s.old.program }
    requires lawful { IsLawful p.now s.old }
    requires phase { s.old.phase ≡ Start }
    ensures { s.new ≡ moved p.now s.old Start 0 }
{
    begin_first(s, p);
}

/// An element was read or stored; `got` is the word that was found.
pub fn finish_element(s: &mut ThreadState, p: &Checked, got: u64)
    requires program { p.now ≡ s.old.program }
    requires lawful { IsLawful p.now s.old }
    requires phase { IsElement s.old.phase }
    ensures { s.new ≡ moved p.now s.old s.old.phase got }
{
    let _checked = p.program();
    match s.phase() {
        Phase::Element(_, stored) => {
            let place = place_of(s, p);
            go_on(s, p, &place, if stored.is_some() { 0 } else { got });
        }
        _ => unreachable!(),
    }
}

/// The header of a new object was stored.
pub fn store_header(s: &mut ThreadState, p: &Checked)
    requires program { p.now ≡ s.old.program }
    requires lawful { IsLawful p.now s.old }
    requires phase { IsMadePhase s.old.phase }
    ensures { s.new ≡ moved p.now s.old s.old.phase 0 }
{
    let _checked = p.program();
    match s.phase() {
        Phase::Made(a, _) => {
            s.push_value(a as u64);
            runs(s);
        }
        _ => unreachable!(),
    }
}

/// The exception of a thread that throws is given to one frame.
pub fn dispatch(s: &mut ThreadState, p: &Checked) -> Did
    requires program { p.now ≡ s.old.program }
    requires lawful { IsLawful p.now s.old }
    requires phase { IsThrow s.old.phase }
    ensures state { (x : ℕ) (class : Class) → s.old.phase ≡ Throw x class
        → s.new ≡ goes_on_if s.old (dispatched p.now.program x class s.old.frames) }
    ensures did { result ≡ did_in s.new.phase }
{
    let _checked = p.program();
    match s.phase() {
        Phase::Throw(x, class) => {
            let place = place_of(s, p);
            hand(s, p, &place, x, class);
            did_in(s.phase())
        }
        _ => unreachable!(),
    }
}

/// A return goes on, when its method has left its monitor.
fn return_after(s: &mut ThreadState, p: &Checked)
    requires program { p.now ≡ s.old.program }
    requires holds { AfterHolds p.now (within p.now.program) Return s.old.frames }
    ensures { s.new ≡ goes_after p.now.program s.old Return }
{
    let _checked = p.program();
    if s.depth() > 0 {
        let place = place_of(s, p);
        give_back(s, p, &place);
    }
}

/// What is done when a monitor was left.
pub fn go_after(s: &mut ThreadState, p: &Checked, after: After)
    requires program { p.now ≡ s.old.program }
    requires holds { AfterHolds p.now (within p.now.program) after s.old.frames }
    ensures { s.new ≡ goes_after p.now.program s.old after }
{
    match after {
        After::Next => runs(s),
        After::Return => return_after(s, p),
        After::Unwind(x, class) => unwind(s, x, class),
    }
}
