//! What the next event of a thread makes of it.

ghost use Rattle.std.specs.Prelude.{◌≡◌, ◌≢◌, ◌<◌, ◌^◌, None, true, IfSome, IsSome, length};
ghost use Rattle.std.specs.Prelude.{slice_index};
ghost use Rattle.machine_types.specs.Accesses.{accessed, found_by, left_by, words_after};
ghost use Rattle.machine_types.specs.Core.{is_live};
ghost use Rattle.machine_types.specs.Events.{moved, wanted};
ghost use Rattle.machine_types.specs.FoundWords.{Fits};
ghost use Rattle.machine_types.specs.Lawful.{IsLawful};
ghost use Rattle.machine_types.specs.declared.phase.Phase.TheVariants.{Run};
ghost use Rattle.instr_steps.specs.Phases.{IsThrow};
ghost use Rattle.step_core.specs.Claims.{CanFailCheck};

use crate::attempts::passes;
use crate::entering::enter;
use crate::leaving::leave;
use crate::wanting::want_between;
use checked_program::Checked;
use fat_monitor::answer;
use frames::ThreadState;
use instr_effects::perform;
use instr_steps::{begin_root, dispatch, finish_element, run, run_with, store_header};
use jvm_types::Rows;
use laws_threads::{attempts_are_based, lawful_is_kept};
use machine_types::Phase;

/// One frame and the exception that the thread throws, behind a check in an attempt.
fn throw(s: &mut ThreadState, p: &Checked, found: u64)
    requires throws { IsThrow s.old.phase }
    requires program { p.now ≡ s.old.program }
    requires lawful { IsLawful p.now s.old }
    requires can { CanFailCheck s.old }
    ensures { s.new ≡ moved p.now s.old s.old.phase found }
{
    if passes(s, found) {
        let _did = dispatch(s, p);
    }
}

/// An event that makes no instruction, by the word that its access found, which is 0 where it has
/// none. It stands apart from `make`, so that an event has one call of the instructions' effects,
/// which the compiler then inlines.
pub(crate) fn make_between(s: &mut ThreadState, p: &Checked, got: u64)
    requires program { p.now ≡ s.old.program }
    requires lawful { IsLawful p.now s.old }
    requires fits { Fits p.now s.old got }
    requires between { s.old.phase ≢ Run }
    ensures { s.new ≡ moved p.now s.old s.old.phase got }
{
    attempts_are_based();
    // its limits are `u32`s, and there are at most 9 threads
    let _limits = s.config();
    let _workers = p.workers();
    match s.phase() {
        Phase::Idle | Phase::Ended(_) => {}
        Phase::Start => begin_root(s, p),
        Phase::Run => unreachable!(),
        Phase::Element(_, _) => finish_element(s, p, got),
        Phase::Made(_, _) => store_header(s, p),
        Phase::Throw(_, _) => throw(s, p, got),
        Phase::Enter(m, tried) => enter(s, p, m, tried, got),
        Phase::Leave(m, after) => leave(s, p, m, after, got),
        Phase::Ending(e) => s.set_phase(Phase::Ended(e)),
        _ => answer(s, p, got),
    }
}

/// The next event of the thread, by the word that its access found, which is 0 where it has none.
fn make(s: &mut ThreadState, p: &Checked, got: u64)
    requires program { p.now ≡ s.old.program }
    requires lawful { IsLawful p.now s.old }
    requires fits { Fits p.now s.old got }
    ensures { s.new ≡ moved p.now s.old s.old.phase got }
{
    if s.phase() == Phase::Run {
        run(s, p, got);
    } else {
        make_between(s, p, got);
    }
}

/// The next event of the thread, with its access.
#[inline(always)]
fn make_event(s: &mut ThreadState, p: &Checked, words: &mut Rows<u64>)
    requires word { IfSome (wanted p.now s.old s.old.phase) (λ a. accessed a < length words.old) }
    requires sum { IfSome (wanted p.now s.old s.old.phase)
        (λ a. left_by a (slice_index words.old (accessed a)) < 2 ^ 64) }
    requires program { p.now ≡ s.old.program }
    requires lawful { IsLawful p.now s.old }
    requires fits { Fits p.now s.old (found_by words.old (wanted p.now s.old s.old.phase)) }
    ensures state { s.new
        ≡ moved p.now s.old s.old.phase (found_by words.old (wanted p.now s.old s.old.phase)) }
    ensures words { words.new ≡ words_after words.old (wanted p.now s.old s.old.phase) }
{
    if s.phase() == Phase::Run {
        run_with(s, p, words);
        return;
    }
    match want_between(s, p) {
        Some(access) => {
            let got = perform(words, access);
            make_between(s, p, got);
        }
        None => make_between(s, p, 0),
    }
}

/// What the thread becomes by the word that the access found which it wanted.
pub fn apply(s: &mut ThreadState, p: &Checked, got: u64)
    requires wants { IsSome (wanted p.now s.old s.old.phase) }
    requires program { p.now ≡ s.old.program }
    requires lawful { IsLawful p.now s.old }
    requires fits { Fits p.now s.old got }
    ensures state { s.new ≡ moved p.now s.old s.old.phase got }
    ensures lawful { IsLawful p.now s.new }
{
    lawful_is_kept();
    let _checked = p.program();
    make(s, p, got);
}

/// The next event of a live thread, where it wants no access.
pub fn step_local(s: &mut ThreadState, p: &Checked)
    requires live { is_live s.old.phase ≡ true }
    requires wants { wanted p.now s.old s.old.phase ≡ None }
    requires program { p.now ≡ s.old.program }
    requires lawful { IsLawful p.now s.old }
    ensures state { s.new ≡ moved p.now s.old s.old.phase 0 }
    ensures lawful { IsLawful p.now s.new }
{
    lawful_is_kept();
    let _checked = p.program();
    make(s, p, 0);
}

/// One event of the thread, with its access: nothing changes where the thread is not live. The word
/// of the access is there, fits what it is read as, and a sum fits 64 bits.
pub fn event(s: &mut ThreadState, p: &Checked, words: &mut Rows<u64>)
    requires word { IfSome (wanted p.now s.old s.old.phase) (λ a. accessed a < length words.old) }
    requires sum { IfSome (wanted p.now s.old s.old.phase)
        (λ a. left_by a (slice_index words.old (accessed a)) < 2 ^ 64) }
    requires program { p.now ≡ s.old.program }
    requires lawful { IsLawful p.now s.old }
    requires fits { Fits p.now s.old (found_by words.old (wanted p.now s.old s.old.phase)) }
    ensures state { s.new
        ≡ moved p.now s.old s.old.phase (found_by words.old (wanted p.now s.old s.old.phase)) }
    ensures words { words.new ≡ words_after words.old (wanted p.now s.old s.old.phase) }
    ensures lawful { IsLawful p.now s.new }
{
    lawful_is_kept();
    let _checked = p.program();
    make_event(s, p, words);
}
