//! How a thread goes on behind an instruction.

ghost use Rattle.std.specs.Prelude.{◌≡◌, ◌<◌, length};
ghost use Rattle.jvm_types.specs.CodeTable.{row};
ghost use Rattle.machine_types.specs.Frames.{went, went_on};
ghost use Rattle.machine_types.specs.Going.{goes_on, runs};
ghost use Rattle.machine_types.specs.Onward.{Running, threw};
ghost use Rattle.machine_types.specs.declared.phase.Phase.TheVariants.{Run};
ghost use Rattle.instr_steps.specs.Places.{IsTopAt, CanGo, at_place};

use crate::going_on::went;
use crate::places::CurrentInsn;
use checked_program::Checked;
use frames::{ThreadState, runs};
use heap_words::ready;
use jvm_types::{End, Thrown};
use machine_types::Phase;

/// The top frame goes on at a pc, with the value that the instruction makes.
#[inline(always)]
pub fn move_to(s: &mut ThreadState, p: &Checked, place: &CurrentInsn, to: u32, made: u64)
    requires program { p.now ≡ s.old.program }
    requires stands { IsTopAt p.now.program s.old.frames place.now }
    requires row { CanGo p.now.program s.old.frames place.now }
    ensures { s.new
        ≡ record s.old { frames = went p.now.program (at_place s.old.frames place.now) to made } }
{
    let m = place.method();
    let insn = place.insn();
    // a stack has fewer values than a `u16` counts
    let _most = m.max_stack;
    went(
        s,
        m,
        p.program(),
        insn.pc,
        place.target(),
        &insn.op,
        to,
        made,
    );
}

/// The same, to the instruction that follows.
#[inline(always)]
pub fn move_on(s: &mut ThreadState, p: &Checked, place: &CurrentInsn, made: u64)
    requires program { p.now ≡ s.old.program }
    requires stands { IsTopAt p.now.program s.old.frames place.now }
    requires row { CanGo p.now.program s.old.frames place.now }
    ensures { s.new
        ≡ record s.old { frames = went_on p.now.program (at_place s.old.frames place.now) made } }
{
    move_to(s, p, place, place.insn().next, made);
}

/// The thread goes on at a pc.
#[inline(always)]
pub fn go_to(s: &mut ThreadState, p: &Checked, place: &CurrentInsn, to: u32, made: u64)
    requires program { p.now ≡ s.old.program }
    requires stands { IsTopAt p.now.program s.old.frames place.now }
    requires row { CanGo p.now.program s.old.frames place.now }
    ensures { s.new
        ≡ goes_on s.old (Running (went p.now.program (at_place s.old.frames place.now) to made)) }
{
    move_to(s, p, place, to, made);
    runs(s);
}

/// The thread goes on at the instruction that follows.
#[inline(always)]
pub fn go_on(s: &mut ThreadState, p: &Checked, place: &CurrentInsn, made: u64)
    requires program { p.now ≡ s.old.program }
    requires stands { IsTopAt p.now.program s.old.frames place.now }
    requires row { CanGo p.now.program s.old.frames place.now }
    ensures { s.new
        ≡ goes_on s.old (Running (went_on p.now.program (at_place s.old.frames place.now) made)) }
{
    go_to(s, p, place, place.insn().next, made);
}

/// A thread that runs goes on to its next instruction, unless it has made as many as it may.
#[inline(always)]
pub fn keep_running(s: &mut ThreadState)
    requires { s.old.phase ≡ Run }
    ensures { s.new ≡ runs s.old }
{
    if s.counts().instructions >= s.config().steps {
        s.set_phase(Phase::Ending(End::Steps));
    }
}

/// A thread that runs goes on at a pc.
#[inline(always)]
pub fn run_to(s: &mut ThreadState, p: &Checked, place: &CurrentInsn, to: u32, made: u64)
    requires phase { s.old.phase ≡ Run }
    requires program { p.now ≡ s.old.program }
    requires stands { IsTopAt p.now.program s.old.frames place.now }
    requires row { CanGo p.now.program s.old.frames place.now }
    ensures { s.new
        ≡ goes_on s.old (Running (went p.now.program (at_place s.old.frames place.now) to made)) }
{
    move_to(s, p, place, to, made);
    keep_running(s);
}

/// A thread that runs goes on at the instruction that follows.
#[inline(always)]
pub fn run_on(s: &mut ThreadState, p: &Checked, place: &CurrentInsn, made: u64)
    requires phase { s.old.phase ≡ Run }
    requires program { p.now ≡ s.old.program }
    requires stands { IsTopAt p.now.program s.old.frames place.now }
    requires row { CanGo p.now.program s.old.frames place.now }
    ensures { s.new
        ≡ goes_on s.old (Running (went_on p.now.program (at_place s.old.frames place.now) made)) }
{
    run_to(s, p, place, place.insn().next, made);
}

/// The thread throws an exception that the machine makes.
pub fn throw(s: &mut ThreadState, p: &Checked, place: &CurrentInsn, x: Thrown)
    requires stands { IsTopAt p.now.program s.old.frames place.now }
    ensures { s.new ≡ goes_on s.old (threw x (at_place s.old.frames place.now)) }
{
    // the place tells that the frames are the top one and those below it
    let _insn = place.insn();
    let _program = p.program();
    s.set_phase(Phase::Throw(ready(x), x));
}
