//! Where the top frame of a thread stands.

ghost use Rattle.std.specs.Prelude.{◌≡◌, ◌<◌, length, slice_get, slice_index_or, IsSome, Some};
ghost use Rattle.jvm_types.specs.declared.program.Target.TheVariants.{Nothing};
ghost use Rattle.machine_types.specs.Frames.{top_of};
ghost use Rattle.machine_types.specs.Lawful.{IsLawful};
ghost use Rattle.machine_types.specs.declared.phase.Phase.TheVariants.{Run};
ghost use Rattle.checked_program.specs.CodeIndex.{number_in};
ghost use Rattle.frames.specs.FrameLists.{top};
ghost use Rattle.instr_steps.specs.NextPlace.{IsNext};
ghost use Rattle.instr_steps.specs.Places.{at_place};

use checked_program::Checked;
use frames::ThreadState;
use jvm_types::{Insn, MethodInfo, Rows, Target};
use std::marker::Model;

/// An instruction of a method, with what its constant names.
#[derive(Debug, Drop)]
pub struct CurrentInsn<'a> {
    method: &'a MethodInfo,
    insn: &'a Insn,
    /// The number of the instruction, and of its target.
    number: usize,
}

impl<'a> Model for CurrentInsn<'a> {
    ghost use Rattle.std.specs.Prelude.{◌<◌, length, slice_index_or};
    ghost use Rattle.jvm_types.specs.declared.program.Target.TheVariants.{Nothing};
    ghost use Rattle.instr_steps.specs.Places.{CurrentInsn as At};

    ghost Value = { At };

    ghost view = { λ at.
        record {
          method = at.method.now;
          insn = at.insn.now;
          target = slice_index_or at.method.now.targets at.number Nothing;
        } };

    ghost invariant = { λ at. at.number < length at.method.now.targets };
}

#[inline(always)]
fn target_at(targets: &Rows<Target>, i: usize) -> Target
    requires { i < length targets.now }
    ensures { result ≡ slice_index_or targets.now i Nothing }
{
    targets.as_slice()[i]
}

impl<'a> CurrentInsn<'a> {
    /// The instruction of a number in the code of a method.
    #[inline(always)]
    pub fn of(method: &'a MethodInfo, number: usize) -> CurrentInsn<'a>
        requires insn { number < length method.now.code }
        requires target { number < length method.now.targets }
        ensures method { result.method ≡ method.now }
        ensures insn { slice_get method.now.code number ≡ Some result.insn }
        ensures target { result.target ≡ slice_index_or method.now.targets number Nothing }
    {
        CurrentInsn {
            method,
            insn: insn_at(&method.code, number),
            number,
        }
    }

    #[inline(always)]
    pub fn method(&self) -> &'a MethodInfo
        ensures { result.now ≡ self.now.method }
    {
        self.method
    }

    #[inline(always)]
    pub fn insn(&self) -> &'a Insn
        ensures { result.now ≡ self.now.insn }
    {
        self.insn
    }

    /// A copy for calls that are not inlined, so that this one needs no place in memory.
    #[inline(always)]
    pub fn again(&self) -> CurrentInsn<'a>
        ensures { result ≡ self.now }
    {
        CurrentInsn {
            method: self.method,
            insn: self.insn,
            number: self.number,
        }
    }

    #[inline(always)]
    pub fn target(&self) -> Target
        ensures { result ≡ self.now.target }
    {
        target_at(&self.method.targets, self.number)
    }
}

/// A method of the program.
#[inline(always)]
pub fn method_of(p: &Checked, number: u32) -> &MethodInfo
    requires { number < length p.now.program.methods }
    ensures { slice_get p.now.program.methods number ≡ Some result.now }
{
    match p.program().methods.get(number as usize) {
        Some(m) => m,
        None => unreachable!(),
    }
}

#[inline(always)]
fn insn_at(code: &Rows<Insn>, i: usize) -> &Insn
    requires { i < length code.now }
    ensures { slice_get code.now i ≡ Some result.now }
{
    match code.get(i) {
        Some(insn) => insn,
        None => unreachable!(),
    }
}

/// The place of the top frame, which has one.
#[inline(always)]
pub fn place_of<'a>(s: &ThreadState, p: &'a Checked) -> CurrentInsn<'a>
    requires { IsSome (top_of p.now.program s.now.frames) }
    ensures { top_of p.now.program s.now.frames ≡ Some (at_place s.now.frames result) }
{
    let method = method_of(p, s.method());
    match p.number_at(s.method(), s.pc()) {
        Some(i) => CurrentInsn {
            method,
            insn: insn_at(&method.code, i),
            number: i,
        },
        None => unreachable!(),
    }
}

/// Where the thread makes its next instruction.
#[inline(always)]
pub fn next_place<'a>(s: &ThreadState, p: &'a Checked) -> CurrentInsn<'a>
    requires lawful { IsLawful p.now s.now }
    requires phase { s.now.phase ≡ Run }
    ensures { IsNext p.now s.now result }
{
    let _checked = p.program();
    place_of(s, p)
}
