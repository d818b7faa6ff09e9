//! What the instruction does at which a thread stands.

ghost use Rattle.std.specs.Prelude.{◌≡◌};
ghost use Rattle.std.specs.Option.{option_map};
ghost use Rattle.machine_types.specs.Frames.{top_of};
ghost use Rattle.event_texts.specs.Doings.{doing_at};

use checked_program::Checked;
use frames::ThreadState;
use instr_effects::effect;
use jvm_types::Target;
use machine_types::Effect;

/// What an instruction does, and what its constant names.
#[derive(Clone, Copy, Debug, PartialEq, Eq)]
pub struct Doing {
    pub pc: u32,
    pub effect: Effect,
    pub target: Target,
}

/// What the instruction does at which the top frame stands, where there is one.
pub fn next_doing(s: &ThreadState, p: &Checked) -> Option<Doing>
    ensures { result ≡ option_map (doing_at p.now.program) (top_of p.now.program s.now.frames) }
{
    if s.depth() == 0 {
        return None;
    }
    let Some(m) = p.program().methods.get(s.method() as usize) else {
        return None;
    };
    let pc = s.pc();
    let Some(i) = p.number_at(s.method(), pc) else {
        return None;
    };
    let Some(insn) = m.code.get(i) else {
        return None;
    };
    let Some(target) = m.targets.get(i) else {
        return None;
    };
    let op = &insn.op;
    let effect = effect(p.program(), insn.next, *target, op, s.locals(), s.stack());
    Some(Doing {
        pc,
        effect,
        target: *target,
    })
}
