//! What an instruction does, by what stands on the stack and in the locals.

ghost use Rattle.std.specs.Prelude.{◌≡◌, slice_index};
ghost use Rattle.jvm_types.specs.ProgramInvariant.{IsProgram};
ghost use Rattle.machine_types.specs.Effects.{at_local, effect, unless_zero};
ghost use Rattle.machine_types.specs.Ints.{added, divided, remaining, word_of};
ghost use Rattle.machine_types.specs.declared.effect.Effect.TheVariants.{Goes};

use crate::before::{at_local, branch, case_target, table_target, unless_null};
use crate::ints::{
    add, bits_and, bits_or, bits_xor, compare, divide, int_of, low, multiply, remainder,
    shift_down, shift_left, shift_right, subtract, to_byte, to_char, to_short, word_of,
};
use crate::names::{makes_array, named};
use jvm_types::{Op, Program, Target, Thrown};
use machine_types::Effect;

#[inline(always)]
fn quotient(next: u32, a: u64, b: u64) -> Effect
    ensures { result ≡ unless_zero b (Goes next (divided a b)) }
{
    if low(b) == 0 {
        Effect::Throws(Thrown::ArithmeticException)
    } else {
        Effect::Goes(next, divide(a, b))
    }
}

#[inline(always)]
fn rest(next: u32, a: u64, b: u64) -> Effect
    ensures { result ≡ unless_zero b (Goes next (remaining a b)) }
{
    if low(b) == 0 {
        Effect::Throws(Thrown::ArithmeticException)
    } else {
        Effect::Goes(next, remainder(a, b))
    }
}

#[inline(always)]
fn increment(next: u32, i: u16, n: i32, locals: &[u64]) -> Effect
    ensures { result
        ≡ at_local i locals.now (Goes next (added (slice_index locals.now i) (word_of n))) }
{
    let i = usize::from(i);
    if i < locals.len() {
        Effect::Goes(next, add(locals[i], word_of(n)))
    } else {
        Effect::Stuck
    }
}

/// What the instruction does whose constant names `target`, where the pc of the following one is
/// `next`. The stack is given with its top first, and the answer is `Stuck` where it or the locals
/// are those of no verified method.
pub fn effect(
    p: &Program,
    next: u32,
    target: Target,
    op: &Op,
    locals: &[u64],
    stack: &[u64],
) -> Effect
    requires { IsProgram p.now }
    ensures { result ≡ effect p.now next target op.now locals.now stack.now }
{
    match op {
        Op::Nop | Op::AconstNull => Effect::Goes(next, 0),
        Op::Iconst(n) | Op::Bipush(n) | Op::Sipush(n) => Effect::Goes(next, word_of(*n)),
        Op::Iload(i) | Op::Aload(i) => at_local(*i, locals, Effect::Goes(next, 0)),
        Op::Istore(i) | Op::Astore(i) => match stack {
            [_, ..] => at_local(*i, locals, Effect::Goes(next, 0)),
            [] => Effect::Stuck,
        },
        Op::Iaload => match stack {
            [i, a, ..] => unless_null(*a, Effect::Indexes(*a, *i, None)),
            _ => Effect::Stuck,
        },
        Op::Iastore => match stack {
            [v, i, a, ..] => unless_null(*a, Effect::Indexes(*a, *i, Some(*v))),
            _ => Effect::Stuck,
        },
        Op::Stack(stack_move) => {
            if stack.len() < stack_move.count() {
                Effect::Stuck
            } else {
                Effect::Goes(next, 0)
            }
        }
        Op::Iadd => match stack {
            [b, a, ..] => Effect::Goes(next, add(*a, *b)),
            _ => Effect::Stuck,
        },
        Op::Isub => match stack {
            [b, a, ..] => Effect::Goes(next, subtract(*a, *b)),
            _ => Effect::Stuck,
        },
        Op::Imul => match stack {
            [b, a, ..] => Effect::Goes(next, multiply(*a, *b)),
            _ => Effect::Stuck,
        },
        Op::Idiv => match stack {
            [b, a, ..] => quotient(next, *a, *b),
            _ => Effect::Stuck,
        },
        Op::Irem => match stack {
            [b, a, ..] => rest(next, *a, *b),
            _ => Effect::Stuck,
        },
        Op::Ineg => match stack {
            [a, ..] => Effect::Goes(next, subtract(0, *a)),
            [] => Effect::Stuck,
        },
        Op::Ishl => match stack {
            [b, a, ..] => Effect::Goes(next, shift_left(*a, *b)),
            _ => Effect::Stuck,
        },
        Op::Ishr => match stack {
            [b, a, ..] => Effect::Goes(next, shift_right(*a, *b)),
            _ => Effect::Stuck,
        },
        Op::Iushr => match stack {
            [b, a, ..] => Effect::Goes(next, shift_down(*a, *b)),
            _ => Effect::Stuck,
        },
        Op::Iand => match stack {
            [b, a, ..] => Effect::Goes(next, bits_and(*a, *b)),
            _ => Effect::Stuck,
        },
        Op::Ior => match stack {
            [b, a, ..] => Effect::Goes(next, bits_or(*a, *b)),
            _ => Effect::Stuck,
        },
        Op::Ixor => match stack {
            [b, a, ..] => Effect::Goes(next, bits_xor(*a, *b)),
            _ => Effect::Stuck,
        },
        Op::Iinc(i, n) => increment(next, *i, *n, locals),
        Op::I2b => match stack {
            [a, ..] => Effect::Goes(next, to_byte(*a)),
            [] => Effect::Stuck,
        },
        Op::I2c => match stack {
            [a, ..] => Effect::Goes(next, to_char(*a)),
            [] => Effect::Stuck,
        },
        Op::I2s => match stack {
            [a, ..] => Effect::Goes(next, to_short(*a)),
            [] => Effect::Stuck,
        },
        Op::If(c, to) => match stack {
            [a, ..] => branch(compare(*c, int_of(*a), 0), *to, next),
            [] => Effect::Stuck,
        },
        Op::IfIcmp(c, to) => match stack {
            [b, a, ..] => branch(compare(*c, int_of(*a), int_of(*b)), *to, next),
            _ => Effect::Stuck,
        },
        Op::IfAcmpeq(to) => match stack {
            [b, a, ..] => branch(*a == *b, *to, next),
            _ => Effect::Stuck,
        },
        Op::IfAcmpne(to) => match stack {
            [b, a, ..] => branch(!(*a == *b), *to, next),
            _ => Effect::Stuck,
        },
        Op::Ifnull(to) => match stack {
            [a, ..] => branch(*a == 0, *to, next),
            [] => Effect::Stuck,
        },
        Op::Ifnonnull(to) => match stack {
            [a, ..] => branch(!(*a == 0), *to, next),
            [] => Effect::Stuck,
        },
        Op::Goto(to) | Op::GotoW(to) => Effect::Goes(*to, 0),
        Op::Tableswitch {
            otherwise,
            low,
            targets,
        } => match stack {
            [a, ..] => Effect::Goes(
                table_target(*otherwise, *low, targets.as_slice(), int_of(*a)),
                0,
            ),
            [] => Effect::Stuck,
        },
        Op::Lookupswitch { otherwise, cases } => match stack {
            [a, ..] => Effect::Goes(case_target(*otherwise, cases.as_slice(), *a), 0),
            [] => Effect::Stuck,
        },
        Op::Ireturn | Op::Areturn => match stack {
            [_, ..] => Effect::Returns,
            [] => Effect::Stuck,
        },
        Op::Return => Effect::Returns,
        Op::Newarray => match stack {
            [count, ..] => makes_array(p, *count),
            [] => Effect::Stuck,
        },
        Op::Arraylength => match stack {
            [a, ..] => unless_null(*a, Effect::Measures(*a)),
            [] => Effect::Stuck,
        },
        Op::Athrow => match stack {
            [a, ..] => unless_null(*a, Effect::Raises(*a)),
            [] => Effect::Stuck,
        },
        Op::Monitorenter => match stack {
            [a, ..] => unless_null(*a, Effect::Enters(*a)),
            [] => Effect::Stuck,
        },
        Op::Monitorexit => match stack {
            [a, ..] => Effect::Leaves(*a),
            [] => Effect::Stuck,
        },
        Op::Ldc(_)
        | Op::LdcW(_)
        | Op::Getstatic(_)
        | Op::Putstatic(_)
        | Op::Getfield(_)
        | Op::Putfield(_)
        | Op::Invokevirtual(_)
        | Op::Invokespecial(_)
        | Op::Invokestatic(_)
        | Op::New(_) => named(p, next, target, op, stack),
    }
}
