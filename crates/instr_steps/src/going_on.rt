//! The top frame after an instruction, by the instruction's row in the table (JVMS 6.5).

ghost use Rattle.std.specs.Prelude.{◌≡◌, ◌<◌, ◌≤◌, ◌+◌, ◌-◌, ◌∷◌, ◌++◌, length, drop, map};
ghost use Rattle.std.specs.Prelude.{slice_index_or};
ghost use Rattle.jvm_types.specs.CodeTable.{row, constant_row, move_gives, move_takes};
ghost use Rattle.jvm_types.specs.CodeTable.{result_of, value_of};
ghost use Rattle.jvm_types.specs.declared.program.Target.TheVariants as targets;
ghost use Rattle.code_table.specs.RowForms.{formed_row};
ghost use Rattle.frames.specs.FrameLists.{top, max_stack};
ghost use Rattle.laws_threads.specs.Allowed.{HasLocal};
ghost use Rattle.instr_steps.specs.Going.{HasRoom, HasTaken, frame_went, stack_went};

use code_table::{RowForm, form};
use frames::ThreadState;
use jvm_types::{MethodInfo, Op, Program, StackMove, Target};

/// The top frame goes on at a pc, without so many values of its stack.
#[inline(always)]
fn take(s: &mut ThreadState, count: u16, to: u32)
    requires frame { 0 < length s.old.frames }
    requires values { count ≤ length (top s.old.frames).stack }
    ensures { s.new ≡ stack_went to (drop count (top s.old.frames).stack) s.old }
{
    s.drop_values(count);
    s.set_pc(to);
}

/// The same, with one value in their place.
#[inline(always)]
fn replace(s: &mut ThreadState, count: u16, made: u64, to: u32)
    requires frame { 0 < length s.old.frames }
    requires values { count ≤ length (top s.old.frames).stack }
    requires room { length (top s.old.frames).stack - count + 1
        ≤ max_stack s.old.program.program (top s.old.frames).method }
    ensures { s.new ≡ stack_went to (made ∷ drop count (top s.old.frames).stack) s.old }
{
    s.drop_values(count);
    s.push_value(made);
    s.set_pc(to);
}

/// The top frame goes on at a pc, with values of its stack moved.
#[inline(always)]
fn move_values(s: &mut ThreadState, stack_move: StackMove, to: u32)
    requires frame { 0 < length s.old.frames }
    requires values { move_takes stack_move ≤ length (top s.old.frames).stack }
    requires room { length (top s.old.frames).stack - move_takes stack_move
        + length (move_gives stack_move)
        ≤ max_stack s.old.program.program (top s.old.frames).method }
    ensures { s.new ≡ stack_went to (map
        (λ place. slice_index_or (top s.old.frames).stack place 0) (move_gives stack_move)
        ++ drop (move_takes stack_move) (top s.old.frames).stack) s.old }
{
    match stack_move {
        StackMove::Pop => take(s, 1, to),
        StackMove::Pop2 => take(s, 2, to),
        StackMove::Dup => {
            let first = s.value(0);
            replace(s, 1, first, to);
            s.push_value(first);
        }
        StackMove::DupX1 => {
            let first = s.value(0);
            let second = s.value(1);
            replace(s, 2, first, to);
            s.push_value(second);
            s.push_value(first);
        }
        StackMove::DupX2 => {
            let first = s.value(0);
            let second = s.value(1);
            let third = s.value(2);
            replace(s, 3, first, to);
            s.push_value(third);
            s.push_value(second);
            s.push_value(first);
        }
        StackMove::Dup2 => {
            let first = s.value(0);
            let second = s.value(1);
            replace(s, 2, second, to);
            s.push_value(first);
            s.push_value(second);
            s.push_value(first);
        }
        StackMove::Swap => {
            let upper = s.value(0);
            let lower = s.value(1);
            replace(s, 2, upper, to);
            s.push_value(lower);
        }
    }
}

/// Behind an instruction that names a field.
#[inline(always)]
fn went_with_field(
    s: &mut ThreadState,
    p: &Program,
    pc: u32,
    number: u32,
    op: &Op,
    to: u32,
    made: u64,
)
    requires frame { 0 < length s.old.frames }
    requires taken { HasTaken (constant_row p.now pc (targets.Field number) op.now)
        (top s.old.frames) }
    requires room { HasRoom (constant_row p.now pc (targets.Field number) op.now) (top s.old.frames)
        (max_stack s.old.program.program (top s.old.frames).method) }
    ensures { s.new
        ≡ frame_went (constant_row p.now pc (targets.Field number) op.now) to made s.old }
{
    if p.fields.get(number as usize).is_none() {
        s.set_pc(to);
        return;
    }
    match op {
        Op::Getstatic(_) => replace(s, 0, made, to),
        Op::Putstatic(_) => take(s, 1, to),
        Op::Getfield(_) => replace(s, 1, made, to),
        Op::Putfield(_) => take(s, 2, to),
        _ => s.set_pc(to),
    }
}

/// How many arguments a method takes.
fn argument_count(called: &MethodInfo) -> u16
    requires { length called.now.args < 65536 }
    ensures { result ≡ length called.now.args }
{
    called.args.len() as u16
}

/// Behind a call that takes so many values.
#[inline(always)]
fn went_past(s: &mut ThreadState, count: u16, called: &MethodInfo, to: u32, made: u64)
    requires frame { 0 < length s.old.frames }
    requires values { count ≤ length (top s.old.frames).stack }
    requires room { length (top s.old.frames).stack - count + length (result_of called.now)
        ≤ max_stack s.old.program.program (top s.old.frames).method }
    ensures { s.new ≡ stack_went to (map
        (value_of 0 (λ type. made) (top s.old.frames).stack (top s.old.frames).locals)
        (result_of called.now) ++ drop count (top s.old.frames).stack) s.old }
{
    if called.result.is_some() {
        replace(s, count, made, to);
    } else {
        take(s, count, to);
    }
}

/// Behind an instruction that names a method.
fn went_with_method(
    s: &mut ThreadState,
    p: &Program,
    pc: u32,
    number: u32,
    op: &Op,
    to: u32,
    made: u64,
)
    requires frame { 0 < length s.old.frames }
    requires short { length (top s.old.frames).stack < 65536 }
    requires taken { HasTaken (constant_row p.now pc (targets.Method number) op.now)
        (top s.old.frames) }
    requires room { HasRoom (constant_row p.now pc (targets.Method number) op.now)
        (top s.old.frames) (max_stack s.old.program.program (top s.old.frames).method) }
    ensures { s.new
        ≡ frame_went (constant_row p.now pc (targets.Method number) op.now) to made s.old }
{
    let Some(called) = p.methods.get(number as usize) else {
        s.set_pc(to);
        return;
    };
    match op {
        Op::Invokevirtual(_) | Op::Invokespecial(_) => {
            let count = argument_count(called) + 1;
            went_past(s, count, called, to, made);
        }
        Op::Invokestatic(_) => {
            let count = argument_count(called);
            went_past(s, count, called, to, made);
        }
        _ => s.set_pc(to),
    }
}

/// Behind an instruction with a constant.
fn went_with_constant(
    s: &mut ThreadState,
    p: &Program,
    pc: u32,
    target: Target,
    op: &Op,
    to: u32,
    made: u64,
)
    requires frame { 0 < length s.old.frames }
    requires short { length (top s.old.frames).stack < 65536 }
    requires taken { HasTaken (constant_row p.now pc target op.now) (top s.old.frames) }
    requires room { HasRoom (constant_row p.now pc target op.now) (top s.old.frames)
        (max_stack s.old.program.program (top s.old.frames).method) }
    ensures { s.new ≡ frame_went (constant_row p.now pc target op.now) to made s.old }
{
    match target {
        Target::Nothing => s.set_pc(to),
        Target::Value(_) | Target::Class(_) | Target::Out => replace(s, 0, made, to),
        Target::Field(number) => went_with_field(s, p, pc, number, op, to, made),
        Target::Method(number) => went_with_method(s, p, pc, number, op, to, made),
        Target::Init(_) | Target::Wait | Target::Notify | Target::NotifyAll => take(s, 1, to),
        Target::Println => take(s, 2, to),
    }
}

/// The top frame goes on at a pc behind an instruction, which makes this value, where it makes one.
/// By the form of the instruction's row.
#[inline(always)]
fn went_by(
    s: &mut ThreadState,
    form: RowForm,
    p: &Program,
    pc: u32,
    target: Target,
    op: &Op,
    to: u32,
    made: u64,
)
    requires frame { 0 < length s.old.frames }
    requires taken { HasTaken (formed_row form p.now pc target op.now) (top s.old.frames) }
    requires room { HasRoom (formed_row form p.now pc target op.now) (top s.old.frames)
        (max_stack s.old.program.program (top s.old.frames).method) }
    requires reads { HasLocal (formed_row form p.now pc target op.now).reads
        (top s.old.frames).locals }
    requires writes { HasLocal (formed_row form p.now pc target op.now).writes
        (top s.old.frames).locals }
    requires short { length (top s.old.frames).stack < 65536 }
    ensures { s.new ≡ frame_went (formed_row form p.now pc target op.now) to made s.old }
{
    match form {
        RowForm::Leaves(taken) => take(s, taken.count(), to),
        RowForm::Makes(taken, _) => replace(s, taken.count(), made, to),
        RowForm::Loads(i, _) => {
            let value = s.local(i);
            replace(s, 0, value, to);
        }
        RowForm::Stores(i, _) => {
            let value = s.value(0);
            s.set_local(i, value);
            take(s, 1, to);
        }
        RowForm::Adds(i) => {
            s.set_local(i, made);
            s.set_pc(to);
        }
        RowForm::Moves(stack_move) => move_values(s, stack_move, to),
        RowForm::Named => went_with_constant(s, p, pc, target, op, to, made),
    }
}

/// The top frame goes on at a pc behind an instruction of its method, which makes this value, where
/// it makes one.
#[inline(always)]
pub fn went(
    s: &mut ThreadState,
    m: &MethodInfo,
    p: &Program,
    pc: u32,
    target: Target,
    op: &Op,
    to: u32,
    made: u64,
)
    requires frame { 0 < length s.old.frames }
    requires taken { HasTaken (row p.now m.now pc target op.now) (top s.old.frames) }
    requires room { HasRoom (row p.now m.now pc target op.now) (top s.old.frames)
        (max_stack s.old.program.program (top s.old.frames).method) }
    requires reads { HasLocal (row p.now m.now pc target op.now).reads (top s.old.frames).locals }
    requires writes { HasLocal (row p.now m.now pc target op.now).writes (top s.old.frames).locals }
    requires short { length (top s.old.frames).stack < 65536 }
    ensures { s.new ≡ frame_went (row p.now m.now pc target op.now) to made s.old }
{
    let form = form(m, op);
    went_by(s, form, p, pc, target, op, to, made);
}
