//! The table of instructions: the form of the row of each, and by it the row and how many values
//! the instruction takes.

ghost use Rattle.std.specs.Prelude.{◌≡◌, ℕ, length, IfOk};
ghost use Rattle.jvm_types.specs.CodeTable.{row};
ghost use Rattle.jvm_types.specs.declared.program.Program.{Program};
ghost use Rattle.jvm_types.specs.declared.program.Target.{Target};
ghost use Rattle.code_table.specs.RowForms.{formed_row};

use crate::constant_rows::{constant_row, constant_takes, returned};
use crate::row_forms::{AN_INT, RowForm, Takes, load_row, stack_row, store_row, taking_row};
use jvm_types::class_numbers::{INT_ARRAY_CLASS, OBJECT_CLASS, THROWABLE_CLASS};
use jvm_types::{Given, MethodInfo, Op, OpRow, Program, Rows, Target, VType, Want};
use std::alloc::{AllocError, Global};

const INT: Want = Want::AnInt;

const AN_OBJECT: Want = Want::AnObject(OBJECT_CLASS);

const AN_ARRAY: Want = Want::AnObject(INT_ARRAY_CLASS);

const A_THROWABLE: Want = Want::AnObject(THROWABLE_CLASS);

/// The form of the row of an instruction of a method.
#[inline(always)]
pub fn form(m: &MethodInfo, op: &Op) -> RowForm
    ensures { (p : Program) (pc : ℕ) (target : Target)
        → formed_row result p pc target op.now ≡ row p m.now pc target op.now }
{
    match op {
        Op::Nop | Op::Goto(_) | Op::GotoW(_) | Op::Return => RowForm::Leaves(Takes::Nothing),
        Op::AconstNull => RowForm::Makes(Takes::Nothing, VType::Null),
        Op::Iconst(_) | Op::Bipush(_) | Op::Sipush(_) => RowForm::Makes(Takes::Nothing, VType::Int),
        Op::Iload(i) => RowForm::Loads(*i, INT),
        Op::Aload(i) => RowForm::Loads(*i, Want::AnyReference),
        Op::Istore(i) => RowForm::Stores(*i, INT),
        Op::Astore(i) => RowForm::Stores(*i, Want::AnyReference),
        Op::Iinc(i, _) => RowForm::Adds(*i),
        Op::Iaload => RowForm::Makes(Takes::Two(INT, AN_ARRAY), VType::Int),
        Op::Iastore => RowForm::Leaves(Takes::Three(INT, INT, AN_ARRAY)),
        Op::Stack(stack_move) => RowForm::Moves(*stack_move),
        Op::Ineg | Op::I2b | Op::I2c | Op::I2s => RowForm::Makes(Takes::One(INT), VType::Int),
        Op::Iadd
        | Op::Isub
        | Op::Imul
        | Op::Idiv
        | Op::Irem
        | Op::Ishl
        | Op::Ishr
        | Op::Iushr
        | Op::Iand
        | Op::Ior
        | Op::Ixor => RowForm::Makes(Takes::Two(INT, INT), VType::Int),
        Op::If(_, _) | Op::Tableswitch { .. } | Op::Lookupswitch { .. } | Op::Ireturn => {
            RowForm::Leaves(Takes::One(INT))
        }
        Op::IfIcmp(_, _) => RowForm::Leaves(Takes::Two(INT, INT)),
        Op::IfAcmpeq(_) | Op::IfAcmpne(_) => RowForm::Leaves(Takes::Two(AN_OBJECT, AN_OBJECT)),
        Op::Ifnull(_) | Op::Ifnonnull(_) | Op::Monitorenter | Op::Monitorexit => {
            RowForm::Leaves(Takes::One(AN_OBJECT))
        }
        Op::Areturn => RowForm::Leaves(Takes::One(returned(m.result))),
        Op::Newarray => RowForm::Makes(Takes::One(INT), VType::Ref(INT_ARRAY_CLASS)),
        Op::Arraylength => RowForm::Makes(Takes::One(AN_ARRAY), VType::Int),
        Op::Athrow => RowForm::Leaves(Takes::One(A_THROWABLE)),
        Op::Ldc(_)
        | Op::LdcW(_)
        | Op::Getstatic(_)
        | Op::Putstatic(_)
        | Op::Getfield(_)
        | Op::Putfield(_)
        | Op::Invokevirtual(_)
        | Op::Invokespecial(_)
        | Op::Invokestatic(_)
        | Op::New(_) => RowForm::Named,
    }
}

/// The row of an instruction by its form.
fn formed_row(
    alloc: Global,
    form: RowForm,
    p: &Program,
    pc: u32,
    target: Target,
    op: &Op,
) -> Result<OpRow, AllocError>
    ensures { IfOk result (λ r. r ≡ formed_row form p.now pc target op.now) }
{
    match form {
        RowForm::Leaves(takes) => taking_row(alloc, takes, &[]),
        RowForm::Makes(takes, made) => taking_row(alloc, takes, &[Given::Fresh(made)]),
        RowForm::Loads(i, want) => load_row(alloc, i, want),
        RowForm::Stores(i, want) => store_row(alloc, i, want),
        RowForm::Adds(i) => Ok(OpRow {
            takes: Rows::new(alloc),
            gives: Rows::new(alloc),
            reads: Some((i, INT)),
            writes: Some((i, AN_INT)),
        }),
        RowForm::Moves(stack_move) => stack_row(alloc, stack_move.takes(), stack_move.gives()),
        RowForm::Named => constant_row(alloc, p, pc, target, op),
    }
}

/// The row of an instruction of a method at a pc, with what its constant names.
pub fn row(
    alloc: Global,
    p: &Program,
    m: &MethodInfo,
    pc: u32,
    target: Target,
    op: &Op,
) -> Result<OpRow, AllocError>
    ensures { IfOk result (λ r. r ≡ row p.now m.now pc target op.now) }
{
    let form = form(m, op);
    formed_row(alloc, form, p, pc, target, op)
}

/// How many values an instruction takes from the stack, by the form of its row.
fn takes_by(form: RowForm, p: &Program, pc: u32, target: Target, op: &Op) -> usize
    ensures { result ≡ length (formed_row form p.now pc target op.now).takes }
{
    match form {
        RowForm::Leaves(takes) | RowForm::Makes(takes, _) => takes.count() as usize,
        RowForm::Loads(_, _) | RowForm::Adds(_) => 0,
        RowForm::Stores(_, _) => 1,
        RowForm::Moves(stack_move) => stack_move.count(),
        RowForm::Named => constant_takes(p, pc, target, op),
    }
}

/// How many values an instruction takes from the stack.
pub fn takes(p: &Program, m: &MethodInfo, pc: u32, target: Target, op: &Op) -> usize
    ensures { result ≡ length (row p.now m.now pc target op.now).takes }
{
    let form = form(m, op);
    takes_by(form, p, pc, target, op)
}
