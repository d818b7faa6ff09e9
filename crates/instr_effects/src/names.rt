//! What the constant of an instruction names.

ghost use Rattle.std.specs.Prelude.{◌≡◌, Some};
ghost use Rattle.jvm_types.specs.ProgramInvariant.{IsProgram};
ghost use Rattle.jvm_types.specs.declared.program.Target.TheVariants as targets;
ghost use Rattle.machine_types.specs.Effects.{kept, variable_of, gets_static, puts_static, gets};
ghost use Rattle.machine_types.specs.Effects.{puts, calls_on, calls_instance, calls_static};
ghost use Rattle.machine_types.specs.Effects.{makes_array, named};

use crate::before::unless_null;
use crate::ints::{int_of, low, word_of};
use heap_words::{array_size, header, object_size, out_object};
use jvm_types::class_numbers::INT_ARRAY_CLASS;
use jvm_types::flags::is_static;
use jvm_types::{FieldInfo, Kind, MethodInfo, Op, Program, Target, Thrown};
use machine_types::{Effect, Variable};

/// The variable of a field, of an object where it is no static one.
#[inline(always)]
pub fn variable_of(field: &FieldInfo, reference: u64) -> Variable
    ensures { result ≡ variable_of field.now reference }
{
    if is_static(field.flags) {
        Variable::Static(field.index)
    } else {
        Variable::Instance(reference, field.index)
    }
}

/// A field of type Z keeps the low bit.
#[inline(always)]
pub fn kept(kind: Kind, value: u64) -> u64
    ensures { result ≡ kept kind value }
{
    match kind {
        Kind::Bool => value % 2,
        _ => value,
    }
}

#[inline(always)]
fn put_static(field: &FieldInfo, stack: &[u64]) -> Effect
    ensures { result ≡ puts_static (Some field.now) stack.now }
{
    match stack {
        [value, ..] => Effect::Writes(variable_of(field, 0), kept(field.kind, *value)),
        [] => Effect::Stuck,
    }
}

#[inline(always)]
fn get(field: &FieldInfo, stack: &[u64]) -> Effect
    ensures { result ≡ gets (Some field.now) stack.now }
{
    match stack {
        [a, ..] => unless_null(*a, Effect::Reads(variable_of(field, *a))),
        [] => Effect::Stuck,
    }
}

#[inline(always)]
fn put(field: &FieldInfo, stack: &[u64]) -> Effect
    ensures { result ≡ puts (Some field.now) stack.now }
{
    match stack {
        [value, a, ..] => unless_null(
            *a,
            Effect::Writes(variable_of(field, *a), kept(field.kind, *value)),
        ),
        _ => Effect::Stuck,
    }
}

/// The instructions that name a field.
#[inline(always)]
fn with_field(p: &Program, next: u32, number: u32, op: &Op, stack: &[u64]) -> Effect
    ensures { result ≡ named p.now next (targets.Field number) op.now stack.now }
{
    match p.fields.get(number as usize) {
        Some(field) => match op {
            Op::Getstatic(_) => Effect::Reads(variable_of(field, 0)),
            Op::Putstatic(_) => put_static(field, stack),
            Op::Getfield(_) => get(field, stack),
            Op::Putfield(_) => put(field, stack),
            _ => Effect::Stuck,
        },
        None => Effect::Stuck,
    }
}

/// A call of a method with a receiver, which stands below the arguments.
#[inline(always)]
fn call_instance(called: &MethodInfo, number: u32, stack: &[u64]) -> Effect
    ensures { result ≡ calls_instance (Some called.now) number stack.now }
{
    match stack.get(called.args.len()) {
        Some(receiver) => unless_null(*receiver, Effect::Calls(number)),
        None => Effect::Stuck,
    }
}

#[inline(always)]
fn call_static(called: &MethodInfo, number: u32, stack: &[u64]) -> Effect
    ensures { result ≡ calls_static (Some called.now) number stack.now }
{
    if stack.len() < called.args.len() {
        Effect::Stuck
    } else {
        Effect::Calls(number)
    }
}

/// The instructions that name a method of the program.
#[inline(always)]
pub fn with_method(p: &Program, next: u32, number: u32, op: &Op, stack: &[u64]) -> Effect
    ensures { result ≡ named p.now next (targets.Method number) op.now stack.now }
{
    match p.methods.get(number as usize) {
        Some(called) => match op {
            Op::Invokevirtual(_) | Op::Invokespecial(_) => call_instance(called, number, stack),
            Op::Invokestatic(_) => call_static(called, number, stack),
            _ => Effect::Stuck,
        },
        None => Effect::Stuck,
    }
}

/// `newarray`: an array longer than the number of heap words is not tried.
pub fn makes_array(p: &Program, count: u64) -> Effect
    requires { IsProgram p.now }
    ensures { result ≡ makes_array p.now count }
{
    let length = low(count) as u32;
    if int_of(count) < 0 {
        Effect::Throws(Thrown::NegativeArraySizeException)
    } else if p.heap < length {
        Effect::Throws(Thrown::OutOfMemoryError)
    } else {
        Effect::Makes(header(INT_ARRAY_CLASS, length), array_size(length) as u64)
    }
}

/// The effect of an instruction with a constant.
pub fn named(p: &Program, next: u32, target: Target, op: &Op, stack: &[u64]) -> Effect
    requires { IsProgram p.now }
    ensures { result ≡ named p.now next target op.now stack.now }
{
    match target {
        Target::Nothing => Effect::Stuck,
        Target::Value(n) => Effect::Goes(next, word_of(n)),
        Target::Class(class) => Effect::Makes(header(class, 0), object_size(p, class) as u64),
        Target::Field(number) => with_field(p, next, number, op, stack),
        Target::Method(number) => with_method(p, next, number, op, stack),
        Target::Out => Effect::Goes(next, out_object() as u64),
        Target::Println => match stack {
            [value, a, ..] => unless_null(*a, Effect::Prints(*value)),
            _ => Effect::Stuck,
        },
        Target::Init(_) => match stack {
            [_, ..] => Effect::Goes(next, 0),
            [] => Effect::Stuck,
        },
        Target::Wait => match stack {
            [a, ..] => unless_null(*a, Effect::Waits(*a)),
            [] => Effect::Stuck,
        },
        Target::Notify => match stack {
            [a, ..] => unless_null(*a, Effect::Notifies(*a)),
            [] => Effect::Stuck,
        },
        Target::NotifyAll => match stack {
            [a, ..] => unless_null(*a, Effect::NotifiesAll(*a)),
            [] => Effect::Stuck,
        },
    }
}
