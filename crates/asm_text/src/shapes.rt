//! The operands of instructions, by their opcodes (JVMS 6.5).

ghost use Rattle.std.specs.Prelude.{◌≡◌, ◌&&◌, ◌∷◌, None};
ghost use Rattle.std.specs.Option.{option_map};
ghost use Rattle.jvm_types.specs.CodeTable.{form_of, first_row, plain_op, constants, loads};
ghost use Rattle.jvm_types.specs.CodeTable.{stores, arithmetic, control, references};
ghost use Rattle.asm_text.specs.Operands.{shape_of, shape_at, is_between, is_u1, is_u2, is_s1};
ghost use Rattle.asm_text.specs.Operands.{is_s2, is_s4, is_target, are_pairs, bounds_fit};
ghost use Rattle.asm_text.specs.Operands.{operands_fit};
ghost use Rattle.std.specs.List.{list_all};

use jvm_types::Op;

/// What operands an instruction has.
#[derive(Clone, Copy, Debug, PartialEq, Eq)]
pub enum Shape {
    Plain,
    Byte,
    Short,
    SignedByte,
    SignedShort,
    Branch,
    WideBranch,
    LocalAndStep,
    IntArray,
    Table,
    Lookup,
}

/// Of 0x00 to 0x13, which push a constant, those with operands.
fn constants(opcode: u8) -> Option<Shape>
    requires { plain_op (first_row (constants opcode)) ≡ None }
    ensures { result ≡ option_map shape_of (first_row (constants opcode)) }
{
    match opcode {
        0x10 => Some(Shape::SignedByte),
        0x11 => Some(Shape::SignedShort),
        0x12 => Some(Shape::Byte),
        0x13 => Some(Shape::Short),
        _ => None,
    }
}

/// Of 0x15 to 0x2e, which push a local or an element, those with operands.
fn loads(opcode: u8) -> Option<Shape>
    requires { plain_op (first_row (loads opcode)) ≡ None }
    ensures { result ≡ option_map shape_of (first_row (loads opcode)) }
{
    match opcode {
        0x15 | 0x19 => Some(Shape::Byte),
        _ => None,
    }
}

/// Of 0x36 to 0x4f, which write a local or an element, those with operands.
fn stores(opcode: u8) -> Option<Shape>
    requires { plain_op (first_row (stores opcode)) ≡ None }
    ensures { result ≡ option_map shape_of (first_row (stores opcode)) }
{
    match opcode {
        0x36 | 0x3a => Some(Shape::Byte),
        _ => None,
    }
}

/// Of 0x60 to 0x93, arithmetic on ints and conversions of an int, those with operands.
fn arithmetic(opcode: u8) -> Option<Shape>
    requires { plain_op (first_row (arithmetic opcode)) ≡ None }
    ensures { result ≡ option_map shape_of (first_row (arithmetic opcode)) }
{
    match opcode {
        0x84 => Some(Shape::LocalAndStep),
        _ => None,
    }
}

/// Of 0x99 to 0xb1, branches, switches and returns, those with operands.
fn control(opcode: u8) -> Option<Shape>
    requires { plain_op (first_row (control opcode)) ≡ None }
    ensures { result ≡ option_map shape_of (first_row (control opcode)) }
{
    match opcode {
        0x99..=0xa7 => Some(Shape::Branch),
        0xaa => Some(Shape::Table),
        0xab => Some(Shape::Lookup),
        _ => None,
    }
}

/// Of 0xb2 to 0xc8, fields, methods, objects, monitors, extended branches, those with operands.
fn references(opcode: u8) -> Option<Shape>
    requires { plain_op (first_row (references opcode)) ≡ None }
    ensures { result ≡ option_map shape_of (first_row (references opcode)) }
{
    match opcode {
        0xb2..=0xb8 | 0xbb => Some(Shape::Short),
        0xbc => Some(Shape::IntArray),
        0xc6 | 0xc7 => Some(Shape::Branch),
        0xc8 => Some(Shape::WideBranch),
        _ => None,
    }
}

/// The shape of the operands of an opcode that has some, or is none of this machine.
fn shape_with_operands(opcode: u8) -> Option<Shape>
    requires { plain_op (form_of opcode) ≡ None }
    ensures { result ≡ shape_at opcode }
{
    if opcode < 0x15 {
        constants(opcode)
    } else if opcode < 0x36 {
        loads(opcode)
    } else if opcode < 0x57 {
        stores(opcode)
    } else if opcode < 0x60 {
        None
    } else if opcode < 0x99 {
        arithmetic(opcode)
    } else if opcode < 0xb2 {
        control(opcode)
    } else {
        references(opcode)
    }
}

/// The operands of an opcode, or `None` where it is none of this machine.
pub fn shape_at(opcode: u8) -> Option<Shape>
    ensures { result ≡ shape_at opcode }
{
    match Op::plain(opcode) {
        Some(_) => Some(Shape::Plain),
        None => shape_with_operands(opcode),
    }
}

fn is_between(low: i64, end: i64, n: i64) -> bool
    ensures { result ≡ is_between low end n }
{
    !(n < low) && n < end
}

fn is_u1(n: i64) -> bool
    ensures { result ≡ is_u1 n }
{
    is_between(0, 256, n)
}

fn is_u2(n: i64) -> bool
    ensures { result ≡ is_u2 n }
{
    is_between(0, 65536, n)
}

fn is_s1(n: i64) -> bool
    ensures { result ≡ is_s1 n }
{
    is_between(-128, 128, n)
}

fn is_s2(n: i64) -> bool
    ensures { result ≡ is_s2 n }
{
    is_between(-32768, 32768, n)
}

fn is_s4(n: i64) -> bool
    ensures { result ≡ is_s4 n }
{
    is_between(-2147483648, 2147483648, n)
}

/// Whether a number has a field of 32 bits.
pub fn is_target(n: i64) -> bool
    ensures { result ≡ is_target n }
{
    is_between(0, 4294967296, n)
}

fn are_targets(targets: &[i64]) -> bool
    ensures { result ≡ list_all is_target targets.now }
{
    targets.iter().all(|to| is_target(*to))
}

fn bounds_fit(low: i64, rest: &[i64]) -> bool
    ensures { result ≡ bounds_fit (low ∷ rest.now) }
{
    match rest {
        [high, targets @ ..] => are_bounds(low, *high, targets),
        [] => false,
    }
}

/// Low, high and the targets of a `tableswitch`.
fn all_bounds_fit(bounds: &[i64]) -> bool
    ensures { result ≡ bounds_fit bounds.now }
{
    match bounds {
        [low, rest @ ..] => bounds_fit(*low, rest),
        [] => false,
    }
}

fn are_bounds(low: i64, high: i64, targets: &[i64]) -> bool
    ensures { result ≡ (is_s4 low && is_s4 high && list_all is_target targets.now) }
{
    let ends = is_s4(low) && is_s4(high);
    both(ends, are_targets(targets))
}

fn both(first: bool, second: bool) -> bool
    ensures { result ≡ (first && second) }
{
    first && second
}

/// Keys, each with its target.
fn are_pairs(pairs: &[i64]) -> bool
    ensures { result ≡ are_pairs pairs.now }
{
    let mut rest = pairs;
    while let [key, to, more @ ..] = rest {
        if !(is_s4(*key) && is_target(*to)) {
            return false;
        }
        rest = more;
    }
    rest.is_empty()
}

/// Whether these are operands of this shape, each in its field.
pub fn operands_fit(shape: Shape, operands: &[i64]) -> bool
    ensures { result ≡ operands_fit shape operands.now }
{
    match (shape, operands) {
        (Shape::Plain, []) => true,
        (Shape::Byte | Shape::IntArray, [n]) => is_u1(*n),
        (Shape::Short, [n]) => is_u2(*n),
        (Shape::SignedByte, [n]) => is_s1(*n),
        (Shape::SignedShort, [n]) => is_s2(*n),
        (Shape::Branch | Shape::WideBranch, [to]) => is_target(*to),
        (Shape::LocalAndStep, [local, step]) => is_u1(*local) && is_s1(*step),
        (Shape::Table, [otherwise, bounds @ ..]) => {
            is_target(*otherwise) && all_bounds_fit(bounds)
        }
        (Shape::Lookup, [otherwise, pairs @ ..]) => is_target(*otherwise) && are_pairs(pairs),
        _ => false,
    }
}
