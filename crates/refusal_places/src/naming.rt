//! The names of what a place is of, in its class.

ghost use Rattle.std.specs.Prelude.{◌≡◌, ◌++◌, ◌∷◌, [], Some, drop, OnOk, IfOk, option_map};
ghost use Rattle.std.specs.Prelude.{slice_get};
ghost use Rattle.std.specs.Fmt.{signed_decimal};
ghost use Rattle.std.specs.Option.{option_copied};
ghost use Rattle.jvm_types.specs.ClassNames.{text_at as the_text_at};
ghost use Rattle.jvm_types.specs.Linked.{code_of as the_code_of};
ghost use Rattle.refusal_places.specs.Naming.{at_field, at_instruction, at_method, at_row, at_use};
ghost use Rattle.refusal_places.specs.Naming.{catch_facts, catches_unknown as the_unknown};
ghost use Rattle.refusal_places.specs.Naming.{class_facts, has_wrong_descriptor as is_wrong_text};
ghost use Rattle.refusal_places.specs.Naming.{unknown_facts, use_facts};
ghost use Rattle.std.specs.List.{find};
ghost use Rattle.refusal_places.specs.Naming.{constant_facts, constant_words as the_constant_words};
ghost use Rattle.refusal_places.specs.Naming.{pool_entry_at as the_entry_at, field_fact};
ghost use Rattle.refusal_places.specs.Naming.{first_byte as the_first_byte};
ghost use Rattle.refusal_places.specs.Naming.{has_index as has_the_index, index_in as the_index_in};
ghost use Rattle.refusal_places.specs.Naming.{instruction_facts, line_facts, member_words};
ghost use Rattle.refusal_places.specs.Naming.{method_fact, pair_words, pc_facts, row_facts};
ghost use Rattle.refusal_places.specs.Naming.{source_facts, spot_facts, words_or_opcode};
ghost use Rattle.tellings.specs.declared.facts.Fact.TheVariants.{Text};

use crate::spots::Spot;
use constant_pools::pool_texts::{class_name, class_text_at, text_at};
use descriptors::{ClassNumbers, method_signature};
use jvm_types::code_attribute::code_of;
use jvm_types::{Attr, ClassFile, Constant, Handler, Member, MemberAttr, Rows};
use mnemonics::mnemonic;
use source_lines::{LineStart, first_index, line_start, source_name};
use std::alloc::{AllocError, Global};
use tellings::{Fact, Key, add_count, add_text};

// Name and descriptor, with a text between them.
fn write_pair(
    out: &mut Vec<u8>,
    pool: &Rows<Constant>,
    between: &[u8],
    member: u16,
) -> Result<(), AllocError>
    ensures { OnOk result (out.new.items
        ≡ out.old.items ++ pair_words pool.now between.now (slice_get pool.now member)) }
{
    let Some(Constant::NameAndType(name, descriptor)) = pool.get(usize::from(member)) else {
        return Ok(());
    };
    out.extend_from_slice(text_at(pool, *name))?;
    out.extend_from_slice(between)?;
    out.extend_from_slice(text_at(pool, *descriptor))
}

fn write_member(
    out: &mut Vec<u8>,
    pool: &Rows<Constant>,
    between: &[u8],
    class: u16,
    member: u16,
) -> Result<(), AllocError>
    ensures { OnOk result
        (out.new.items ≡ out.old.items ++ member_words pool.now between.now class member) }
{
    out.extend_from_slice(class_text_at(pool, class))?;
    out.extend_from_slice(b".")?;
    write_pair(out, pool, between, member)
}

fn write_name_and_type(
    out: &mut Vec<u8>,
    pool: &Rows<Constant>,
    between: &[u8],
    name: u16,
    descriptor: u16,
) -> Result<(), AllocError>
    ensures { OnOk result (out.new.items ≡ out.old.items
        ++ (the_text_at pool.now name ++ between.now ++ the_text_at pool.now descriptor)) }
{
    out.extend_from_slice(text_at(pool, name))?;
    out.extend_from_slice(between)?;
    out.extend_from_slice(text_at(pool, descriptor))
}

fn write_integer(out: &mut Vec<u8>, alloc: Global, number: i32) -> Result<(), AllocError>
    ensures { OnOk result (out.new.items ≡ out.old.items ++ signed_decimal number) }
{
    let mut digits = String::new(alloc);
    write!(digits, "{number}")?;
    out.extend_from_slice(digits.as_bytes())
}

// What an entry of the pool stands for.
#[tactic(auto, unfolding(crate::specs::Naming::constant_words))]
fn write_constant(
    out: &mut Vec<u8>,
    alloc: Global,
    pool: &Rows<Constant>,
    entry: &Constant,
) -> Result<(), AllocError>
    ensures { OnOk result (out.new.items ≡ out.old.items ++ the_constant_words pool.now entry.now) }
{
    match entry {
        Constant::Gap => out.extend_from_slice(b"no constant"),
        Constant::Utf8(_) => out.extend_from_slice(b"a text"),
        Constant::Integer(number) => write_integer(out, alloc, *number),
        Constant::Float(_) => out.extend_from_slice(b"a float"),
        Constant::Long(_) => out.extend_from_slice(b"a long"),
        Constant::Double(_) => out.extend_from_slice(b"a double"),
        Constant::Class(name) => out.extend_from_slice(text_at(pool, *name)),
        Constant::Text(_) => out.extend_from_slice(b"a string"),
        Constant::Field(class, member) => write_member(out, pool, b" ", *class, *member),
        Constant::Method(class, member) | Constant::InterfaceMethod(class, member) => {
            write_member(out, pool, b"", *class, *member)
        }
        Constant::NameAndType(name, descriptor) => {
            write_name_and_type(out, pool, b" ", *name, *descriptor)
        }
    }
}

fn tell_constant(
    facts: &mut Rows<Fact>,
    alloc: Global,
    pool: &Rows<Constant>,
    entry: Option<&Constant>,
) -> Result<(), AllocError>
    ensures { OnOk result
        (facts.new ≡ facts.old ++ constant_facts pool.now (option_copied entry.entry)) }
{
    let Some(entry) = entry else {
        return Ok(());
    };
    let mut words = Vec::new(alloc);
    write_constant(&mut words, alloc, pool, entry)?;
    add_text(facts, alloc, Key::Constant, words.as_slice())
}

// Whether the two bytes behind an opcode are an index.
fn has_index(opcode: u8) -> bool
    ensures { result ≡ has_the_index opcode }
{
    matches!(opcode, 0x13..=0x14 | 0xb2..=0xbb | 0xbd | 0xc0..=0xc1 | 0xc5)
}

pub fn first_byte(rest: &[u8]) -> Option<u16>
    ensures { result ≡ the_first_byte rest.now }
{
    match rest {
        [index, ..] => Some(u16::from(*index)),
        [] => None,
    }
}

// The index that an instruction has.
fn index_in(opcode: u8, rest: &[u8]) -> Option<u16>
    ensures { result ≡ the_index_in opcode rest.now }
{
    if opcode == 0x12 {
        first_byte(rest)
    } else if has_index(opcode) {
        first_index(rest)
    } else {
        None
    }
}

fn entry_at(pool: &Rows<Constant>, index: Option<u16>) -> Option<&Constant>
    ensures { option_copied result ≡ the_entry_at pool.now index }
{
    match index {
        Some(i) => pool.get(usize::from(i)),
        None => None,
    }
}

fn tell_opcode(
    facts: &mut Rows<Fact>,
    alloc: Global,
    opcode: u8,
    name: Option<&str>,
) -> Result<(), AllocError>
    ensures { OnOk result (facts.new ≡ facts.old
        ++ Text Key.InstructionOf (words_or_opcode opcode (option_copied name.entry))
        ∷ []) }
{
    match name {
        Some(name) => add_text(facts, alloc, Key::InstructionOf, name.as_bytes()),
        None => {
            let mut words = String::new(alloc);
            write!(words, "opcode {opcode}")?;
            add_text(facts, alloc, Key::InstructionOf, words.as_bytes())
        }
    }
}

// The instruction at the front of the bytes of a code.
#[tactic(auto, unfolding(crate::specs::Naming::instruction_facts))]
fn tell_instruction(
    facts: &mut Rows<Fact>,
    alloc: Global,
    pool: &Rows<Constant>,
    code: &[u8],
) -> Result<(), AllocError>
    ensures { OnOk result (facts.new ≡ facts.old ++ instruction_facts pool.now code.now) }
{
    let [opcode, rest @ ..] = code else {
        return Ok(());
    };
    tell_opcode(facts, alloc, *opcode, mnemonic(*opcode))?;
    tell_constant(facts, alloc, pool, entry_at(pool, index_in(*opcode, rest)))
}

fn tell_line(facts: &mut Rows<Fact>, start: Option<LineStart>) -> Result<(), AllocError>
    ensures { OnOk result (facts.new ≡ facts.old ++ line_facts start) }
{
    match start {
        Some(start) => add_count(facts, Key::Line, u64::from(start.line)),
        None => Ok(()),
    }
}

pub fn behind(pc: u32, bytes: &[u8]) -> &[u8]
    ensures { result.now ≡ drop pc bytes.now }
{
    let pc = pc as usize;
    if pc < bytes.len() { &bytes[pc..] } else { &[] }
}

pub fn code_bytes(attrs: &[MemberAttr]) -> &[u8]
    ensures { result.now ≡ (the_code_of attrs.now).bytes }
{
    match code_of(attrs) {
        Some(code) => code.bytes.as_slice(),
        None => &[],
    }
}

fn code_rows(attrs: &[MemberAttr]) -> &[Handler]
    ensures { result.now ≡ (the_code_of attrs.now).rows }
{
    match code_of(attrs) {
        Some(code) => code.rows.as_slice(),
        None => &[],
    }
}

fn row_at(attrs: &[MemberAttr], number: u32) -> Option<&Handler>
    ensures { option_copied result ≡ slice_get (the_code_of attrs.now).rows number }
{
    code_rows(attrs).get(number as usize)
}

fn code_attrs(attrs: &[MemberAttr]) -> &[Attr]
    ensures { result.now ≡ (the_code_of attrs.now).attrs }
{
    match code_of(attrs) {
        Some(code) => code.attrs.as_slice(),
        None => &[],
    }
}

// A pc: the instruction there, and the line of the source that it comes from.
fn tell_pc(
    facts: &mut Rows<Fact>,
    alloc: Global,
    pool: &Rows<Constant>,
    pc: u32,
    attrs: &[MemberAttr],
) -> Result<(), AllocError>
    ensures { OnOk result (facts.new ≡ facts.old ++ pc_facts pool.now pc (the_code_of attrs.now)) }
{
    add_count(facts, Key::PcOf, u64::from(pc))?;
    tell_instruction(facts, alloc, pool, behind(pc, code_bytes(attrs)))?;
    tell_line(facts, line_start(pool, pc, code_attrs(attrs)))
}

// The class that a handler row catches, where it doesn't catch all.
fn tell_catch(
    facts: &mut Rows<Fact>,
    alloc: Global,
    pool: &Rows<Constant>,
    row: &Handler,
) -> Result<(), AllocError>
    ensures { OnOk result (facts.new ≡ facts.old ++ catch_facts pool.now row.now) }
{
    if row.catch_type == 0 {
        return Ok(());
    }
    add_text(
        facts,
        alloc,
        Key::Catch,
        class_text_at(pool, row.catch_type),
    )
}

// Whether a row begins at a pc, and its class is not there.
fn catches_unknown(
    classes: &ClassNumbers<'_>,
    pool: &Rows<Constant>,
    pc: u32,
    row: &Handler,
) -> bool
    ensures { result ≡ the_unknown classes.now pool.now pc row.now }
{
    u32::from(row.start) == pc
        && row.catch_type != 0
        && classes
            .number(class_text_at(pool, row.catch_type))
            .is_none()
}

// The first such row.
fn unknown_row<'a>(
    classes: &ClassNumbers<'_>,
    pool: &Rows<Constant>,
    pc: u32,
    rows: &'a [Handler],
) -> Option<&'a Handler>
    ensures { option_copied result ≡ find (the_unknown classes.now pool.now pc) rows.now }
{
    for row in rows {
        if catches_unknown(classes, pool, pc, row) {
            return Some(row);
        }
    }
    None
}

fn tell_unknown(
    facts: &mut Rows<Fact>,
    alloc: Global,
    pool: &Rows<Constant>,
    row: Option<&Handler>,
) -> Result<(), AllocError>
    ensures { OnOk result
        (facts.new ≡ facts.old ++ unknown_facts pool.now (option_copied row.entry)) }
{
    match row {
        Some(row) => add_text(
            facts,
            alloc,
            Key::Catch,
            class_text_at(pool, row.catch_type),
        ),
        None => Ok(()),
    }
}

fn tell_row(
    facts: &mut Rows<Fact>,
    alloc: Global,
    pool: &Rows<Constant>,
    number: u32,
    row: Option<&Handler>,
) -> Result<(), AllocError>
    ensures { OnOk result
        (facts.new ≡ facts.old ++ row_facts pool.now number (option_copied row.entry)) }
{
    let Some(row) = row else {
        return Ok(());
    };
    add_count(facts, Key::RowOf, u64::from(number))?;
    add_count(facts, Key::From, u64::from(row.start))?;
    add_count(facts, Key::To, u64::from(row.end))?;
    add_count(facts, Key::Handler, u64::from(row.handler))?;
    tell_catch(facts, alloc, pool, row)
}

fn tell_method(
    facts: &mut Rows<Fact>,
    alloc: Global,
    pool: &Rows<Constant>,
    method: &Member,
) -> Result<(), AllocError>
    ensures { OnOk result (facts.new ≡ facts.old ++ method_fact pool.now method.now ∷ []) }
{
    let mut words = Vec::new(alloc);
    write_name_and_type(&mut words, pool, b"", method.name, method.descriptor)?;
    add_text(facts, alloc, Key::MethodOf, words.as_slice())
}

fn tell_field(
    facts: &mut Rows<Fact>,
    alloc: Global,
    pool: &Rows<Constant>,
    field: &Member,
) -> Result<(), AllocError>
    ensures { OnOk result (facts.new ≡ facts.old ++ field_fact pool.now field.now ∷ []) }
{
    let mut words = Vec::new(alloc);
    write_name_and_type(&mut words, pool, b" ", field.name, field.descriptor)?;
    add_text(facts, alloc, Key::FieldOf, words.as_slice())
}

fn tell_at_row(
    facts: &mut Rows<Fact>,
    alloc: Global,
    pool: &Rows<Constant>,
    number: u32,
    method: &Member,
) -> Result<(), AllocError>
    ensures { OnOk result (facts.new ≡ facts.old ++ at_row pool.now number (Some method.now)) }
{
    tell_method(facts, alloc, pool, method)?;
    tell_row(
        facts,
        alloc,
        pool,
        number,
        row_at(method.attrs.as_slice(), number),
    )
}

fn tell_at_instruction(
    facts: &mut Rows<Fact>,
    alloc: Global,
    pool: &Rows<Constant>,
    pc: u32,
    method: &Member,
) -> Result<(), AllocError>
    ensures { OnOk result (facts.new ≡ facts.old ++ at_instruction pool.now pc (Some method.now)) }
{
    tell_method(facts, alloc, pool, method)?;
    tell_pc(facts, alloc, pool, pc, method.attrs.as_slice())
}

// Whether a type in the descriptor of a method is not there.
fn has_wrong_descriptor(
    alloc: Global,
    classes: &ClassNumbers<'_>,
    pool: &Rows<Constant>,
    method: &Member,
) -> Result<bool, AllocError>
    ensures { IfOk result (λ wrong. wrong ≡ is_wrong_text classes.now pool.now method.now) }
{
    let signature = method_signature(alloc, classes, text_at(pool, method.descriptor))?;
    Ok(signature.is_none())
}

fn tell_use(
    facts: &mut Rows<Fact>,
    alloc: Global,
    classes: &ClassNumbers<'_>,
    pool: &Rows<Constant>,
    pc: u32,
    method: &Member,
) -> Result<(), AllocError>
    ensures { OnOk result
        (facts.new ≡ facts.old ++ use_facts classes.now pool.now pc method.now) }
{
    let is_wrong = has_wrong_descriptor(alloc, classes, pool, method)?;
    if pc == 0 && is_wrong {
        return Ok(());
    }
    let attrs = method.attrs.as_slice();
    tell_pc(facts, alloc, pool, pc, attrs)?;
    tell_unknown(
        facts,
        alloc,
        pool,
        unknown_row(classes, pool, pc, code_rows(attrs)),
    )
}

fn tell_at_use(
    facts: &mut Rows<Fact>,
    alloc: Global,
    classes: &ClassNumbers<'_>,
    pool: &Rows<Constant>,
    pc: u32,
    method: &Member,
) -> Result<(), AllocError>
    ensures { OnOk result
        (facts.new ≡ facts.old ++ at_use classes.now pool.now pc (Some method.now)) }
{
    tell_method(facts, alloc, pool, method)?;
    tell_use(facts, alloc, classes, pool, pc, method)
}

// What a place is of, where the class has it.
fn tell_spot(
    facts: &mut Rows<Fact>,
    alloc: Global,
    classes: &ClassNumbers<'_>,
    class: &ClassFile,
    spot: Spot,
) -> Result<(), AllocError>
    ensures { OnOk result (facts.new ≡ facts.old ++ spot_facts classes.now class.now spot) }
{
    let pool = &class.constants;
    match spot {
        Spot::Offset(at) => add_count(facts, Key::Offset, u64::from(at)),
        Spot::Whole => Ok(()),
        Spot::Field(number) => match class.fields.get(number as usize) {
            Some(field) => tell_field(facts, alloc, pool, field),
            None => Ok(()),
        },
        Spot::Method(method) => match class.methods.get(method) {
            Some(method) => tell_method(facts, alloc, pool, method),
            None => Ok(()),
        },
        Spot::Row(method, number) => match class.methods.get(usize::from(method)) {
            Some(method) => tell_at_row(facts, alloc, pool, number, method),
            None => Ok(()),
        },
        Spot::Instruction(method, pc) => match class.methods.get(usize::from(method)) {
            Some(method) => tell_at_instruction(facts, alloc, pool, pc, method),
            None => Ok(()),
        },
        Spot::Use(method, pc) => match class.methods.get(usize::from(method)) {
            Some(method) => tell_at_use(facts, alloc, classes, pool, pc, method),
            None => Ok(()),
        },
    }
}

fn tell_source(facts: &mut Rows<Fact>, alloc: Global, name: Option<&[u8]>) -> Result<(), AllocError>
    ensures { OnOk result
        (facts.new ≡ facts.old ++ source_facts (option_map (λ s. s.now) name.entry)) }
{
    match name {
        Some(name) => add_text(facts, alloc, Key::Source, name),
        None => Ok(()),
    }
}

/// Adds the class, the name of its source where it has that, and what the place is of, in a program
/// of these classes.
pub fn tell_class(
    facts: &mut Rows<Fact>,
    alloc: Global,
    classes: &ClassNumbers<'_>,
    class: &ClassFile,
    spot: Spot,
) -> Result<(), AllocError>
    ensures { OnOk result (facts.new ≡ facts.old ++ class_facts classes.now class.now spot) }
{
    add_text(facts, alloc, Key::ClassOf, class_name(class))?;
    let source = source_name(&class.constants, class.attrs.as_slice());
    tell_source(facts, alloc, source)?;
    tell_spot(facts, alloc, classes, class, spot)
}
