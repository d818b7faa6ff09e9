//! The rule of marking that an instruction breaks by itself.

ghost use Rattle.std.specs.Prelude.{◌≡◌, length, slice_get, slice_index_or};
ghost use Rattle.checked_program.specs.FrozenPlaces.{locks_class, locks_this};
ghost use Rattle.checked_program.specs.Marks.{call_fault, class_of_field, class_of_method};
ghost use Rattle.checked_program.specs.OwnedArrays.{reads_owned};
ghost use Rattle.checked_program.specs.Marks.{element_fault, enter_fault, is_class_locking};
ghost use Rattle.checked_program.specs.Marks.{is_locking};
ghost use Rattle.checked_program.specs.Marks.{section_fault, use_fault};
ghost use Rattle.checked_program.specs.declared.section.FieldUse.TheVariants.{Open as open_use};
ghost use Rattle.guard_analysis.specs.Faults.{breaks_before, fault_at, node_breaks};

use crate::callees::flag_at;
use crate::calls::{is_own_class, is_own_object, receiver_tag};
use crate::tag_reading::stack_tag;
use checked_program::{FieldUse, Mode, TagFrame, Tags, Uses};
use jvm_types::flags::{is_static, is_synchronized};
use jvm_types::{MethodInfo, Op, Program, Rows, Target};

/// How a field may be read; open where there is no such field.
pub fn use_of(uses: &Rows<FieldUse>, field: u32) -> FieldUse
    ensures { result ≡ slice_index_or uses.now field open_use }
{
    let i = field as usize;
    if i >= uses.len() {
        return FieldUse::Open;
    }
    match uses.get(i) {
        Some(u) => *u,
        None => unreachable!(),
    }
}

/// Whether the frames of a method hold the monitor of their receiver (JVMS 2.11.10).
pub fn locks_this(m: &MethodInfo) -> bool
    ensures { result ≡ locks_this m.now }
{
    is_synchronized(m.flags) && !is_static(m.flags)
}

fn is_locking(p: &Program, u: u32) -> bool
    ensures { result ≡ is_locking (slice_get p.now.methods u) }
{
    match p.methods.get(u as usize) {
        Some(m) => locks_this(m),
        None => false,
    }
}

/// Whether the frames of a method hold the monitor of its class (JVMS 2.11.10).
pub fn locks_class(m: &MethodInfo) -> bool
    ensures { result ≡ locks_class m.now }
{
    is_synchronized(m.flags) && is_static(m.flags)
}

fn is_class_locking(p: &Program, u: u32) -> bool
    ensures { result ≡ is_class_locking (slice_get p.now.methods u) }
{
    match p.methods.get(u as usize) {
        Some(m) => locks_class(m),
        None => false,
    }
}

/// The class of a method; 0 where there is none.
fn class_of_method(p: &Program, u: u32) -> u16
    ensures { result ≡ class_of_method (slice_get p.now.methods u) }
{
    match p.methods.get(u as usize) {
        Some(m) => m.class,
        None => 0,
    }
}

/// The class of a field; 0 where there is none.
pub fn class_of_field(p: &Program, field: u32) -> u16
    ensures { result ≡ class_of_field (slice_get p.now.fields field) }
{
    match p.fields.get(field as usize) {
        Some(info) => info.class,
        None => 0,
    }
}

fn enter_fault(own: bool) -> u8
    ensures { result ≡ enter_fault own }
{
    if own { 0 } else { 3 }
}

fn call_fault(locking: bool, own: bool) -> u8
    ensures { result ≡ call_fault locking own }
{
    if locking { enter_fault(own) } else { 0 }
}

fn read_fault(field_use: FieldUse, own: bool) -> u8
    ensures { result ≡ use_fault field_use own }
{
    match field_use {
        FieldUse::Frozen => 0,
        FieldUse::Guarded => { if own { 0 } else { 5 } }
        FieldUse::Open => 5,
    }
}

/// Whether an instruction of a method reads an element of an array that `this` owns.
pub fn reads_owned(uses: &Uses, method: usize, i: usize) -> bool
    ensures { result ≡ reads_owned uses.now method i }
{
    match uses.elements.get(method) {
        Some(flags) => flag_at(flags.as_slice(), i),
        None => false,
    }
}

fn element_fault(mode: Mode, owned: bool) -> u8
    ensures { result ≡ element_fault mode owned }
{
    match mode {
        Mode::OnThis => { if owned { 0 } else { 5 } }
        _ => 5,
    }
}

/// The number of the rule that an instruction breaks in a method that a section runs so; 0 for
/// none. `owned` tells whether it reads an element of an array that `this` owns.
fn fault(
    p: &Program,
    uses: &Rows<FieldUse>,
    mode: Mode,
    op: &Op,
    target: Target,
    frame: &TagFrame,
    owned: bool,
) -> u8
    ensures { result ≡ section_fault p.now uses.now mode op.now target frame.now.stack owned }
{
    match op {
        Op::Putfield(_) => 1,
        Op::Putstatic(_) => 1,
        Op::Iastore => 1,
        Op::New(_) => 2,
        Op::Newarray => 2,
        Op::Monitorenter => enter_fault(is_own_object(mode, stack_tag(frame, 0))),
        Op::Invokevirtual(_) => match target {
            Target::Method(u) => call_fault(
                is_locking(p, u),
                is_own_object(mode, receiver_tag(p, op, target, frame)),
            ),
            Target::Println => 4,
            Target::Wait => 4,
            Target::Notify => 4,
            Target::NotifyAll => 4,
            _ => 0,
        },
        Op::Invokespecial(_) => match target {
            Target::Method(u) => call_fault(
                is_locking(p, u),
                is_own_object(mode, receiver_tag(p, op, target, frame)),
            ),
            _ => 0,
        },
        Op::Invokestatic(_) => match target {
            Target::Method(u) => call_fault(
                is_class_locking(p, u),
                is_own_class(mode, class_of_method(p, u)),
            ),
            _ => 0,
        },
        Op::Getstatic(_) => match target {
            Target::Field(f) => read_fault(
                use_of(uses, f),
                is_own_class(mode, class_of_field(p, f)),
            ),
            _ => 0,
        },
        Op::Iaload => element_fault(mode, owned),
        Op::Getfield(_) => match target {
            Target::Field(f) => read_fault(
                use_of(uses, f),
                is_own_object(mode, stack_tag(frame, 0)),
            ),
            _ => 0,
        },
        _ => 0,
    }
}

/// The same of the instruction of a number; 0 where it is not reached.
pub fn fault_at(
    p: &Program,
    uses: &Uses,
    method: usize,
    mode: Mode,
    m: &MethodInfo,
    tags: &Tags,
    i: usize,
) -> u8
    ensures { result ≡ fault_at p.now uses.now method i mode (slice_get m.now.code i)
        (slice_get m.now.targets i) (slice_get tags.now.frames i) }
{
    match m.code.get(i) {
        Some(insn) => match m.targets.get(i) {
            Some(target) => match tags.frames.get(i) {
                Some(Some(f)) => {
                    let owned = reads_owned(uses, method, i);
                    fault(p, &uses.fields, mode, &insn.op, *target, f, owned)
                }
                Some(None) => 0,
                None => 0,
            },
            None => 0,
        },
        None => 0,
    }
}

/// Whether some instruction of a method breaks a rule.
fn breaks(p: &Program, uses: &Uses, method: usize, mode: Mode, m: &MethodInfo, tags: &Tags) -> bool
    ensures { result
        ≡ breaks_before p.now uses.now method m.now tags.now.frames mode (length m.now.code) }
{
    let mut found = false;
    for i in 0..m.code.len() {
        let broken = fault_at(p, uses, method, mode, m, tags, i) > 0;
        found = found || broken;
    }
    found
}

/// Whether some instruction of the method of a number breaks a rule.
pub(crate) fn node_breaks(
    p: &Program,
    uses: &Uses,
    tags: &Rows<Tags>,
    method: usize,
    mode: Mode,
) -> bool
    ensures { result ≡ node_breaks p.now uses.now method (slice_get p.now.methods method)
        (slice_get tags.now method) mode }
{
    match p.methods.get(method) {
        Some(m) => match tags.get(method) {
            Some(t) => breaks(p, uses, method, mode, m, t),
            None => false,
        },
        None => false,
    }
}
