//! Class files (JVMS 4.1, SE 6).

ghost use Rattle.std.specs.Prelude.{◌≡◌, ℕ, List, None, length, IfOk, IfErr, OnOk};
ghost use Rattle.jvm_types.specs.ClassGrammar.{Spells};
ghost use Rattle.jvm_types.specs.ReadingPool.{index_at};
ghost use Rattle.jvm_types.specs.ReadingClass.{class_at, class_fault, read_class};
ghost use Rattle.jvm_types.specs.declared.index_kind.IndexKind.TheVariants.{Class as OfClass};
ghost use Rattle.jvm_types.specs.declared.class_file.ClassFile.{ClassFile as Class};
ghost use Rattle.class_reader.specs.Giving.{Gives, IsFirstFault, IsMemory, class_index_at};

use crate::attributes::AttrStep;
use crate::indices::read_index;
use crate::items::{Stop, check, read_u2, read_u4};
use crate::list_reading::{Step, read_list};
use crate::members::{FieldStep, MethodStep};
use crate::pool_checks::read_constants;
use crate::read_error::ReadError;
use jvm_types::class_file::MAGIC;
use jvm_types::limits::{FIRST_VERSION, LAST_VERSION, MOST_FILE_BYTES};
use jvm_types::{Bytes, CRule, ClassFile, Constant, IndexKind, Rows};
use std::alloc::Global;

/// The index of an interface.
struct InterfaceStep;

impl Step for InterfaceStep {
    type Item = u16;

    ghost item_at = { class_index_at };

    fn read<'a>(
        _alloc: Global,
        pool: &Rows<Constant>,
        bytes: &'a [u8],
    ) -> Result<(u16, &'a [u8]), Stop> {
        read_index(IndexKind::Class, pool, bytes)
    }
}

/// The class at the front of the bytes, and the bytes after it.
#[tactic(auto, unfolding(jvm_types::specs::ReadingClass::class_at))]
fn read_front(alloc: Global, bytes: &[u8]) -> Result<(ClassFile, &[u8]), Stop>
    ensures { Gives (λ x. (x.0, x.1.now)) result (class_at bytes.now) }
{
    let (magic, rest) = read_u4(bytes)?;
    check(magic == MAGIC, CRule::C1, bytes.len())?;
    let (minor, at_major) = read_u2(rest)?;
    let (major, rest) = read_u2(at_major)?;
    check(
        FIRST_VERSION <= major && major <= LAST_VERSION,
        CRule::C2,
        at_major.len(),
    )?;
    let (constants, rest) = read_constants(alloc, rest)?;
    let (flags, rest) = read_u2(rest)?;
    let (this_class, rest) = read_index(IndexKind::Class, &constants, rest)?;
    let (super_class, rest) = read_index(IndexKind::Class, &constants, rest)?;
    let (interfaces, rest) = read_list::<InterfaceStep>(alloc, &constants, rest)?;
    let (fields, rest) = read_list::<FieldStep>(alloc, &constants, rest)?;
    let (methods, rest) = read_list::<MethodStep>(alloc, &constants, rest)?;
    let (attrs, rest) = read_list::<AttrStep>(alloc, &constants, rest)?;
    let class = ClassFile {
        minor,
        major,
        constants,
        flags,
        this_class,
        super_class,
        interfaces,
        fields,
        methods,
        attrs,
    };
    Ok((class, rest))
}

/// The class that takes all of the bytes.
#[tactic(auto, unfolding(jvm_types::specs::ReadingClass::read_class, jvm_types::specs::ReadingSteps::whole))]
fn read_whole(alloc: Global, bytes: &[u8]) -> Result<ClassFile, Stop>
    ensures { Gives (λ x. x) result (read_class bytes.now) }
{
    if bytes.len() > MOST_FILE_BYTES {
        return Err(Stop::At(CRule::C10, bytes.len() - MOST_FILE_BYTES));
    }
    let (class, rest) = read_front(alloc, bytes)?;
    match rest {
        [] => Ok(class),
        [_, ..] => Err(Stop::At(CRule::C8, rest.len())),
    }
}

/// The class that the bytes spell, or why there is none.
fn read_bytes(alloc: Global, bytes: &[u8]) -> Result<ClassFile, ReadError>
    ensures ok { IfOk result (λ c. Spells bytes.now c) }
    ensures only { (c : Class) → Spells bytes.now c → IfOk result (λ found. found ≡ c) }
    ensures spelled { (c : Class) → Spells bytes.now c → IfErr result (λ e. IsMemory e) }
    ensures refused { IfErr result (λ e. IsFirstFault bytes.now e) }
    ensures faultless { OnOk result (class_fault bytes.now ≡ None) }
{
    match read_whole(alloc, bytes) {
        Ok(class) => Ok(class),
        Err(Stop::Memory) => Err(ReadError::Memory),
        Err(Stop::At(rule, left)) => Err(ReadError::Refused(rule, (bytes.len() - left) as u32)),
    }
}

/// The class that the bytes spell (JVMS 4.1, SE 6), or the first condition that refuses the file,
/// by its rule and its offset in bytes.
pub fn read_class(alloc: Global, bytes: &Bytes) -> Result<ClassFile, ReadError>
    // What is answered is spelled by the bytes, each of them.
    ensures ok { IfOk result (λ c. Spells bytes.now c) }
    // Bytes that spell a class are answered with it, unless memory runs out.
    ensures only { (c : Class) → Spells bytes.now c → IfOk result (λ found. found ≡ c) }
    ensures spelled { (c : Class) → Spells bytes.now c → IfErr result (λ e. IsMemory e) }
    // A refusal names the first condition that stands, and its place.
    ensures refused { IfErr result (λ e. IsFirstFault bytes.now e) }
    // No condition stands where a class is answered.
    ensures faultless { OnOk result (class_fault bytes.now ≡ None) }
{
    read_bytes(alloc, bytes.as_slice())
}
