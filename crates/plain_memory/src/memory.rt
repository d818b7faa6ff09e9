//! All objects and all static fields.

ghost use Rattle.std.specs.Prelude.{◌≡◌, ◌==◌, ◌<◌, ◌^◌, ◌+◌, ◌++◌, ◌∷◌, [], ◌-◌, nat_le, position};
ghost use Rattle.std.specs.Prelude.{true, false, IfOk, OnOk, OnErr, OnSome, MatchOption};
ghost use Rattle.std.specs.Option.{option_or};
ghost use Rattle.jvm_types.specs.ProgramInvariant.{IsProgram};
ghost use Rattle.plain_memory.specs.Memories.{start_memory};
ghost use Rattle.machine_types.specs.PlainMemory.{has_value, new_object, object_value};
ghost use Rattle.machine_types.specs.PlainMemory.{object_write, static_value, static_write};

use crate::finding::{are_in_order, object_value, write_object};
use crate::mixing::mixed;
use crate::object::{Object, are_same, copy_objects};
use crate::start::{start_objects, start_statics, words_of};
use heap_words::header_class;
use jvm_types::Program;
use jvm_types::fixed_words::OBJECT_HEAD_WORDS;
use std::alloc::{AllocError, Global};
use std::marker::Model;

/// A static field, by its word.
#[derive(Debug, Drop)]
pub struct StaticValue {
    pub word: u32,
    pub value: u64,
}

impl Model for StaticValue {
    ghost use Rattle.machine_types.specs.PlainMemory.{StaticValue as Plain};

    ghost Value = { Plain };

    ghost view = { λ s. record { word = s.word; value = s.value } };
}

impl StaticValue {
    pub fn of(word: u32, value: u64) -> StaticValue
        ensures { result ≡ record { word = word; value = value } }
    {
        StaticValue { word, value }
    }

    fn write(&mut self, value: u64)
        ensures { self.new ≡ record self.old { value = value } }
    {
        self.value = value;
    }

    /// `true`: the other field is the same, with the same value.
    fn is_same(&self, other: &StaticValue) -> bool
        ensures { result ≡ true → self.now ≡ other.now }
    {
        self.word == other.word && self.value == other.value
    }
}

/// The same static fields again.
fn copy_statics(alloc: Global, statics: &[StaticValue]) -> Result<Vec<StaticValue>, AllocError>
    ensures { IfOk result (λ v. v.items ≡ statics.now) }
{
    let mut copies = Vec::with_capacity(alloc, statics.len())?;
    for s in statics {
        copies.push(StaticValue::of(s.word, s.value))?;
    }
    Ok(copies)
}

/// `true`: the others are the same static fields, in the same order.
fn are_same_statics(a: &[StaticValue], b: &[StaticValue]) -> bool
    ensures { result ≡ true → a.now ≡ b.now }
{
    if a.len() != b.len() {
        return false;
    }
    for i in 0..a.len() {
        if !a[i].is_same(&b[i]) {
            return false;
        }
    }
    true
}

/// What a static field holds.
fn static_value(statics: &[StaticValue], place: u128) -> Option<u64>
    ensures { result ≡ static_value statics.now place }
{
    for s in statics {
        if s.word as u128 == place {
            return Some(s.value);
        }
    }
    None
}

/// The number of the static field at a place.
fn static_at(statics: &[StaticValue], place: u128) -> Option<usize>
    ensures { result ≡ position (λ s. s.word == place) statics.now }
{
    statics.iter().position(|s| s.word as u128 == place)
}

/// Puts a value into the static field at a place.
#[tactic(auto, using(crate::proofs::FirstOnes::static_found))]
fn write_static(statics: &mut Vec<StaticValue>, place: u128, value: u64)
    ensures { statics.new.items ≡ static_write statics.old.items place value }
{
    match static_at(statics.as_slice(), place) {
        Some(i) => statics[i].write(value),
        None => (),
    }
}

/// The memory: its objects, its static fields, and the number for the next reference.
///
/// A call that answers an error has changed nothing.
#[derive(Debug, Drop)]
pub struct Memory {
    objects: Vec<Object>,
    statics: Vec<StaticValue>,
    next: u64,
    /// Whether the objects are known to lie apart and before the next reference, so that a place is
    /// found by halves.
    in_order: bool,
}

impl Model for Memory {
    ghost use Rattle.plain_memory.specs.Memories.{Memory as Whole};

    ghost Value = { Whole };

    ghost view = { λ m. record { objects = m.objects.items; statics = m.statics.items; next = m.next } };

    ghost use Rattle.std.specs.Prelude.{◌≡◌, true};
    ghost use Rattle.plain_memory.specs.Order.{AreInOrder};

    ghost invariant = { λ m. m.in_order ≡ true → AreInOrder m.objects.items m.next };
}

impl Memory {
    /// The memory at the start: the ready objects and the classes themselves, and each static field
    /// with its first value.
    pub fn start(alloc: Global, p: &Program) -> Result<Memory, AllocError>
        requires { IsProgram p.now }
        ensures { IfOk result (λ m. m ≡ start_memory p.now) }
    {
        let objects = start_objects(alloc, p)?;
        let next = words_of(p) as u64;
        let in_order = are_in_order(objects.as_slice(), next);
        Ok(Memory {
            objects,
            statics: start_statics(alloc, p.fields.as_slice())?,
            next,
            in_order,
        })
    }

    /// What stands at a place: a header, the value of a field or of an element, or `None` where
    /// nothing stands.
    pub fn value_at(&self, place: u128) -> Option<u64>
        ensures { result ≡ option_or (object_value self.now.objects place)
            (static_value self.now.statics place) }
    {
        let value = object_value(self.objects.as_slice(), self.in_order, place);
        if value.is_some() {
            return value;
        }
        static_value(self.statics.as_slice(), place)
    }

    /// Puts a value at a place; nothing changes where nothing stands there.
    pub fn write(&mut self, place: u128, value: u64)
        ensures { self.new
            ≡ record self.old {
              objects = object_write self.old.objects place value;
              statics = static_write self.old.statics place value;
            } }
    {
        write_object(&mut self.objects, self.in_order, place, value);
        write_static(&mut self.statics, place, value);
    }

    /// The number for the next reference.
    pub fn next(&self) -> u64
        ensures { result ≡ self.now.next }
    {
        self.next
    }

    /// The number for the next reference behind an object of so many words.
    pub fn next_behind(&self, size: u64) -> u64
        requires { self.now.next + size < 2 ^ 64 }
        ensures { result ≡ self.now.next + size }
    {
        self.next + size
    }

    /// The number for the next reference becomes this one.
    pub fn pass(&mut self, next: u64)
        ensures { self.new ≡ record self.old { next = next } }
    {
        self.in_order = self.in_order && self.next <= next;
        self.next = next;
    }

    /// Adds a new object of the class that a header names, whose words end at `next`.
    pub fn add(
        &mut self,
        alloc: Global,
        header: u64,
        size: u32,
        next: u64,
    ) -> Result<(), AllocError>
        ensures ok { OnOk result (self.new
            ≡ record self.old {
              objects =
                  self.old.objects ++ new_object self.old.next header size ∷ [];
              next = next;
            }) }
        ensures err { OnErr result (self.new ≡ self.old) }
    {
        let object = Object::zeroed(
            alloc,
            self.next,
            header_class(header),
            size.saturating_sub(OBJECT_HEAD_WORDS),
        )?;
        let in_order = self.in_order && object.end() <= next as u128;
        self.objects.push(object)?;
        self.in_order = in_order;
        self.next = next;
        Ok(())
    }

    /// The same memory again.
    pub fn copy(&self, alloc: Global) -> Result<Memory, AllocError>
        ensures { IfOk result (λ m. m ≡ self.now) }
    {
        Ok(Memory {
            objects: copy_objects(alloc, self.objects.as_slice())?,
            statics: copy_statics(alloc, self.statics.as_slice())?,
            next: self.next,
            in_order: self.in_order,
        })
    }

    /// `true`: the other memory is the same.
    pub fn is_same(&self, other: &Memory) -> bool
        ensures { result ≡ true → self.now ≡ other.now }
    {
        self.next == other.next
            && are_same(self.objects.as_slice(), other.objects.as_slice())
            && are_same_statics(self.statics.as_slice(), other.statics.as_slice())
    }

    /// A number by which equal memories are found, from the one of what comes before.
    pub fn mixed(&self, before: u64) -> u64 {
        let mut number = mixed(before, self.next);
        for object in self.objects.as_slice() {
            number = object.mixed(number);
        }
        for field in self.statics.as_slice() {
            number = mixed(number, field.value);
        }
        number
    }
}
