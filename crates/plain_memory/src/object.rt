//! One object.

ghost use Rattle.std.specs.Prelude.{◌≡◌, ◌<◌, ◌≤◌, ◌-◌, ◌^◌, true, [], length, replicate};
ghost use Rattle.std.specs.Prelude.{slice_get, slice_set, IfOk};
ghost use Rattle.machine_types.specs.PlainMemory.{first_value, has_value, header_of, object_end};
ghost use Rattle.machine_types.specs.PlainMemory.{value_in};

use crate::mixing::mixed;
use heap_words::header;
use jvm_types::Rows;
use jvm_types::class_numbers::INT_ARRAY_CLASS;
use std::alloc::{AllocError, Global};
use std::marker::Model;

/// An object, with the values of its fields in order, or with its elements. Places are given by
/// their numbers.
#[derive(Debug, Drop)]
pub struct Object {
    reference: u64,
    class: u16,
    values: Rows<u64>,
}

impl Model for Object {
    ghost use Rattle.std.specs.Prelude.{◌<◌, length};
    ghost use Rattle.machine_types.specs.PlainMemory.{Object as Plain};

    ghost Value = { Plain };

    ghost view = { λ o. record { reference = o.reference; class = o.class; values = o.values } };

    ghost invariant = { λ o. length o.values < 4294967296 };
}

impl Object {
    /// An object without values.
    pub fn bare(alloc: Global, reference: u64, class: u16) -> Object
        ensures { result ≡ record { reference = reference; class = class; values = [] } }
    {
        Object {
            reference,
            class,
            values: Rows::new(alloc),
        }
    }

    /// An object whose values are 0.
    pub fn zeroed(
        alloc: Global,
        reference: u64,
        class: u16,
        count: u32,
    ) -> Result<Object, AllocError>
        ensures { IfOk result
            (λ o. o ≡ record { reference = reference; class = class; values = replicate count 0 }) }
    {
        let values = vec![in alloc; 0u64; count as usize]?;
        Ok(Object {
            reference,
            class,
            values: Rows::from_vec(values),
        })
    }

    /// Its header: its class, and the length of an array.
    fn header(&self) -> u64
        ensures { result ≡ header_of self.now }
    {
        let length = if self.class == INT_ARRAY_CLASS {
            self.values.len() as u32
        } else {
            0
        };
        header(self.class, length)
    }

    /// The place of its first value.
    fn first_value(&self) -> u128
        ensures place { result ≡ first_value self.now }
        ensures fits { result < 2 ^ 65 }
    {
        self.reference as u128 + 2
    }

    /// Its reference.
    pub fn reference(&self) -> u64
        ensures { result ≡ self.now.reference }
    {
        self.reference
    }

    /// The place behind its last value.
    pub fn end(&self) -> u128
        ensures { result ≡ object_end self.now }
    {
        self.first_value() + self.values.len() as u128
    }

    /// Whether one of its values stands at a place.
    pub fn has_value(&self, place: u128) -> bool
        ensures { result ≡ has_value self.now place }
    {
        self.first_value() <= place && place < self.end()
    }

    /// The number of the value at a place where it has one.
    fn number_at(&self, place: u128) -> usize
        requires from { first_value self.now ≤ place }
        requires to { place < object_end self.now }
        ensures number { result ≡ place - first_value self.now }
        ensures within { result < length self.now.values }
    {
        // there are fewer values than a `u64` counts
        let _values = &self.values;
        (place - self.first_value()) as usize
    }

    /// What stands at a place: its header, or one of its values.
    pub fn value_in(&self, place: u128) -> Option<u64>
        ensures { result ≡ value_in self.now place }
    {
        if place == self.reference as u128 + 1 {
            return Some(self.header());
        }
        if !self.has_value(place) {
            return None;
        }
        self.values.get(self.number_at(place)).copied()
    }

    /// Puts a value at a place where it has one.
    pub fn write(&mut self, place: u128, value: u64)
        requires { has_value self.old place ≡ true }
        ensures { self.new ≡ record self.old
            { values = slice_set self.old.values (place - first_value self.old) value } }
    {
        let number = self.number_at(place);
        self.values.set(number, value);
    }

    /// The same object again.
    pub fn copy(&self, alloc: Global) -> Result<Object, AllocError>
        ensures { IfOk result (λ o. o ≡ self.now) }
    {
        Ok(Object {
            reference: self.reference,
            class: self.class,
            values: Rows::from_slice(alloc, self.values.as_slice())?,
        })
    }

    /// `true`: the other object is the same.
    pub fn is_same(&self, other: &Object) -> bool
        ensures { result ≡ true → self.now ≡ other.now }
    {
        self.reference == other.reference
            && self.class == other.class
            && self.values.as_slice() == other.values.as_slice()
    }

    /// A number by which equal objects are found, from the one of what comes before.
    pub fn mixed(&self, before: u64) -> u64 {
        let mut number = mixed(before, self.class as u64);
        for value in self.values.as_slice() {
            number = mixed(number, *value);
        }
        number
    }
}

/// The same objects again.
pub(crate) fn copy_objects(alloc: Global, objects: &[Object]) -> Result<Vec<Object>, AllocError>
    ensures { IfOk result (λ v. v.items ≡ objects.now) }
{
    let mut copies = Vec::with_capacity(alloc, objects.len())?;
    for o in objects {
        copies.push(o.copy(alloc)?)?;
    }
    Ok(copies)
}

/// `true`: the others are the same objects, in the same order.
pub(crate) fn are_same(a: &[Object], b: &[Object]) -> bool
    ensures { result ≡ true → a.now ≡ b.now }
{
    if a.len() != b.len() {
        return false;
    }
    for i in 0..a.len() {
        if !a[i].is_same(&b[i]) {
            return false;
        }
    }
    true
}
