//! The object that has a place: by halves where the objects are known to lie apart, and one after
//! the other where not.

ghost use Rattle.std.specs.Prelude.{◌≡◌, true, position};
ghost use Rattle.machine_types.specs.PlainMemory.{has_value, object_value, object_write};
ghost use Rattle.plain_memory.specs.Order.{AreInOrder, IsOnlyOne, ObjectsLieApart};

use crate::object::Object;

/// Whether each object ends at or before the next one's reference, and the last one before a
/// number.
#[tactic(auto, using(crate::proofs::OrderLaws::taken_in_order, crate::proofs::OrderLaws::none_in_order, crate::proofs::OrderLaws::number_rises))]
pub fn are_in_order(objects: &[Object], next: u64) -> bool
    ensures { result ≡ true → AreInOrder objects.now next }
{
    let mut end = 0;
    for o in objects {
        if (o.reference() as u128) < end {
            return false;
        }
        end = o.end();
    }
    end <= next as u128
}

/// The number of the only object that may have a place.
fn number_of(objects: &[Object], place: u128) -> usize
    requires { ObjectsLieApart objects.now }
    ensures { IsOnlyOne objects.now place result }
{
    objects.partition_point(|o| o.end() <= place)
}

/// What stands at a place, where the objects lie apart.
fn value_apart(objects: &[Object], place: u128) -> Option<u64>
    requires { ObjectsLieApart objects.now }
    ensures { result ≡ object_value objects.now place }
{
    match objects.get(number_of(objects, place)) {
        Some(o) => o.value_in(place),
        None => None,
    }
}

/// What stands at a place, by the first object that has it.
fn value_in_turn(objects: &[Object], place: u128) -> Option<u64>
    ensures { result ≡ object_value objects.now place }
{
    for o in objects {
        let value = o.value_in(place);
        if value.is_some() {
            return value;
        }
    }
    None
}

/// What stands at a place, by the first object that has it.
pub fn object_value(objects: &[Object], apart: bool, place: u128) -> Option<u64>
    requires { apart ≡ true → ObjectsLieApart objects.now }
    ensures { result ≡ object_value objects.now place }
{
    if apart {
        value_apart(objects, place)
    } else {
        value_in_turn(objects, place)
    }
}

/// The number of the object that has a value at a place, where the objects lie apart.
fn number_apart(objects: &[Object], place: u128) -> Option<usize>
    requires { ObjectsLieApart objects.now }
    ensures { result ≡ position (λ o. has_value o place) objects.now }
{
    let number = number_of(objects, place);
    match objects.get(number) {
        Some(o) => {
            if o.has_value(place) {
                Some(number)
            } else {
                None
            }
        }
        None => None,
    }
}

/// The number of the first object that has a value at a place.
fn object_at(objects: &[Object], apart: bool, place: u128) -> Option<usize>
    requires { apart ≡ true → ObjectsLieApart objects.now }
    ensures { result ≡ position (λ o. has_value o place) objects.now }
{
    if apart {
        number_apart(objects, place)
    } else {
        objects.iter().position(|o| o.has_value(place))
    }
}

/// Puts a value at a place of the first object that has it.
#[tactic(auto, using(crate::proofs::FirstOnes::object_found, crate::proofs::FirstOnes::object_has))]
pub fn write_object(objects: &mut Vec<Object>, apart: bool, place: u128, value: u64)
    requires { apart ≡ true → ObjectsLieApart objects.old.items }
    ensures { objects.new.items ≡ object_write objects.old.items place value }
{
    match object_at(objects.as_slice(), apart, place) {
        Some(i) => objects[i].write(place, value),
        None => (),
    }
}
