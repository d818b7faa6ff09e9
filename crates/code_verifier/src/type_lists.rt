//! Lists of types, as the locals of a frame or its stack.

ghost use Rattle.std.specs.Prelude.{◌≡◌, ◌<◌, ◌≤◌, not, if◌then◌else◌, length, slice_get, Some};
ghost use Rattle.std.specs.Prelude.{OnOk};
ghost use Rattle.std.specs.List.{list_any};
ghost use Rattle.jvm_types.specs.Types.{filled, is_uninitialised, is_new, same_type, all_pairs};
ghost use Rattle.jvm_types.specs.Types.{meet, meets};
ghost use Rattle.jvm_types.specs.Verifying.{initialised};
ghost use Rattle.jvm_types.specs.declared.typing.VType.TheVariants.{Ref};

use code_table::{is_new, is_uninitialised, meet, same_type};
use jvm_types::{Rows, Stack, TypeFrame, VType};
use std::alloc::AllocError;

pub fn some_uninitialised(types: &[VType]) -> bool
    ensures { result ≡ list_any is_uninitialised types.now }
{
    types.iter().any(|t| is_uninitialised(*t))
}

pub fn some_new(types: &[VType]) -> bool
    ensures { result ≡ list_any is_new types.now }
{
    types.iter().any(|t| is_new(*t))
}

/// Whether two lists have the same types, place by place.
pub fn same_types(types: &[VType], others: &[VType]) -> bool
    ensures { result ≡ all_pairs same_type types.now others.now }
{
    if types.len() != others.len() {
        return false;
    }
    for i in 0..types.len() {
        if !same_type(types[i], others[i]) {
            return false;
        }
    }
    true
}

/// Nothing is known of the places that are added up to this count.
pub fn fill(types: &mut Rows<VType>, count: usize) -> Result<(), AllocError>
    ensures { OnOk result (types.new ≡ filled count types.old) }
{
    for _place in types.len()..count {
        types.push(VType::Top)?;
    }
    Ok(())
}

fn type_at(types: &Rows<VType>, i: usize) -> VType
    requires { i < length types.now }
    ensures { slice_get types.now i ≡ Some result }
{
    match types.get(i) {
        Some(t) => *t,
        None => unreachable!(),
    }
}

fn type_on(stack: &Stack<VType>, place: usize) -> VType
    requires { place < length stack.now }
    ensures { slice_get stack.now place ≡ Some result }
{
    match stack.get(place) {
        Some(t) => *t,
        None => unreachable!(),
    }
}

fn type_of_local(f: &TypeFrame, i: usize) -> VType
    requires { i < length f.now.locals }
    ensures { slice_get f.now.locals i ≡ Some result }
{
    match f.local(i) {
        Some(t) => t,
        None => unreachable!(),
    }
}

fn type_in(types: &[VType], i: usize) -> VType
    requires { i < length types.now }
    ensures { slice_get types.now i ≡ Some result }
{
    types[i]
}

/// The type on the top of a stack.
pub fn first_type(stack: &Stack<VType>) -> VType
    requires { 0 < length stack.now }
    ensures { slice_get stack.now 0 ≡ Some result }
{
    type_on(stack, 0)
}

/// Whether a type stays as it is where it meets another.
pub fn type_stays(t: VType, other: VType) -> bool
    ensures { result ≡ same_type t (meet t other) }
{
    same_type(t, meet(t, other))
}

/// Whether some types stay as they are where they meet the first locals of a frame.
pub fn locals_stay(types: &[VType], other: &TypeFrame) -> bool
    requires { length types.now ≤ length other.now.locals }
    ensures { result ≡ all_pairs same_type types.now (meets types.now other.now.locals) }
{
    for i in 0..types.len() {
        if !type_stays(type_in(types, i), type_of_local(other, i)) {
            return false;
        }
    }
    true
}

/// A type where the object becomes one of the class.
fn started(object: VType, class: u16, t: VType) -> VType
    ensures { result ≡ (if same_type object t then Ref class else t) }
{
    if same_type(object, t) {
        VType::Ref(class)
    } else {
        t
    }
}

/// Every place that has the object gets an initialised one of the class.
pub fn initialise(types: &mut Rows<VType>, object: VType, class: u16)
    ensures { types.new ≡ initialised object class types.old }
{
    for i in 0..types.len() {
        let t = type_at(types, i);
        types.set(i, started(object, class, t));
    }
}

/// Every place that has the object gets an initialised one of the class.
pub fn initialise_stack(stack: &mut Stack<VType>, object: VType, class: u16)
    ensures { stack.new ≡ initialised object class stack.old }
{
    for place in 0..stack.len() {
        let t = type_on(stack, place);
        stack.set(place, started(object, class, t));
    }
}

/// Each place gets what it and its place in `others` have in common; answers whether that changed
/// one.
pub fn meet_stacks(stack: &mut Stack<VType>, others: &Stack<VType>) -> bool
    requires { length stack.old ≡ length others.now }
    ensures met { stack.new ≡ meets stack.old others.now }
    ensures told { result ≡ not (all_pairs same_type stack.old stack.new) }
{
    let mut changed = false;
    for place in 0..stack.len() {
        let t = type_on(stack, place);
        let least = meet(t, type_on(others, place));
        changed |= !same_type(t, least);
        stack.set(place, least);
    }
    changed
}

/// Each of some first locals gets what it and that of another frame have in common; answers whether
/// that changed one.
pub fn meet_locals(locals: &mut Rows<VType>, other: &TypeFrame) -> bool
    requires { length locals.old ≤ length other.now.locals }
    ensures met { locals.new ≡ meets locals.old other.now.locals }
    ensures told { result ≡ not (all_pairs same_type locals.old locals.new) }
{
    let mut changed = false;
    for i in 0..locals.len() {
        let t = type_at(locals, i);
        let least = meet(t, type_of_local(other, i));
        changed |= !same_type(t, least);
        locals.set(i, least);
    }
    changed
}
