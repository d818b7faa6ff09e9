//! The fields and methods of a load.

ghost use Rattle.std.specs.Prelude.{◌≡◌, ◌≤◌, ◌<◌, ◌+◌, [], ◌∷◌, ◌++◌, length, OnOk, IfOk};
ghost use Rattle.std.specs.List.{flat_map, range_with_len};
ghost use Rattle.load_classes.specs.LoadClass.{
  method,
  constructor,
  adder_bytes,
  adder,
  adders,
  sum_reader,
  counter_reader,
  first_part,
  call_bytes,
  run_bytes,
  worker_part,
  last_part,
  load_methods,
  factors,
  field,
  load_fields,
};
ghost use Rattle.load_classes.specs.declared.limits.TheConstants.{MOST_METHODS};

use crate::constants::name_index;
use crate::factors::factors;
use crate::limits::MOST_METHODS;
use jvm_types::flags::{PRIVATE, STATIC, SYNCHRONIZED};
use jvm_types::{Bytes, Code, Member, MemberAttr, Rows};
use std::alloc::{AllocError, Global};

/// What names a method, and what its code takes.
#[derive(Clone, Copy)]
struct Head {
    flags: u16,
    name: u16,
    descriptor: u16,
    max_stack: u16,
    max_locals: u16,
}

/// The index of the text `Code`.
const CODE: u16 = 12;

/// A method without rows and further attributes.
fn method(alloc: Global, head: Head, bytes: Bytes) -> Result<Member, AllocError>
    ensures { IfOk result (λ it.
        it ≡ method head.flags head.name head.descriptor head.max_stack head.max_locals bytes) }
{
    let code = Code {
        max_stack: head.max_stack,
        max_locals: head.max_locals,
        bytes,
        rows: Rows::new(alloc),
        attrs: Rows::new(alloc),
        name: CODE,
    };
    let mut attrs = Rows::new(alloc);
    attrs.push(MemberAttr::Code(code))?;
    Ok(Member {
        flags: head.flags,
        name: head.name,
        descriptor: head.descriptor,
        attrs,
    })
}

/// The method with these bytes.
fn method_of(alloc: Global, head: Head, bytes: &[u8]) -> Result<Member, AllocError>
    ensures { IfOk result (λ it.
        it ≡ method head.flags head.name head.descriptor head.max_stack head.max_locals
        bytes.now) }
{
    let bytes = Bytes::from_slice(alloc, bytes)?;
    method(alloc, head, bytes)
}

fn constructor(alloc: Global) -> Result<Member, AllocError>
    ensures { IfOk result (λ it. it ≡ constructor) }
{
    let head = Head {
        flags: 0,
        name: 10,
        descriptor: 11,
        max_stack: 1,
        max_locals: 1,
    };
    method_of(alloc, head, &[42, 183, 0, 21, 177])
}

/// A method that adds, by its factor.
fn adder(alloc: Global, k: u32, factor: u8) -> Result<Member, AllocError>
    requires { k < MOST_METHODS }
    ensures { IfOk result (λ it. it ≡ adder k factor) }
{
    let head = Head {
        flags: SYNCHRONIZED,
        name: name_index(k),
        descriptor: 13,
        max_stack: 4,
        max_locals: 2,
    };
    let bytes = [
        42, 42, 180, 0, 24, 27, 16, factor, 104, 96, 181, 0, 24, 42, 42, 180, 0, 26, 27, 16,
        factor, 104, 100, 181, 0, 26, 177,
    ];
    method_of(alloc, head, &bytes)
}

/// Adds the methods that add.
fn push_adders(alloc: Global, methods: &mut Rows<Member>, factors: &[u8]) -> Result<(), AllocError>
    requires { length factors.now ≤ MOST_METHODS }
    ensures { OnOk result (methods.new ≡ methods.old ++ adders 0 factors.now) }
{
    let mut k = 0;
    for factor in factors {
        methods.push(adder(alloc, k, *factor)?)?;
        k += 1;
    }
    Ok(())
}

fn sum_reader(alloc: Global) -> Result<Member, AllocError>
    ensures { IfOk result (λ it. it ≡ sum_reader) }
{
    let head = Head {
        flags: SYNCHRONIZED,
        name: 14,
        descriptor: 15,
        max_stack: 2,
        max_locals: 1,
    };
    method_of(alloc, head, &[42, 180, 0, 24, 42, 180, 0, 26, 96, 172])
}

fn counter_reader(alloc: Global) -> Result<Member, AllocError>
    ensures { IfOk result (λ it. it ≡ counter_reader) }
{
    let head = Head {
        flags: SYNCHRONIZED,
        name: 16,
        descriptor: 15,
        max_stack: 1,
        max_locals: 1,
    };
    method_of(alloc, head, &[42, 180, 0, 24, 172])
}

fn first_part(alloc: Global) -> Result<Member, AllocError>
    ensures { IfOk result (λ it. it ≡ first_part) }
{
    let head = Head {
        flags: STATIC,
        name: 17,
        descriptor: 11,
        max_stack: 2,
        max_locals: 0,
    };
    method_of(alloc, head, &[187, 0, 2, 89, 183, 0, 22, 179, 0, 28, 177])
}

/// Adds a call of a method that adds, and what looks at the sum behind it.
fn push_call(bytes: &mut Bytes, k: u32) -> Result<(), AllocError>
    requires { k < MOST_METHODS }
    ensures { OnOk result (bytes.new ≡ bytes.old ++ call_bytes k) }
{
    let [high, low] = (name_index(k) + 2).to_be_bytes();
    bytes.extend_from_slice(&[178, 0, 28, 26, 182, high, low])?;
    bytes.extend_from_slice(&[
        178, 0, 28, 182, 0, 30, 153, 0, 10, 178, 0, 38, 4, 182, 0, 43,
    ])
}

/// The code of a worker.
fn run_bytes(alloc: Global, size: u32) -> Result<Bytes, AllocError>
    requires { size ≤ MOST_METHODS }
    ensures { IfOk result (λ it. it ≡ run_bytes size) }
{
    let mut bytes = Bytes::new(alloc);
    for k in 0..size {
        push_call(&mut bytes, k)?;
    }
    bytes.push(177)?;
    Ok(bytes)
}

fn worker_part(alloc: Global, size: u32) -> Result<Member, AllocError>
    requires { size ≤ MOST_METHODS }
    ensures { IfOk result (λ it. it ≡ worker_part size) }
{
    let head = Head {
        flags: STATIC,
        name: 18,
        descriptor: 13,
        max_stack: 2,
        max_locals: 1,
    };
    let bytes = run_bytes(alloc, size)?;
    method(alloc, head, bytes)
}

fn last_part(alloc: Global) -> Result<Member, AllocError>
    ensures { IfOk result (λ it. it ≡ last_part) }
{
    let head = Head {
        flags: STATIC,
        name: 19,
        descriptor: 11,
        max_stack: 2,
        max_locals: 0,
    };
    let bytes = [
        178, 0, 38, 178, 0, 28, 182, 0, 32, 182, 0, 43, 178, 0, 38, 178, 0, 28, 182, 0, 30, 182, 0,
        43, 177,
    ];
    method_of(alloc, head, &bytes)
}

/// The methods of a load.
pub fn load_methods(alloc: Global, size: u32, seed: u32) -> Result<Rows<Member>, AllocError>
    requires { size ≤ MOST_METHODS }
    ensures { IfOk result (λ it. it ≡ load_methods size seed) }
{
    let factors = factors(alloc, seed, size)?;
    let mut methods = Rows::new(alloc);
    methods.push(constructor(alloc)?)?;
    push_adders(alloc, &mut methods, factors.as_slice())?;
    methods.push(sum_reader(alloc)?)?;
    methods.push(counter_reader(alloc)?)?;
    methods.push(first_part(alloc)?)?;
    methods.push(worker_part(alloc, size)?)?;
    methods.push(last_part(alloc)?)?;
    Ok(methods)
}

/// A field without attributes.
fn field(alloc: Global, flags: u16, name: u16, descriptor: u16) -> Member
    ensures { result ≡ field flags name descriptor }
{
    Member {
        flags,
        name,
        descriptor,
        attrs: Rows::new(alloc),
    }
}

/// The fields of a load.
pub fn load_fields(alloc: Global) -> Result<Rows<Member>, AllocError>
    ensures { IfOk result (λ it. it ≡ load_fields) }
{
    let mut fields = Rows::new(alloc);
    fields.push(field(alloc, PRIVATE, 5, 6))?;
    fields.push(field(alloc, PRIVATE, 7, 6))?;
    fields.push(field(alloc, STATIC, 8, 9))?;
    Ok(fields)
}
