//! The constant pool of a load.

ghost use Rattle.std.specs.Prelude.{◌≡◌, ◌≤◌, ◌<◌, ◌+◌, ◌*◌, [], ◌∷◌, ◌++◌, OnOk, IfOk};
ghost use Rattle.std.specs.List.{flat_map, range_with_len};
ghost use Rattle.jvm_types.specs.declared.class_file.Constant.TheVariants.{Utf8};
ghost use Rattle.load_classes.specs.LoadClass.{fixed_constants, name_index, adder_name};
ghost use Rattle.load_classes.specs.LoadClass.{adder_constants, load_constants};
ghost use Rattle.load_classes.specs.declared.limits.TheConstants.{MOST_METHODS};

use crate::limits::MOST_METHODS;
use jvm_types::{Bytes, Constant, Rows};
use std::alloc::{AllocError, Global};

/// Adds a text.
fn push_text(alloc: Global, pool: &mut Rows<Constant>, text: &[u8]) -> Result<(), AllocError>
    ensures { OnOk result (pool.new ≡ pool.old ++ Utf8 text.now ∷ []) }
{
    let bytes = Bytes::from_slice(alloc, text)?;
    pool.push(Constant::Utf8(bytes))
}

/// The entries that each load has.
fn fixed_constants(alloc: Global) -> Result<Rows<Constant>, AllocError>
    ensures { IfOk result (λ pool. pool ≡ fixed_constants) }
{
    let mut pool = Rows::new(alloc);
    pool.push(Constant::Gap)?;
    push_text(alloc, &mut pool, b"Load")?;
    pool.push(Constant::Class(1))?;
    push_text(alloc, &mut pool, b"java/lang/Object")?;
    pool.push(Constant::Class(3))?;
    push_text(alloc, &mut pool, b"a")?;
    push_text(alloc, &mut pool, b"I")?;
    push_text(alloc, &mut pool, b"b")?;
    push_text(alloc, &mut pool, b"p")?;
    push_text(alloc, &mut pool, b"LLoad;")?;
    push_text(alloc, &mut pool, b"<init>")?;
    push_text(alloc, &mut pool, b"()V")?;
    push_text(alloc, &mut pool, b"Code")?;
    push_text(alloc, &mut pool, b"(I)V")?;
    push_text(alloc, &mut pool, b"r")?;
    push_text(alloc, &mut pool, b"()I")?;
    push_text(alloc, &mut pool, b"g")?;
    push_text(alloc, &mut pool, b"init")?;
    push_text(alloc, &mut pool, b"run")?;
    push_text(alloc, &mut pool, b"done")?;
    pool.push(Constant::NameAndType(10, 11))?;
    pool.push(Constant::Method(4, 20))?;
    pool.push(Constant::Method(2, 20))?;
    pool.push(Constant::NameAndType(5, 6))?;
    pool.push(Constant::Field(2, 23))?;
    pool.push(Constant::NameAndType(7, 6))?;
    pool.push(Constant::Field(2, 25))?;
    pool.push(Constant::NameAndType(8, 9))?;
    pool.push(Constant::Field(2, 27))?;
    pool.push(Constant::NameAndType(14, 15))?;
    pool.push(Constant::Method(2, 29))?;
    pool.push(Constant::NameAndType(16, 15))?;
    pool.push(Constant::Method(2, 31))?;
    push_text(alloc, &mut pool, b"java/lang/System")?;
    pool.push(Constant::Class(33))?;
    push_text(alloc, &mut pool, b"out")?;
    push_text(alloc, &mut pool, b"Ljava/io/PrintStream;")?;
    pool.push(Constant::NameAndType(35, 36))?;
    pool.push(Constant::Field(34, 37))?;
    push_text(alloc, &mut pool, b"java/io/PrintStream")?;
    pool.push(Constant::Class(39))?;
    push_text(alloc, &mut pool, b"println")?;
    pool.push(Constant::NameAndType(41, 13))?;
    pool.push(Constant::Method(40, 42))?;
    Ok(pool)
}

/// The index of the name of a method that adds.
pub fn name_index(k: u32) -> u16
    requires { k < MOST_METHODS }
    ensures { result ≡ name_index k }
{
    (44 + 3 * k) as u16
}

/// The name of a method that adds.
fn adder_name(alloc: Global, k: u32) -> Result<Bytes, AllocError>
    requires { k < MOST_METHODS }
    ensures { IfOk result (λ name. name ≡ adder_name k) }
{
    let number = k + 1;
    let mut name = String::new(alloc);
    write!(name, "w{number}")?;
    Bytes::from_slice(alloc, name.as_bytes())
}

/// Adds what a method that adds is named by.
fn add_adder(alloc: Global, pool: &mut Rows<Constant>, k: u32) -> Result<(), AllocError>
    requires { k < MOST_METHODS }
    ensures { OnOk result (pool.new ≡ pool.old ++ adder_constants k) }
{
    let at = name_index(k);
    pool.push(Constant::Utf8(adder_name(alloc, k)?))?;
    pool.push(Constant::NameAndType(at, 13))?;
    pool.push(Constant::Method(2, at + 1))
}

/// The constant pool of a load.
pub fn load_constants(alloc: Global, size: u32) -> Result<Rows<Constant>, AllocError>
    requires { size ≤ MOST_METHODS }
    ensures { IfOk result (λ pool. pool ≡ load_constants size) }
{
    let mut pool = fixed_constants(alloc)?;
    add_adders(alloc, &mut pool, size)?;
    Ok(pool)
}

/// Adds what each method that adds is named by.
fn add_adders(alloc: Global, pool: &mut Rows<Constant>, size: u32) -> Result<(), AllocError>
    requires { size ≤ MOST_METHODS }
    ensures { OnOk result
        (pool.new ≡ pool.old ++ flat_map adder_constants (range_with_len 0 size)) }
{
    for k in 0..size {
        add_adder(alloc, pool, k)?;
    }
    Ok(())
}
