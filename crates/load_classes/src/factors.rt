//! The factors of a load, from its seed.

ghost use Rattle.std.specs.Prelude.{◌≡◌, ◌/◌, ◌%◌, IfOk};
ghost use Rattle.load_classes.specs.LoadClass.{next_number, factors};

use std::alloc::{AllocError, Global};

/// The number behind this one: a linear congruential generator modulo 2^32.
fn next_number(x: u32) -> u32
    ensures { result ≡ next_number x }
{
    ((1_664_525 * x as u64 + 1_013_904_223) % 4_294_967_296) as u32
}

/// A factor below 100 from the upper half of a number.
fn factor(x: u32) -> u8
    ensures { result ≡ (x / 65536) % 100 }
{
    (x / 65_536 % 100) as u8
}

/// As many factors as the size says, each below 100.
pub fn factors(alloc: Global, seed: u32, size: u32) -> Result<Vec<u8>, AllocError>
    ensures { IfOk result (λ it. it.items ≡ factors seed size) }
{
    let mut made = Vec::with_capacity(alloc, size as usize)?;
    let mut x = seed;
    for _ in 0..size {
        x = next_number(x);
        made.push(factor(x))?;
    }
    Ok(made)
}
