//! The class of a load.

ghost use Rattle.std.specs.Prelude.{◌≡◌, ◌≤◌, IfOk};
ghost use Rattle.load_classes.specs.LoadClass.{load_class};
ghost use Rattle.load_classes.specs.Loads.{LoadsAreClasses};
ghost use Rattle.load_classes.specs.declared.limits.TheConstants.{MOST_METHODS};

use crate::constants::load_constants;
use crate::methods::{load_fields, load_methods};
use jvm_types::{ClassFile, Rows};
use std::alloc::{AllocError, Global};

/// The class `Load`: an object with two counters, and `size` synchronized methods that add to one
/// what they take from the other, by factors that come from `seed`. Each worker calls each of them
/// once, and prints 1 behind a call where the sum that it then reads is not 0.
///
/// Time and memory are in proportion to `size`. Errors: where memory runs out.
pub fn load_class(alloc: Global, size: u32, seed: u32) -> Result<ClassFile, AllocError>
    requires { size ≤ MOST_METHODS }
    ensures { IfOk result (λ c. c ≡ load_class size seed) }
{
    Ok(ClassFile {
        minor: 0,
        major: 50,
        constants: load_constants(alloc, size)?,
        flags: 32,
        this_class: 2,
        super_class: 4,
        interfaces: Rows::new(alloc),
        fields: load_fields(alloc)?,
        methods: load_methods(alloc, size, seed)?,
        attrs: Rows::new(alloc),
    })
}

/// Bytes spell the class of each size.
pub fn loads_are_classes()
    ensures { LoadsAreClasses }
{}
