//! The first pass: the class of each file (JVMS 4.1, 5.3.5).

ghost use Rattle.std.specs.Prelude.{◌≡◌};
ghost use Rattle.std.specs.Result.{result_err};
ghost use Rattle.jvm_types.specs.ClassNames.{class_names};
ghost use Rattle.jvm_types.specs.LinkFaults.{is_outside, class_link_fault};
ghost use Rattle.jvm_types.specs.LinkFaults.{class_pass as first_pass};

use crate::places::Fault;
use crate::texts::is_same_text;
use constant_pools::pool_texts::class_text_at;
use jvm_types::flags::{ABSTRACT, INTERFACE, has_flag};
use jvm_types::{ClassFile, LRule, in_file};
use link_scope::{FileScope, Scope};

/// Whether a class is not right below `Object`, implements an interface, or is an interface or
/// abstract.
fn is_outside(class: &ClassFile) -> bool
    ensures { result ≡ is_outside class.now }
{
    !is_same_text(
        class_text_at(&class.constants, class.super_class),
        b"java/lang/Object",
    ) || class.interfaces.len() > 0
        || has_flag(INTERFACE, class.flags)
        || has_flag(ABSTRACT, class.flags)
}

/// The first rule that refuses the class of a file.
fn class_fault(file: &FileScope<'_, '_>) -> Result<(), Fault>
    ensures { result_err result
        ≡ class_link_fault (class_names file.now.files) file.now.number file.now.class }
{
    let rule = if is_outside(file.class()) {
        LRule::L6
    } else if file.takes_name() {
        LRule::L5
    } else {
        return Ok(());
    };
    Err((rule, in_file(file.number(), 0)))
}

/// The first pass: L6 and L5 of classes.
pub fn class_pass(scope: &Scope<'_>) -> Result<(), Fault>
    ensures { result_err result ≡ first_pass scope.now }
{
    let files = scope.files().as_slice();
    for (number, class) in files.iter().enumerate() {
        class_fault(&scope.file(number, class))?;
    }
    Ok(())
}
