//! The second pass: the fields and methods of each file (JVMS 4.3, 4.5, 4.6).

ghost use Rattle.std.specs.Prelude.{◌≡◌, Some, slice_get};
ghost use Rattle.std.specs.Result.{result_err};
ghost use Rattle.jvm_types.specs.ClassNames.{class_names};
ghost use Rattle.jvm_types.specs.LinkFaults.{first_from, field_fault, method_fault, members_fault};
ghost use Rattle.jvm_types.specs.LinkFaults.{member_pass as second_pass};

use crate::places::Fault;
use crate::roots::is_synchronized_root;
use jvm_types::{LRule, Member, in_file, in_method};
use link_scope::{FileScope, Scope};

/// The first rule that refuses a field, which is given with its number in its class.
#[tactic(auto, using(crate::proofs::Files::field_number))]
fn field_fault(file: &FileScope<'_, '_>, number: usize, field: &Member) -> Result<(), Fault>
    requires { slice_get file.now.class.fields number ≡ Some field.now }
    ensures { result_err result
        ≡ field_fault (class_names file.now.files) file.now.number file.now.class number field.now }
{
    let rule = if file.field_kind(field.descriptor).is_none() {
        LRule::L1
    } else if file.repeats_field(number) {
        LRule::L5
    } else {
        return Ok(());
    };
    Err((rule, in_file(file.number(), number as u32)))
}

/// The first rule that refuses a method, which is given with its number in its class.
#[tactic(auto, using(crate::proofs::Files::method_number))]
fn method_fault(file: &FileScope<'_, '_>, number: usize, method: &Member) -> Result<(), Fault>
    requires { slice_get file.now.class.methods number ≡ Some method.now }
    ensures { result_err result ≡ method_fault (class_names file.now.files) file.now.number
        file.now.class number method.now }
{
    let rule = if !file.is_method_descriptor(method.descriptor) {
        LRule::L1
    } else if file.repeats_method(number) {
        LRule::L5
    } else if is_synchronized_root(
        file.own_class(),
        file.text(method.name),
        file.text(method.descriptor),
        method.flags,
    ) {
        LRule::L9
    } else {
        return Ok(());
    };
    Err((rule, in_method(file.number(), number as u16, 0)))
}

/// The first refusal of a field of a file.
fn first_field_fault(file: &FileScope<'_, '_>) -> Result<(), Fault>
    ensures { result_err result ≡ first_from
        (field_fault (class_names file.now.files) file.now.number file.now.class) 0
        file.now.class.fields }
{
    let fields = file.class().fields.as_slice();
    for (number, field) in fields.iter().enumerate() {
        field_fault(file, number, field)?;
    }
    Ok(())
}

/// The first refusal of a method of a file.
fn first_method_fault(file: &FileScope<'_, '_>) -> Result<(), Fault>
    ensures { result_err result ≡ first_from
        (method_fault (class_names file.now.files) file.now.number file.now.class) 0
        file.now.class.methods }
{
    let methods = file.class().methods.as_slice();
    for (number, method) in methods.iter().enumerate() {
        method_fault(file, number, method)?;
    }
    Ok(())
}

/// The first refusal of a member of a file: of its fields, and then of its methods.
fn members_fault(file: &FileScope<'_, '_>) -> Result<(), Fault>
    ensures { result_err result
        ≡ members_fault (class_names file.now.files) file.now.number file.now.class }
{
    first_field_fault(file)?;
    first_method_fault(file)
}

/// The second pass: L1 and L5 of fields, L1, L5 and L9 of methods.
pub fn member_pass(scope: &Scope<'_>) -> Result<(), Fault>
    ensures { result_err result ≡ second_pass scope.now }
{
    let files = scope.files().as_slice();
    for (number, class) in files.iter().enumerate() {
        members_fault(&scope.file(number, class))?;
    }
    Ok(())
}
