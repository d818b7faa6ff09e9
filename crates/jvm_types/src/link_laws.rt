//! Laws of linking and of descriptors.

ghost use Rattle.jvm_types.specs.LinkLaws.{LinksToProgram};
ghost use Rattle.jvm_types.specs.DescriptorLaws.{FieldsAreSpelled, MethodsAreSpelled};

/// What files are linked to keeps the invariant of a program.
pub fn linked_is_program()
    ensures { LinksToProgram }
{}

/// A field descriptor names a type exactly where it is the text of that type (JVMS 4.3.2).
#[tactic(auto, using(crate::proofs::DescriptorProofs::fields_spelled))]
pub fn fields_are_spelled()
    ensures { FieldsAreSpelled }
{}

/// A method descriptor has a meaning exactly where it is the text of that (JVMS 4.3.3).
pub fn methods_are_spelled()
    ensures { MethodsAreSpelled }
{}
