//! Laws of the places of fields: each function only states one.

ghost use Rattle.laws_programs.specs.FieldLaws.{InstancesAreApart, InstancesLieInside, OneInstance};
ghost use Rattle.laws_programs.specs.FieldLaws.{OneStatic, StaticsAreApart, StaticsLieInside};

/// The word of a static field is one of those that the program has from the start on.
#[tactic(auto, using(crate::proofs::FieldOrder::statics_inside))]
pub fn statics_lie_inside()
    ensures { StaticsLieInside }
{}

/// The place of an instance field is below the number of fields that an object of its class has.
#[tactic(auto, using(crate::proofs::FieldOrder::instances_inside))]
pub fn instances_lie_inside()
    ensures { InstancesLieInside }
{}

/// A later static field has a later word.
#[tactic(auto, using(crate::proofs::FieldOrder::statics_apart))]
pub fn statics_are_apart()
    ensures { StaticsAreApart }
{}

/// A later instance field of the same class has a later place.
#[tactic(auto, using(crate::proofs::FieldOrder::instances_apart))]
pub fn instances_are_apart()
    ensures { InstancesAreApart }
{}

/// Two static fields of one word are one field.
#[tactic(auto, using(crate::proofs::FieldOrder::one_static_field))]
pub fn one_static()
    ensures { OneStatic }
{}

/// Two instance fields of one class and one place are one field.
#[tactic(auto, using(crate::proofs::FieldOrder::one_instance_field))]
pub fn one_instance()
    ensures { OneInstance }
{}
