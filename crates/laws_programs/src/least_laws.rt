//! The least law of verification by inferred types (JVMS 4.10.2).

ghost use Rattle.jvm_types.specs.Verifying.{LeastLaw, RefusalLaw};

/// A typing is at or below every assignment of frames under which no instruction breaks a rule and
/// each edge fits the frame at its target.
pub fn typing_is_least()
    ensures { LeastLaw }
{}

/// A refusal by a rule other than V7 comes only where there is no such assignment.
pub fn refusals_are_due()
    ensures { RefusalLaw }
{}
