//! What holds of a typing at each instruction. What runs code rests on these two laws alone.

ghost use Rattle.jvm_types.specs.Verifying.{FrameLaw, LocalLaw};

/// Under a typing no instruction breaks a rule, and the frame that each edge brings is at or below
/// the frame at its target (JVMS 4.10.2.2).
pub fn typing_is_local()
    ensures { LocalLaw }
{}

/// Each frame of a typing has max_locals locals and at most max_stack values on its stack, and
/// outside an `<init>` its `this` is initialised (JVMS 4.10.2.2).
pub fn frames_fit()
    ensures { FrameLaw }
{}
