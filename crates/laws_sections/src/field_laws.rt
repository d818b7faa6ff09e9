//! Where the fields that a section reads without its lock are written.

ghost use Rattle.checked_program.specs.SectionLaws.{FinalLaw, FinalStaticLaw, StaticWriteLaw};
ghost use Rattle.checked_program.specs.SectionLaws.{WriteLaw};

/// A guarded field is written on `this` alone, in an `<init>`, or with the monitor of `this`
/// entered.
pub fn guarded_written_locked()
    ensures { WriteLaw }
{}

/// A final field of a frozen class is written on the `this` of an `<init>` alone.
pub fn finals_written_inside()
    ensures { FinalLaw }
{}

/// A guarded static field is written in the `<clinit>` of its class, or with the monitor of that
/// entered.
pub fn statics_written_locked()
    ensures { StaticWriteLaw }
{}

/// A final static field is written in the `<clinit>` of its class alone.
pub fn final_statics_written_inside()
    ensures { FinalStaticLaw }
{}
