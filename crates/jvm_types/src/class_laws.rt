//! Laws of the class grammar: `Spells bytes c` says that the bytes are a spelling of the class `c`.

ghost use Rattle.jvm_types.specs.ClassLaws.{HasAtMostOneSpelling, SpellsAtMostOneClass};
ghost use Rattle.jvm_types.specs.ClassLaws.{IsSpelledOrFaulty, ReadsWhatIsSpelled, ClassesFit};
ghost use Rattle.jvm_types.specs.ClassLaws.{FaultsLieInside};

/// No class has two spellings.
#[tactic(auto, using(crate::proofs::ClassLawProofs::one_spelling))]
pub fn one_spelling()
    ensures { HasAtMostOneSpelling }
{}

/// No bytes spell two classes.
#[tactic(auto, using(crate::proofs::ClassLawProofs::one_class))]
pub fn one_class()
    ensures { SpellsAtMostOneClass }
{}

/// Bytes spell a class exactly where no condition of the reading stands.
#[tactic(auto, using(crate::proofs::ClassLawProofs::spelled_or_faulty))]
pub fn spelled_or_faulty()
    ensures { IsSpelledOrFaulty }
{}

/// Reading gives a class exactly where the bytes spell that class.
pub fn read_what_is_spelled()
    ensures { ReadsWhatIsSpelled }
{}

/// Each list, text, body and code of a class is of a length that fits the field of that length.
#[tactic(auto, using(crate::proofs::CountLaws::classes_fit))]
pub fn counts_fit()
    ensures { ClassesFit }
{}

/// The place of a fault lies in the bytes, or at their end.
#[tactic(auto, using(crate::proofs::ClassLawProofs::faults_inside))]
pub fn faults_inside()
    ensures { FaultsLieInside }
{}
