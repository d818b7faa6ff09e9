//! Laws of the tree of classes: each function only states one.

ghost use Rattle.laws_programs.specs.ClassLaws.{FileClassesStandAlone, LeavesStandAlone};
ghost use Rattle.laws_programs.specs.ClassLaws.{ThrowablesAreBelow};

/// Only the class itself is below a class that is just above none, as `int[]` and PrintStream.
#[tactic(auto, using(crate::proofs::ClassTreeLaws::leaves_alone))]
pub fn leaves_stand_alone()
    ensures { LeavesStandAlone }
{}

/// Only the class itself is below a class of a file.
#[tactic(auto, using(crate::proofs::ClassTreeLaws::files_alone))]
pub fn file_classes_stand_alone()
    ensures { FileClassesStandAlone }
{}

/// The classes below Throwable are the twelve throwables.
#[tactic(auto, using(crate::proofs::ClassTreeLaws::throwables_below))]
pub fn throwables_are_below()
    ensures { ThrowablesAreBelow }
{}
