//! Laws of the methods that a part of a run begins with (JVMS 2.9, 5.5; `init`, `run` and `done`
//! are the machine's own): each function only states one.

ghost use Rattle.laws_programs.specs.RootLaws.{ClassInitsAreRoots, EntriesAreRoots, OneMethod};
ghost use Rattle.laws_programs.specs.RootLaws.{RunIsRoot, RunIsThere};

/// A `<clinit>` is static, without a monitor, takes nothing and returns nothing.
pub fn class_inits_are_roots()
    ensures { ClassInitsAreRoots }
{}

/// So are `init` and `done` of the entry class.
pub fn entries_are_roots()
    ensures { EntriesAreRoots }
{}

/// So is `run` of the entry class, but that it takes an int.
pub fn run_is_root()
    ensures { RunIsRoot }
{}

/// Where there are workers the entry class has a `run`.
#[tactic(auto, using(crate::proofs::RootMethods::run_stands_there))]
pub fn run_stands()
    ensures { RunIsThere }
{}

/// Two methods of one class, name and descriptor are one.
#[tactic(auto, using(crate::proofs::RootMethods::one_method_stands))]
pub fn one_method()
    ensures { OneMethod }
{}
