//! Laws of the numbers of instructions: each function only states one.

ghost use Rattle.code_table.specs.NumberLaws.{NumbersAreExact};

/// An instruction of a method that is laid out is found by its pc, and at no other.
#[tactic(auto, using(crate::proofs::NumbersExact::exact))]
pub fn numbers_are_exact()
    ensures { NumbersAreExact }
{}
