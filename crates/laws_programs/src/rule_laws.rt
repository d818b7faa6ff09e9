//! Laws of an instruction at which no rule is broken: each function only states one.

ghost use Rattle.laws_programs.specs.RuleLaws.{ArgumentsSuit, ReadIsGood, ReceiverIsGood};
ghost use Rattle.laws_programs.specs.RuleLaws.{ReturnsSuit, TakenAreGood, UnbrokenHold};

/// Where no rule is broken each of the five that are tested first holds.
#[tactic(auto, using(crate::proofs::RuleUses::hold))]
pub fn unbroken_hold()
    ensures { UnbrokenHold }
{}

/// Each value that is taken is there, of the type that is asked for, and not misused.
#[tactic(auto, using(crate::proofs::RuleUses::taken_good))]
pub fn taken_are_good()
    ensures { TakenAreGood }
{}

/// So is the local that is read.
pub fn read_is_good()
    ensures { ReadIsGood }
{}

/// The arguments of a call are of the types of the method's parameters.
#[tactic(auto, using(crate::proofs::RuleUses::arguments_suit_all))]
pub fn arguments_suit()
    ensures { ArgumentsSuit }
{}

/// The receiver of a call stands below the arguments, and is good.
#[tactic(auto, using(crate::proofs::RuleUses::receiver_good))]
pub fn receiver_is_good()
    ensures { ReceiverIsGood }
{}

/// A returned value is of the type of the descriptor, and `return` returns from a method without
/// one.
#[tactic(auto, using(crate::proofs::RuleUses::returns_suit_all))]
pub fn returns_suit()
    ensures { ReturnsSuit }
{}
