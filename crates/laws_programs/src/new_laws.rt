//! Laws of values that a `new` made and no `<init>` was called on (JVMS 4.10.2.4): each function
//! only states one.

ghost use Rattle.laws_programs.specs.NewLaws.{BehindRises, NewIsBehind, NewStaysBehind};

/// In a typing each such value was made before the instruction at which it is.
pub fn new_is_behind()
    ensures { NewIsBehind }
{}

/// It stays so along each edge of an instruction that breaks no rule.
#[tactic(auto, using(crate::proofs::NewEdges::stays_behind))]
pub fn new_stays_behind()
    ensures { NewStaysBehind }
{}

/// It stays so in a frame that is above.
pub fn behind_rises()
    ensures { BehindRises }
{}
