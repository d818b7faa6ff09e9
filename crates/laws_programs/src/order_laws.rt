//! Laws of the orders of classes, types and frames (JVMS 4.10.2.2): each function only states one.

ghost use Rattle.laws_programs.specs.OrderLaws.{ClassesAreOrdered, CommonAncestorIsLeast};
ghost use Rattle.laws_programs.specs.OrderLaws.{FramesAreOrdered, FramesMeet, MeetIsLeast};
ghost use Rattle.laws_programs.specs.OrderLaws.{TypesAreOrdered};

/// Being a subclass is an order.
#[tactic(auto, using(crate::proofs::Orders::classes_ordered))]
pub fn classes_are_ordered()
    ensures { ClassesAreOrdered }
{}

/// The nearest common ancestor is the least class that both are below.
#[tactic(auto, using(crate::proofs::Orders::ancestor_least))]
pub fn common_ancestor_is_least()
    ensures { CommonAncestorIsLeast }
{}

/// Being below is an order of types.
#[tactic(auto, using(crate::proofs::Orders::types_ordered))]
pub fn types_are_ordered()
    ensures { TypesAreOrdered }
{}

/// What two types meet in is the least type that both are below.
#[tactic(auto, using(crate::proofs::Orders::meet_is_least))]
pub fn meet_is_least()
    ensures { MeetIsLeast }
{}

/// Being below is an order of frames.
#[tactic(auto, using(crate::proofs::Orders::frames_ordered))]
pub fn frames_are_ordered()
    ensures { FramesAreOrdered }
{}

/// What two frames of one size meet in is the least frame that both are below.
pub fn frames_meet()
    ensures { FramesMeet }
{}
