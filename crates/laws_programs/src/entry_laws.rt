//! Laws of the frame that a method begins with (JVMS 4.10.2.2): each function only states one.

ghost use Rattle.laws_programs.specs.EntryLaws.{ArgumentsFit, EntryFramesFit, EntryHasArguments};
ghost use Rattle.laws_programs.specs.EntryLaws.{EntryHasNoMore, EntryHasReceiver};

/// Receiver and arguments of a typed method fit in its locals.
pub fn arguments_fit()
    ensures { ArgumentsFit }
{}

/// The entry frame of a typed method has max_locals locals.
pub fn entry_fits()
    ensures { EntryFramesFit }
{}

/// `this` is in local 0 of an instance method, uninitialised in an `<init>`.
#[tactic(auto, using(crate::proofs::EntryFrame::has_receiver))]
pub fn entry_has_receiver()
    ensures { EntryHasReceiver }
{}

/// The arguments follow in their order.
#[tactic(auto, using(crate::proofs::EntryFrame::has_arguments))]
pub fn entry_has_arguments()
    ensures { EntryHasArguments }
{}

/// Nothing is known of the other locals.
#[tactic(auto, using(crate::proofs::EntryFrame::has_no_more))]
pub fn entry_has_no_more()
    ensures { EntryHasNoMore }
{}
