//! That the word which the line of an event names is the one that the event accesses, and that each
//! class is told by its name.

ghost use Rattle.event_texts.specs.MonitorFacts.{ClassesAreTold};
ghost use Rattle.event_texts.specs.NamedWords.{NamesAccessedWords};

/// In each state of a run, of any program, the next event of a thread accesses the word that is
/// told of it: that word has the number of the one that the event wants.
#[tactic(auto, using(crate::proofs::NamingWords::names_accessed_words))]
pub fn names_accessed_words()
    ensures { NamesAccessedWords }
{}

/// In any program, the monitor of the class of each file is told by the name of that class.
#[tactic(auto, using(crate::proofs::ClassesTold::classes_are_told))]
pub fn classes_are_told()
    ensures { ClassesAreTold }
{}
