//! What a table shows behind events.

ghost use Rattle.table_rule.specs.TableLaws.{EventsShow, LocalsShow};

/// An event of a thread that a view has, behind its events without an access, leads from a state of
/// a run that is shown to the next one, whatever the other views have.
pub fn events_show()
    ensures { EventsShow }
{}

/// Events without an access lead to a state of a run that is shown with the same words.
pub fn locals_show()
    ensures { LocalsShow }
{}
