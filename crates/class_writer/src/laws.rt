//! Reading and writing undo each other: `Answers c r` says that `r` is what writing `c` answers.

ghost use Rattle.class_writer.specs.Laws.{ReadsWhatWasWritten, WritesWhatWasRead};

/// Reading the bytes that were written gives the class again.
pub fn reads_what_was_written()
    ensures { ReadsWhatWasWritten }
{}

/// Writing a class that was read gives its bytes again, unless memory runs out.
pub fn writes_what_was_read()
    ensures { WritesWhatWasRead }
{}
