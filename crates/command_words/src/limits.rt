//! Usual values and limits of options, by number.

ghost use Rattle.command_words.specs.Limits.{AreOptionsStated};

/// The constants that the definitions of options name have these numbers, and where only files are
/// named, these values stand.
pub fn options_are_stated()
    ensures { AreOptionsStated }
{}
