//! Limits and usual values, by number.

ghost use Rattle.solero.specs.Limits.{AreStated};

/// The constants that the definitions of class files, of the machine and of the words name have
/// these numbers, and where only files are named, these values stand.
pub fn numbers_are_stated()
    ensures { AreStated }
{}
