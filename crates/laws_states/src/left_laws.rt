//! What an event leaves of a lock word, or of a word of a monitor record.

ghost use Rattle.laws_states.specs.LeftWords.{LeftMayStand};

/// An event leaves a lock word where it found one, an owner where it found one, and waiting bits
/// where it found some.
pub fn left_words_may_stand()
    ensures { LeftMayStand }
{}
