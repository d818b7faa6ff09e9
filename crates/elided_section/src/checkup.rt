//! Whether a lock word is as it was noted.

ghost use Rattle.std.specs.Prelude.{◌≡◌, ◌<◌, ◌^◌};
ghost use Rattle.elided_section.specs.Checkups.{checkup};

use lock_word::{LockWord, word};

/// What a check of a lock word finds.
#[derive(Clone, Copy, Debug, PartialEq, Eq)]
pub enum Checkup {
    /// The lock is free, with the count that was noted.
    Same,
    /// It is not: the count that was noted, and the word that was found.
    Differs { noted: u64, found: u64 },
}

/// Compares the word that was found with that of the free lock whose count was noted, which is
/// below 2^62.
#[inline(always)]
pub fn compare(noted: u64, found: u64) -> Checkup
    requires { noted < 2 ^ 62 }
    ensures { result ≡ checkup noted found }
{
    if found == word(LockWord::Free(noted)) {
        Checkup::Same
    } else {
        Checkup::Differs { noted, found }
    }
}
