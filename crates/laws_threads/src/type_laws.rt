//! Types are kept by every event of a thread.

ghost use Rattle.laws_threads.specs.KeptTypes.{TypesAreKept};

/// Where a thread's locking stays structured, its values stay of their types, as far as a thread
/// alone can tell.
pub fn types_are_kept()
    ensures { TypesAreKept }
{}
