use crate::{LockWord, is_lock_word, next_count, read, word};
use std::test::*;

#[test]
fn locks_have_their_words(rt: HostRuntime) {
    assert_eq!(rt; word(LockWord::Free(0)), 0);
    assert_eq!(rt; word(LockWord::Free(1)), 4);
    assert_eq!(rt; word(LockWord::Fat(0)), 1);
    assert_eq!(rt; word(LockWord::Held(2)), 14);
    assert_eq!(rt; word(LockWord::Flagged(2)), 15);
    assert_eq!(rt; read(15), LockWord::Flagged(2));
}

#[test]
fn not_every_word_is_one(rt: HostRuntime) {
    assert!(rt; !is_lock_word(2));
    assert!(rt; !is_lock_word(3));
    assert!(rt; !is_lock_word(42));
    assert!(rt; is_lock_word(39));
}

#[test]
fn counts_end_at_the_range(rt: HostRuntime) {
    assert_eq!(rt; next_count(0, 2), 1);
    assert_eq!(rt; next_count(2, 2), 2);
}
