//! The lock word of an object, in 64 bits. Free and held flat locks, fat locks and the count are
//! those of the PLDI 2010 publication; the widths are the machine's own. The low two bits are 00 of
//! a free lock, 01 of a fat one, 10 of one that a thread holds, and 11 of one that is flagged too.
//! The bits above are the count, the record's number, or the thread's number and 1.
#![tactic(auto)]

ghost use Rattle.std.specs.Prelude.{◌≡◌, true};
ghost use Rattle.lock_word.specs.Widths.{HasWord};
ghost use Rattle.machine_types.specs.LockWords.{is_lock_word, lock_of, next_count, word_of_lock};

use jvm_types::fixed_words::MONITOR_RECORDS;
use jvm_types::limits::MOST_WORKERS;
pub use machine_types::LockWord;

/// Whether a word is a lock word: that of a free lock, of one of the 1,024 records, or of one of at
/// most 9 threads.
#[inline(always)]
pub fn is_lock_word(word: u64) -> bool
    ensures { result ≡ is_lock_word word }
{
    let upper = word / 4;
    match word % 4 {
        0 => true,
        1 => upper < MONITOR_RECORDS as u64,
        2 | 3 => 0 < upper && upper <= MOST_WORKERS as u64 + 1,
        _ => unreachable!(),
    }
}

/// What a lock word says.
#[inline(always)]
pub fn read(word: u64) -> LockWord
    requires { is_lock_word word ≡ true }
    ensures lock { result ≡ lock_of word }
    ensures word { word_of_lock result ≡ word }
    ensures fits { HasWord result }
{
    let upper = word / 4;
    match word % 4 {
        0 => LockWord::Free(upper),
        1 => LockWord::Fat(upper as u32),
        2 => LockWord::Held((upper - 1) as u8),
        3 => LockWord::Flagged((upper - 1) as u8),
        _ => unreachable!(),
    }
}

/// The word of a lock, with a count below 2^62, a record below 1,024, or a thread up to 8.
#[inline(always)]
pub fn word(lock: LockWord) -> u64
    requires { HasWord lock }
    ensures word { result ≡ word_of_lock lock }
    ensures is { is_lock_word result ≡ true }
    ensures lock { lock_of result ≡ lock }
{
    match lock {
        LockWord::Free(count) => 4 * count,
        LockWord::Fat(record) => 4 * record as u64 + 1,
        LockWord::Held(thread) => 4 * (thread as u64 + 1) + 2,
        LockWord::Flagged(thread) => 4 * (thread as u64 + 1) + 3,
    }
}

/// The count behind a release: one more, up to the last one, `range`.
#[inline(always)]
pub fn next_count(count: u64, range: u32) -> u64
    ensures { result ≡ next_count count range }
{
    if count < range as u64 {
        count + 1
    } else {
        range as u64
    }
}

#[cfg(test)]
mod tests;
