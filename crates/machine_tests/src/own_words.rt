//! Events of a thread over words of the test's own, in which no monitor record is left.

ghost use Rattle.std.specs.Prelude.{◌≡◌, ◌<◌, ◌^◌, Some, true, IfOk};
ghost use Rattle.machine_types.specs.Accesses.{accessed, left_by};
ghost use Rattle.machine_types.specs.Events.{wanted};
ghost use Rattle.machine_types.specs.FoundWords.{Fits};
ghost use Rattle.machine_types.specs.Lawful.{IsLawful};
ghost use Rattle.machine_tests.specs.SureWords.{is_small_lock, is_sure};

use checked_program::Checked;
use class_runner::{FileError, load_program};
use frames::ThreadState;
use instr_effects::perform;
use jvm_types::fixed_words::{MONITOR_RECORDS, NEXT_FREE_WORD, NEXT_RECORD_WORD};
use jvm_types::limits::LEAST_HEAP;
use jvm_types::{End, Rows};
use laws_threads::given_is_kept;
use lock_word::{LockWord, is_lock_word, word};
use machine_types::{Access, After, Config, Phase};
use run_parts::start_words;
use std::alloc::{AllocError, Global};
use std::process::Abort;
use std::test::*;
use step_core::{apply, step_local, want};
use test_classes::{WAITS, changed};

const SETTINGS: Config = Config {
    steps: 100,
    turns: 100,
    prints: 1,
    elide: true,
    range: 4,
};

/// The bytes by which `init` calls `n` on its new object, in place of keeping that in a field, and
/// `n` notifies.
const NOTIFIES: [(usize, u8); 2] = [(374, 0xb6), (376, 0x26)];

/// The same, but that `n` waits.
const WAITS_ALONE: [(usize, u8); 3] = [(374, 0xb6), (376, 0x26), (445, 0x14)];

/// Class W with some bytes changed, and without workers.
fn load(alloc: Global, changes: &[(usize, u8)]) -> Result<Checked, FileError> {
    let mut files = Rows::new(alloc);
    files.push(changed(alloc, WAITS, changes)?)?;
    load_program(alloc, &files, LEAST_HEAP, 0)
}

/// Thread 0 at the start.
fn first(alloc: Global, p: &Checked) -> Result<ThreadState, AllocError>
    ensures program { IfOk result (λ s. p.now ≡ s.program) }
    ensures lawful { IfOk result (λ s. IsLawful p.now s) }
{
    let s = ThreadState::start(alloc, 0, p, &SETTINGS)?;
    Ok(s)
}

/// The words of the start, but for the next monitor record.
fn words_without_records(
    rt: &(impl Abort + AllocGlobal),
    p: &Checked,
) -> Result<Rows<u64>, AllocError> {
    let mut words = start_words(rt.alloc(), p.program())?;
    let record = NEXT_RECORD_WORD as usize;
    let there = record < words.len();
    assert!(rt; there);
    words.set(record, MONITOR_RECORDS as u64);
    Ok(words)
}

/// The word at a place.
fn word_at(rt: &impl Abort, words: &Rows<u64>, place: u32) -> u64 {
    match words.get(place as usize) {
        Some(word) => *word,
        None => panic!(rt; "there is no word {place}"),
    }
}

/// The place of the next object.
fn next_free(rt: &impl Abort, words: &Rows<u64>) -> u32 {
    (word_at(rt, words, NEXT_FREE_WORD) % 4_294_967_296) as u32
}

/// Whether a word is a lock word that could also be the owner of a record.
fn is_small_lock(word: u64) -> bool
    ensures { result ≡ is_small_lock word }
{
    is_lock_word(word) && word <= 9
}

/// Whether a word fits whatever the event of a thread in this phase may read it as.
fn is_sure(phase: Phase, access: Access, word: u64) -> bool
    ensures { result ≡ is_sure phase access word }
{
    match phase {
        Phase::Run => match access {
            Access::Add(_, _) => true,
            _ => false,
        },
        Phase::Made(_, _) | Phase::Grow(_, _) | Phase::Ending(_) => true,
        Phase::Enter(_, _)
        | Phase::Acquire(_)
        | Phase::Take(_, _)
        | Phase::Leave(_, _)
        | Phase::FlatOut(_, _) => is_small_lock(word),
        _ => false,
    }
}

/// Whether a word fits the event of the thread whose access found it.
#[tactic(auto, using(crate::proofs::SureWords::sure_fits))]
fn fits(s: &ThreadState, p: &Checked, access: Access, word: u64) -> bool
    requires { wanted p.now s.now s.now.phase ≡ Some access }
    ensures { result ≡ true → Fits p.now s.now word }
{
    is_sure(s.phase(), access, word)
}

/// The number of the word of an access.
fn place_of(access: Access) -> u32
    ensures { result ≡ accessed access }
{
    match access {
        Access::Load(place)
        | Access::Store(place, _)
        | Access::Cas(place, _, _)
        | Access::Add(place, _)
        | Access::Or(place, _)
        | Access::And(place, _) => place,
        Access::Rest => 0,
    }
}

/// Whether what an access leaves of a word surely fits 64 bits.
fn keeps_width(access: Access, word: u64) -> bool
    ensures { result ≡ true → left_by access word < 2 ^ 64 }
{
    match access {
        Access::Load(_) | Access::Store(_, _) | Access::Cas(_, _, _) | Access::Rest => true,
        Access::Add(_, more) => word.checked_add(more).is_some(),
        Access::Or(_, _) | Access::And(_, _) => false,
    }
}

/// Makes an access, and answers the word that it found.
fn make(rt: &impl Abort, words: &mut Rows<u64>, access: Access) -> u64 {
    let place = place_of(access) as usize;
    let there = place < words.len();
    assert!(rt; there);
    let wide = keeps_width(access, words.as_slice()[place]);
    assert!(rt; wide);
    perform(words, access)
}

/// The next event of a thread.
fn go(rt: &impl Abort, s: &mut ThreadState, p: &Checked, words: &mut Rows<u64>)
    requires program { p.now ≡ s.old.program }
    requires lawful { IsLawful p.now s.old }
    ensures program { p.now ≡ s.new.program }
    ensures lawful { IsLawful p.now s.new }
{
    given_is_kept();
    match want(s, p) {
        Some(access) => {
            let found = make(rt, words, access);
            let sure = fits(s, p, access, found);
            assert!(rt; sure);
            apply(s, p, found);
        }
        None => {
            let live = s.is_live();
            assert!(rt; live);
            step_local(s, p);
        }
    }
}

/// The events of a thread up to a phase.
fn go_to(rt: &impl Abort, s: &mut ThreadState, p: &Checked, words: &mut Rows<u64>, phase: Phase)
    requires program { p.now ≡ s.old.program }
    requires lawful { IsLawful p.now s.old }
    ensures program { p.now ≡ s.new.program }
    ensures lawful { IsLawful p.now s.new }
{
    for _ in 0..100 {
        if s.phase() == phase {
            break;
        }
        go(rt, s, p, words);
    }
    assert_eq!(rt; s.phase(), phase);
}

/// How many instructions the thread has begun, how often it has taken a lock, and how often made
/// one fat.
fn check_counts(rt: &impl Abort, s: &ThreadState, instructions: u32, locked: u32, inflated: u32) {
    let counts = s.counts();
    assert_eq!(rt; counts.instructions, instructions);
    assert_eq!(rt; counts.locked, locked);
    assert_eq!(rt; counts.inflated, inflated);
    assert_eq!(rt; counts.elided, 0);
    assert_eq!(rt; counts.failed, 0);
}

#[test]
fn a_wait_that_finds_no_record_ends_its_thread(rt: HostRuntime) -> Result<(), Fail> {
    let p = load(rt.alloc(), &WAITS_ALONE)?;
    let mut s = first(rt.alloc(), &p)?;
    let mut words = words_without_records(&rt, &p)?;
    let monitor = next_free(&rt, &words);
    go_to(&rt, &mut s, &p, &mut words, Phase::Ended(End::Records));
    // the thread keeps the monitor, whose lock stays flat
    assert_eq!(rt; word_at(&rt, &words, monitor), word(LockWord::Held(0)));
    assert_eq!(rt; word_at(&rt, &words, NEXT_RECORD_WORD), 1025);
    check_counts(&rt, &s, 9, 1, 0);
    Ok(())
}

#[test]
fn a_flagged_lock_that_finds_no_record_stays_flat(rt: HostRuntime) -> Result<(), Fail> {
    let p = load(rt.alloc(), &NOTIFIES)?;
    let mut s = first(rt.alloc(), &p)?;
    let mut words = words_without_records(&rt, &p)?;
    let monitor = next_free(&rt, &words);
    go_to(
        &rt,
        &mut s,
        &p,
        &mut words,
        Phase::Leave(monitor, After::Return),
    );
    // what a thread does that has failed to take the lock too often
    let held = word(LockWord::Held(0));
    let flag = Access::Cas(monitor, held, word(LockWord::Flagged(0)));
    assert_eq!(rt; make(&rt, &mut words, flag), held);
    go_to(
        &rt,
        &mut s,
        &p,
        &mut words,
        Phase::FlatOut(monitor, After::Return),
    );
    assert_eq!(rt; word_at(&rt, &words, NEXT_RECORD_WORD), 1025);
    // the lock is free with the next count, and the thread goes on
    go_to(&rt, &mut s, &p, &mut words, Phase::Run);
    assert_eq!(rt; word_at(&rt, &words, monitor), word(LockWord::Free(1)));
    go_to(&rt, &mut s, &p, &mut words, Phase::Ended(End::Returned));
    check_counts(&rt, &s, 11, 1, 0);
    Ok(())
}
