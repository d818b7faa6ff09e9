ghost use Rattle.std.specs.Prelude.{◌≡◌, ◌<◌, ◌≤◌, ◌≢◌, ◌⊎◌, List, Some, None, IfErr, IfOk, length};
ghost use Rattle.std.specs.Prelude.{true};
ghost use Rattle.host_io.specs.Faults.{CountsFault};
ghost use Rattle.command_words.specs.Command.{Asked, command, takes_files};
ghost use Rattle.command_words.specs.Words.{texts};
ghost use Rattle.host_io.specs.Reading.{first_long};
ghost use Rattle.command_words.specs.Requests.{asked_by};
ghost use Rattle.solero.specs.Answer.{AreAccepted, IsDue, IsMadeIn};
ghost use Rattle.solero.specs.Answer.{Delivers};
ghost use Rattle.solero.specs.Parts.{IsNotMadeIn, IsContentsDue, IsUnreadDue};
ghost use Rattle.solero.specs.Whole.{AnswersWhole, IsCalm, IsOwed, IsOwedRefusal};
ghost use Rattle.host_io.specs.declared.shelf.NamedFile.{NamedFile as File};
ghost use Rattle.program_answers.specs.declared.answer.Due.{Due as TheDue};
ghost use Rattle.command_words.specs.declared.request.Mode.TheVariants.{Program};

use crate::answer::{USAGE, refused, too_long};
use crate::cell::ran_cell;
use crate::class_text::{assembled, listed};
use crate::load::ran_load;
use crate::making::made;
use class_runner::{FileError, load_program};
use command_words::{Mode, Request, Task, read_words};
use host_io::files::{Unread, read_files};
use host_io::shelf::{Shelf, ShelfError};
use host_io::sink::Sink;
use jvm_types::{Bytes, Gate, Rows};
use program_answers::answer::{Due, cannot_read};
use program_answers::delivery::deliver;
use std::alloc::{AllocError, Global};
use std::sync::Wait;
use std::thread::Threads;

/// Does what the words ask for: reads the files from the shelf, in order; then loads them, and runs
/// the program or finds the marks of its sections; or lists the class of the one file, or assembles
/// the class that its text lists; or, without a file, makes the class of a load and runs that, or
/// runs a cell; and writes what came of it to the sink. It answers the status that the process ends
/// with.
///
/// In modes run, record, load and cell each worker runs on a thread of its own, and passes the gate
/// once, before its first event or round and while it holds no lock. Where the words give workers
/// for a run, these run its threads: of two or more each that has threads passes the gate once,
/// with its own number, and one alone doesn't. In the other modes nobody passes it. Nothing is
/// promised of the order, nor that workers run beside each other: where the system gives no thread,
/// they run one after another. A run may wait for a lock, so the clauses hold where it returns.
pub fn top<R: Threads + Wait + Sync, S: Shelf, K: Sink, G: Gate + Sync>(
    rt: &R,
    alloc: Global,
    words: &Vec<String>,
    shelf: &mut S,
    sink: &mut K,
    gate: &G,
) -> u8
    // What the words and the files are owed is written, and answered by its status.
    ensures answer { (due : TheDue)
        × IsDue (command (texts words.now.items)) (S.files shelf.old) (S.unreadable shelf.old)
        (S.faults shelf.old) (S.faults shelf.new) due
        × Delivers (K.text sink.old) (K.text sink.new) (K.faults sink.old) (K.faults sink.new) due
        result }
    ensures files { S.files shelf.new ≡ S.files shelf.old }
    ensures unreadable { S.unreadable shelf.new ≡ S.unreadable shelf.old }

    // Each status comes for its cause, and a fault of the sink goes before all.
    ensures status { result ≤ 7 }
    ensures words_read { result ≡ 2 → command (texts words.now.items) ≡ None }
    ensures words_not_read { command (texts words.now.items) ≡ None
        → (result ≡ 2) ⊎ ((result ≡ 5) ⊎ (result ≡ 6)) }
    // Files that the mode takes are not refused, and all others are, where the shelf does not fail.
    ensures accepted { (asked : Asked) (files : List File)
        → command (texts words.now.items) ≡ Some asked → S.files shelf.old ≡ Some files
        → AreAccepted files asked → result ≢ 3 }
    ensures not_accepted { (asked : Asked) (files : List File)
        → command (texts words.now.items) ≡ Some asked → S.files shelf.old ≡ Some files
        → ¬ AreAccepted files asked → IsCalm (S.faults shelf.old) (S.faults shelf.new)
        → (result ≡ 3) ⊎ ((result ≡ 5) ⊎ (result ≡ 6)) }
    // And where nothing fails outside, both are answered in full.
    ensures complete { (asked : Asked) (files : List File)
        → command (texts words.now.items) ≡ Some asked → S.files shelf.old ≡ Some files
        → AreAccepted files asked → IsCalm (S.faults shelf.old) (S.faults shelf.new)
        → IsCalm (K.faults sink.old) (K.faults sink.new)
        → AnswersWhole (IsOwed asked files) (K.text sink.old) (K.text sink.new) result }
    ensures refused { (asked : Asked) (files : List File)
        → command (texts words.now.items) ≡ Some asked → S.files shelf.old ≡ Some files
        → ¬ AreAccepted files asked → IsCalm (S.faults shelf.old) (S.faults shelf.new)
        → IsCalm (K.faults sink.old) (K.faults sink.new)
        → AnswersWhole (IsOwedRefusal asked files) (K.text sink.old) (K.text sink.new) result }
    ensures shelf_failed { result ≡ 4 → CountsFault (S.faults shelf.old) (S.faults shelf.new) }
    ensures shelf_fault { S.faults shelf.old < S.faults shelf.new → (4 ≤ result) × (result ≤ 6) }
    ensures sink_failed { result ≡ 5 → CountsFault (K.faults sink.old) (K.faults sink.new) }
    ensures sink_fault { K.faults sink.old < K.faults sink.new → result ≡ 5 }
{
    let due = work(rt, alloc, words, shelf, gate);
    deliver(sink, USAGE, &due)
}

// What is due to the words.
fn work<R: Threads + Wait + Sync, S: Shelf, G: Gate + Sync>(
    rt: &R,
    alloc: Global,
    words: &Vec<String>,
    shelf: &mut S,
    gate: &G,
) -> Due
    ensures due { IsDue (command (texts words.now.items)) (S.files shelf.old)
        (S.unreadable shelf.old) (S.faults shelf.old) (S.faults shelf.new) result }
    ensures files { S.files shelf.new ≡ S.files shelf.old }
    ensures unreadable { S.unreadable shelf.new ≡ S.unreadable shelf.old }
{
    match read_words(alloc, words.as_slice()) {
        Ok(Some(request)) => work_on(rt, alloc, &request, shelf, gate),
        Ok(None) => Due::Usage,
        Err(AllocError) => Due::OutOfMemory,
    }
}

// What is due to the files that are asked for.
fn work_on<R: Threads + Wait + Sync, S: Shelf, G: Gate + Sync>(
    rt: &R,
    alloc: Global,
    request: &Request,
    shelf: &mut S,
    gate: &G,
) -> Due
    ensures due { IsDue (Some (asked_by request.now)) (S.files shelf.old) (S.unreadable shelf.old)
        (S.faults shelf.old) (S.faults shelf.new) result }
    ensures files { S.files shelf.new ≡ S.files shelf.old }
    ensures unreadable { S.unreadable shelf.new ≡ S.unreadable shelf.old }
{
    match read_files(alloc, request.files.as_slice(), shelf) {
        Ok(contents) => run_files(rt, alloc, request, &contents, gate),
        Err(unread) => not_read(alloc, unread),
    }
}

// What is due where a file was not read.
fn not_read(alloc: Global, unread: Unread) -> Due
    ensures { IsUnreadDue unread.file unread.error result }
{
    match unread.error {
        ShelfError::TooLong => too_long(alloc, unread.file),
        ShelfError::Failed => cannot_read(alloc, unread.file),
        ShelfError::Memory => Due::OutOfMemory,
    }
}

// What is due to the contents of the files, none of which is too long.
fn run_files<R: Threads + Wait + Sync, G: Gate + Sync>(
    rt: &R,
    alloc: Global,
    request: &Request,
    contents: &Rows<Bytes>,
    gate: &G,
) -> Due
    requires taken { takes_files request.now.mode (length contents.now) ≡ true }
    requires short { first_long 0 contents.now ≡ None }
    ensures { IsContentsDue (asked_by request.now) contents.now result }
{
    match made_in_mode(rt, alloc, request, contents, gate) {
        Ok(due) => due,
        Err(FileError::Refused(rule, place)) => refused(alloc, rule, place),
        Err(FileError::Memory) => Due::OutOfMemory,
    }
}

// What the mode makes of the contents of the files, or the rule that refuses them.
fn made_in_mode<R: Threads + Wait + Sync, G: Gate + Sync>(
    rt: &R,
    alloc: Global,
    request: &Request,
    contents: &Rows<Bytes>,
    gate: &G,
) -> Result<Due, FileError>
    requires taken { takes_files request.now.mode (length contents.now) ≡ true }
    requires short { first_long 0 contents.now ≡ None }
    ensures made { IfOk result
        (λ due. IsMadeIn request.now.mode (asked_by request.now) contents.now due) }
    ensures refused { IfErr result
        (λ e. IsNotMadeIn request.now.mode (asked_by request.now) contents.now e) }
{
    match request.mode {
        Mode::Program(task) => made_of_program(rt, alloc, task, request, contents, gate),
        Mode::List => Ok(Due::Output(listed(alloc, contents)?)),
        Mode::Assemble => Ok(Due::Output(assembled(alloc, contents)?)),
        Mode::Load => {
            let (finish, text) = ran_load(rt, alloc, gate, request)?;
            Ok(Due::Report(finish, text))
        }
        Mode::Cell => {
            let (finish, text) = ran_cell(rt, alloc, gate, request)?;
            Ok(Due::Report(finish, text))
        }
    }
}

// What the task makes of the program that the files are loaded to, or the rule that refuses them.
fn made_of_program<R: Threads + Wait + Sync, G: Gate + Sync>(
    rt: &R,
    alloc: Global,
    task: Task,
    request: &Request,
    contents: &Rows<Bytes>,
    gate: &G,
) -> Result<Due, FileError>
    requires { takes_files (Program task) (length contents.now) ≡ true }
    ensures made { IfOk result
        (λ due. IsMadeIn (Program task) (asked_by request.now) contents.now due) }
    ensures refused { IfErr result
        (λ e. IsNotMadeIn (Program task) (asked_by request.now) contents.now e) }
{
    let checked = load_program(alloc, contents, request.heap, request.threads)?;
    Ok(made(rt, alloc, gate, task, request, &checked)?)
}
