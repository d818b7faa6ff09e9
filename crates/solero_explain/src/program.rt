ghost use Rattle.std.specs.Prelude.{◌≡◌, ◌-◌, ◌^◌, ◌<◌, ◌≤◌, ◌≢◌, ◌⊎◌, ℕ, List, Some, None, IfErr};
ghost use Rattle.std.specs.Prelude.{IfOk};
ghost use Rattle.std.specs.Prelude.{length, true};
ghost use Rattle.std.specs.List.{AllZip};
ghost use Rattle.command_words.specs.RunValues.{are_few};
ghost use Rattle.command_words.specs.Words.{texts};
ghost use Rattle.field_names.specs.FieldNames.{all_field_names};
ghost use Rattle.host_io.specs.Faults.{CountsFault};
ghost use Rattle.host_io.specs.Reading.{first_long};
ghost use Rattle.host_io.specs.Shelf.{IsContentOf};
ghost use Rattle.host_io.specs.declared.shelf.NamedFile.{NamedFile as File};
ghost use Rattle.json_lines.specs.declared.form.Form.TheVariants.{Json};
ghost use Rattle.jvm_types.specs.ClassGrammar.{Spells};
ghost use Rattle.jvm_types.specs.declared.class_file.ClassFile.{ClassFile as Class};
ghost use Rattle.solero_explain.specs.Answer.{AreUnrefused, IsExpected, IsExplainDue, IsTold};
ghost use Rattle.solero_explain.specs.Answer.{IsToldAtLength, RunsFiles};
ghost use Rattle.solero_explain.specs.Answer.{accepted_text as the_accepted_text};
ghost use Rattle.solero_explain.specs.Command.{Question, explain_command};
ghost use Rattle.class_runner.specs.Loading.{IsLoaded};
ghost use Rattle.solero_explain.specs.Parts.{IsDueOf, IsRefusalExplained, IsFoundInFiles};
ghost use Rattle.solero_explain.specs.Parts.{IsDueToExpected, IsFoundIn, IsUnreadExplained};
ghost use Rattle.solero_explain.specs.Parts.{IsWork};
ghost use Rattle.solero_explain.specs.Tracing.{IsAnswered, IsProgramTold, status_of_verdict};
ghost use Rattle.solero_explain.specs.Requests.{question_by};
ghost use Rattle.source_lines.specs.Sources.{sources_of as the_sources_of};

use crate::command::read_words;
use crate::request::{Request, What};
use checked_program::Checked;
use class_runner::{FileError, load_program};
use field_names::field_names;
use host_io::files::{Unread, read_files};
use host_io::shelf::{Shelf, ShelfError};
use host_io::sink::Sink;
use json_lines::{Form, write_text_member};
use jvm_types::limits::{MOST_FILE_BYTES, MOST_FILES};
use jvm_types::{Bytes, CRule, Place, Rows, Rule, in_file};
use mark_reasons::{MarksError, explain_marks};
use outcome_texts::{OutcomesError, Verdict, Watch, explain_outcomes};
use place_names::Names;
use program_answers::answer::{Due, cannot_read};
use program_answers::delivery::deliver;
use program_answers::finish::finish_of;
use refusal_places::explained_refusal;
use run_trace::{TraceError, explain_run};
use source_lines::sources_of;
use std::alloc::{AllocError, Global};

/// The line of use.
pub const USAGE: &str = "usage: solero_explain --what WHAT [options] FILE...\n";

/// What was found to be done.
#[derive(Drop)]
enum Work {
    /// A text is due.
    Due(Due),
    /// The marks, the run or the outcomes of a program are to be told, with the names that its
    /// classes have, and with the file of expected outcomes, where one is asked for.
    Run(Request, Checked, Names, Option<Bytes>),
}

/// Explains what the words ask for: reads the files from the shelf, in order, loads them, and
/// writes to the sink what is to be told of them: a refusal, the marks of the sections with their
/// reasons, a run, event by event, as it goes, or all that runs come to; who watches is told how
/// far the search for these has come. Files that `solero` refuses are refused by the same rule, at
/// the same place, with the names of that place. It answers the status that the process ends with:
/// of a run that is told that of its report; of outcomes 10 where a run does what none is to do,
/// else 12 where one is not expected, else 0 where there is no other, and 11 where there may be.
pub fn top_explain<S: Shelf, W: Watch, K: Sink>(
    alloc: Global,
    words: &Vec<String>,
    shelf: &mut S,
    watch: &mut W,
    sink: &mut K,
) -> u8
    // What the words and the files are owed is written, and answered by its status.
    ensures answer { IsAnswered (explain_command (texts words.now.items)) (S.files shelf.old)
        (S.unreadable shelf.old) (S.faults shelf.old) (S.faults shelf.new) (K.text sink.old)
        (K.text sink.new) (K.faults sink.old) (K.faults sink.new) result }
    ensures files { S.files shelf.new ≡ S.files shelf.old }
    ensures unreadable { S.unreadable shelf.new ≡ S.unreadable shelf.old }

    // Each status comes for its cause, and a fault of the sink goes before all.
    ensures status { result ≤ 12 }
    ensures words_read { result ≡ 2 → explain_command (texts words.now.items) ≡ None }
    ensures words_not_read { explain_command (texts words.now.items) ≡ None
        → (result ≡ 2) ⊎ ((result ≡ 5) ⊎ (result ≡ 6)) }
    // Files that all rules let pass are not refused, whatever is to be told of them.
    ensures accepted { (asked : Question) (files : List File)
        → explain_command (texts words.now.items) ≡ Some asked → S.files shelf.old ≡ Some files
        → AreUnrefused files asked → result ≢ 3 }
    // And all others are, where the shelf does not fail.
    ensures not_accepted { (asked : Question) (files : List File)
        → explain_command (texts words.now.items) ≡ Some asked → S.files shelf.old ≡ Some files
        → ¬ AreUnrefused files asked → S.faults shelf.new ≡ S.faults shelf.old
        → S.faults shelf.old < 2 ^ 64 - 1 → (result ≡ 3) ⊎ ((result ≡ 5) ⊎ (result ≡ 6)) }
    ensures shelf_failed { result ≡ 4 → CountsFault (S.faults shelf.old) (S.faults shelf.new) }
    ensures shelf_fault { S.faults shelf.old < S.faults shelf.new → (4 ≤ result) × (result ≤ 6) }
    ensures sink_failed { result ≡ 5 → CountsFault (K.faults sink.old) (K.faults sink.new) }
    ensures sink_fault { K.faults sink.old < K.faults sink.new → result ≡ 5 }
{
    match work_for(alloc, words, shelf) {
        Work::Due(due) => deliver(sink, USAGE, &due),
        Work::Run(request, checked, names, expected) => {
            tell(alloc, &request, &checked, &names, &expected, watch, sink)
        }
    }
}

/// What was found in the files.
#[derive(Drop)]
enum Found {
    /// A text is due.
    Due(Due),
    /// A program whose marks, run or outcomes are to be told, with the names that its classes have.
    Program(Checked, Names),
}

// The marks are told, and this is answered.
fn marked<K: Sink>(
    alloc: Global,
    request: &Request,
    checked: &Checked,
    names: &Names,
    expected: &Option<Bytes>,
    sink: &mut K,
) -> u8
    ensures { IsProgramTold What.Marks (question_by request.now) checked.now names.now
        expected.now (K.text sink.old) (K.text sink.new) (K.faults sink.old) (K.faults sink.new)
        result }
{
    match explain_marks(alloc, request.form, checked, &names.sources, sink) {
        Ok(()) => 0,
        Err(MarksError::Failed) => 5,
        Err(MarksError::Memory) => 6,
    }
}

// The run is told, and this is answered.
fn traced<K: Sink>(
    alloc: Global,
    request: &Request,
    checked: &Checked,
    names: &Names,
    expected: &Option<Bytes>,
    sink: &mut K,
) -> u8
    ensures { IsProgramTold What.Run (question_by request.now) checked.now names.now
        expected.now (K.text sink.old) (K.text sink.new) (K.faults sink.old) (K.faults sink.new)
        result }
{
    match explain_run(
        alloc,
        checked,
        &request.cfg,
        &request.order,
        names,
        &request.begin,
        request.part,
        sink,
    ) {
        Ok(outcome) => finish_of(&outcome).status(),
        Err(TraceError::Failed) => 5,
        Err(TraceError::Memory) => 6,
    }
}

// What the outcomes come to, as a status.
fn status_of(verdict: Verdict) -> u8
    ensures { result ≡ status_of_verdict verdict }
{
    match verdict {
        Verdict::NoOther => 0,
        Verdict::Found => 10,
        Verdict::Unexpected => 12,
        Verdict::Unknown => 11,
    }
}

// The outcomes are told, and this is answered.
fn searched<W: Watch, K: Sink>(
    alloc: Global,
    request: &Request,
    checked: &Checked,
    names: &Names,
    expected: &Option<Bytes>,
    watch: &mut W,
    sink: &mut K,
) -> u8
    ensures { IsProgramTold What.Outcomes (question_by request.now) checked.now names.now
        expected.now (K.text sink.old) (K.text sink.new) (K.faults sink.old) (K.faults sink.new)
        result }
{
    match explain_outcomes(
        alloc,
        request.form,
        checked,
        &request.cfg,
        &names.sources,
        request.states,
        request.forbidden.as_slice(),
        expected,
        watch,
        sink,
    ) {
        Ok(verdict) => status_of(verdict),
        Err(OutcomesError::Failed) => 5,
        Err(OutcomesError::Memory) => 6,
    }
}

// What is asked for is told of a program.
fn tell<W: Watch, K: Sink>(
    alloc: Global,
    request: &Request,
    checked: &Checked,
    names: &Names,
    expected: &Option<Bytes>,
    watch: &mut W,
    sink: &mut K,
) -> u8
    requires { IsToldAtLength request.now.what }
    ensures { IsProgramTold request.now.what (question_by request.now) checked.now names.now
        expected.now (K.text sink.old) (K.text sink.new) (K.faults sink.old) (K.faults sink.new)
        result }
{
    match request.what {
        What::Refusal => unreachable!(),
        What::Marks => marked(alloc, request, checked, names, expected, sink),
        What::Run => traced(alloc, request, checked, names, expected, sink),
        What::Outcomes => searched(alloc, request, checked, names, expected, watch, sink),
    }
}

// What is to be done for the words.
fn work_for<S: Shelf>(alloc: Global, words: &Vec<String>, shelf: &mut S) -> Work
    ensures work { IsWork (explain_command (texts words.now.items)) (S.files shelf.old)
        (S.unreadable shelf.old) (S.faults shelf.old) (S.faults shelf.new) result }
    ensures files { S.files shelf.new ≡ S.files shelf.old }
    ensures unreadable { S.unreadable shelf.new ≡ S.unreadable shelf.old }
{
    match read_words(alloc, words.as_slice()) {
        Ok(Some(request)) => work_on(alloc, request, shelf),
        Ok(None) => Work::Due(Due::Usage),
        Err(AllocError) => Work::Due(Due::OutOfMemory),
    }
}

// What is to be done for a request.
fn work_on<S: Shelf>(alloc: Global, request: Request, shelf: &mut S) -> Work
    ensures work { IsWork (Some (question_by request)) (S.files shelf.old) (S.unreadable shelf.old)
        (S.faults shelf.old) (S.faults shelf.new) result }
    ensures files { S.files shelf.new ≡ S.files shelf.old }
    ensures unreadable { S.unreadable shelf.new ≡ S.unreadable shelf.old }
{
    match find(alloc, &request, shelf) {
        Found::Due(due) => Work::Due(due),
        Found::Program(checked, names) => work_with(alloc, request, checked, names, shelf),
    }
}

// What is to be done for a request, of a program.
#[tactic(auto, using(crate::proofs::Expectation::expected_due))]
fn work_with<S: Shelf>(
    alloc: Global,
    request: Request,
    checked: Checked,
    names: Names,
    shelf: &mut S,
) -> Work
    requires { RunsFiles (S.files shelf.old) (question_by request) checked names }
    ensures work { IsWork (Some (question_by request)) (S.files shelf.old) (S.unreadable shelf.old)
        (S.faults shelf.old) (S.faults shelf.new) result }
    ensures files { S.files shelf.new ≡ S.files shelf.old }
    ensures unreadable { S.unreadable shelf.new ≡ S.unreadable shelf.old }
{
    match expected_file(alloc, &request, shelf) {
        Ok(expected) => Work::Run(request, checked, names, expected),
        Err(due) => Work::Due(due),
    }
}

// The file of expected outcomes, where one is asked for, or what is due where it is not read.
fn expected_file<S: Shelf>(
    alloc: Global,
    request: &Request,
    shelf: &mut S,
) -> Result<Option<Bytes>, Due>
    ensures files { S.files shelf.new ≡ S.files shelf.old }
    ensures unreadable { S.unreadable shelf.new ≡ S.unreadable shelf.old }
    ensures ok { IfOk result (λ file. (S.faults shelf.new ≡ S.faults shelf.old)
        × IsExpected (S.files shelf.old) (question_by request.now).expect file) }
    ensures err { IfErr result (λ due. IsDueToExpected (S.unreadable shelf.old)
        (question_by request.now).expect (length (question_by request.now).files)
        (S.faults shelf.old) (S.faults shelf.new) due) }
{
    match &request.expect {
        Some(name) => {
            let content = read_expected(alloc, name.as_str(), request.files.len() as u16, shelf)?;
            Ok(Some(content))
        }
        None => Ok(None),
    }
}

// The content of the file of that name, which may be of any length, or what is due where it is not
// read, with a number for the file.
#[tactic(auto, using(crate::proofs::Expectation::unread_expected))]
fn read_expected<S: Shelf>(
    alloc: Global,
    name: &str,
    number: u16,
    shelf: &mut S,
) -> Result<Bytes, Due>
    ensures files { S.files shelf.new ≡ S.files shelf.old }
    ensures unreadable { S.unreadable shelf.new ≡ S.unreadable shelf.old }
    ensures ok { IfOk result (λ content. (S.faults shelf.new ≡ S.faults shelf.old)
        × IsContentOf (S.files shelf.old) name.now content) }
    ensures err { IfErr result (λ due. IsDueToExpected (S.unreadable shelf.old) (Some name.now)
        number (S.faults shelf.old) (S.faults shelf.new) due) }
{
    match shelf.read_file(alloc, name, u64::MAX) {
        Ok(content) => Ok(content),
        Err(ShelfError::Failed) => Err(cannot_read(alloc, number)),
        Err(ShelfError::Memory | ShelfError::TooLong) => Err(Due::OutOfMemory),
    }
}

// What is found in the files that are asked for.
fn find<S: Shelf>(alloc: Global, request: &Request, shelf: &mut S) -> Found
    ensures found { IsFoundInFiles (S.files shelf.old) (S.unreadable shelf.old)
        (question_by request.now) (S.faults shelf.old) (S.faults shelf.new) result }
    ensures files { S.files shelf.new ≡ S.files shelf.old }
    ensures unreadable { S.unreadable shelf.new ≡ S.unreadable shelf.old }
{
    match read_files(alloc, request.files.as_slice(), shelf) {
        Ok(contents) => found_in(alloc, request, &contents),
        Err(unread) => Found::Due(not_read(alloc, request, unread)),
    }
}

// What is due where a file was not read.
fn not_read(alloc: Global, request: &Request, unread: Unread) -> Due
    ensures { IsUnreadExplained (question_by request.now) unread.file unread.error result }
{
    match unread.error {
        ShelfError::TooLong => explained(
            alloc,
            request,
            Rule::C(CRule::C10),
            in_file(unread.file, MOST_FILE_BYTES as u32),
            &[],
        ),
        ShelfError::Failed => cannot_read(alloc, unread.file),
        ShelfError::Memory => Due::OutOfMemory,
    }
}

// What refuses the files, explained with the contents that were read.
fn explained(alloc: Global, request: &Request, rule: Rule, place: Place, contents: &[Bytes]) -> Due
    requires { length contents.now ≤ MOST_FILES }
    ensures { IsRefusalExplained (question_by request.now) rule place contents.now result }
{
    let files = request.files.as_slice();
    match explained_refusal(alloc, request.form, rule, place, files, contents) {
        Ok(text) => Due::Refusal(text),
        Err(AllocError) => Due::OutOfMemory,
    }
}

// What is found in the contents of the files, none of which is too long.
fn found_in(alloc: Global, request: &Request, contents: &Rows<Bytes>) -> Found
    requires few { are_few (length contents.now) ≡ true }
    requires short { first_long 0 contents.now ≡ None }
    ensures { IsFoundIn (question_by request.now) contents.now result }
{
    match load_program(alloc, contents, request.heap, request.threads) {
        Ok(checked) => found_of(alloc, request, contents, checked),
        Err(FileError::Refused(rule, place)) => {
            Found::Due(explained(alloc, request, rule, place, contents.as_slice()))
        }
        Err(FileError::Memory) => Found::Due(Due::OutOfMemory),
    }
}

// The names that the classes have which the contents spell.
fn names_of(alloc: Global, contents: &Rows<Bytes>) -> Result<Names, AllocError>
    ensures fields { IfOk result (λ names.
        (classes : List Class) → AllZip Spells contents.now classes
        → names.fields ≡ all_field_names classes) }
    ensures sources { IfOk result (λ names.
        (classes : List Class) → AllZip Spells contents.now classes
        → names.sources ≡ the_sources_of classes) }
{
    let fields = field_names(alloc, contents)?;
    let sources = sources_of(alloc, contents)?;
    Ok(Names { fields, sources })
}

// What is found where the files are loaded to a program.
fn found_of(alloc: Global, request: &Request, contents: &Rows<Bytes>, checked: Checked) -> Found
    requires { IsLoaded contents.now request.now.heap request.now.threads checked }
    ensures { IsFoundIn (question_by request.now) contents.now result }
{
    match request.what {
        What::Refusal => Found::Due(due_of(accepted_text(alloc, request.form))),
        What::Marks | What::Run | What::Outcomes => match names_of(alloc, contents) {
            Ok(names) => Found::Program(checked, names),
            Err(AllocError) => Found::Due(Due::OutOfMemory),
        },
    }
}

// A text that is told, or want of memory.
fn due_of(text: Result<Bytes, AllocError>) -> Due
    ensures { IsDueOf text result }
{
    match text {
        Ok(text) => Due::Output(text),
        Err(AllocError) => Due::OutOfMemory,
    }
}

// The text of files that no rule refuses.
fn accepted_text(alloc: Global, form: Form) -> Result<Bytes, AllocError>
    ensures { IfOk result (λ text. text ≡ the_accepted_text form) }
{
    match form {
        Form::Lines => Bytes::from_slice(alloc, b"accepted\n"),
        Form::Json => accepted_object(alloc),
    }
}

fn accepted_object(alloc: Global) -> Result<Bytes, AllocError>
    ensures { IfOk result (λ text. text ≡ the_accepted_text Json) }
{
    let mut text = Vec::new(alloc);
    text.push(b'{')?;
    write_text_member(&mut text, "what", b"accepted")?;
    text.extend_from_slice(b"}\n")?;
    Ok(Bytes::from_vec(text))
}
