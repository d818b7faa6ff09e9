//! The words of the command, read by one simple command of `clap`, and then by the rules for the
//! values.
ghost use Rattle.std.specs.Prelude.{◌≡◌, IfOk, IfSome, [], length, map, option_map, string_bytes};
ghost use Rattle.std.specs.Prelude.{true};
ghost use Rattle.std.specs.Option.{option_copied, unwrap_or};
ghost use Rattle.clap.specs.Words.{app_of, found_of, rows_of};
ghost use Rattle.command_words.specs.RunValues.{are_few as are_few_files};
ghost use Rattle.command_words.specs.Words.{found_in_words, gives_any as gives_any_of, texts};
ghost use Rattle.machine_types.specs.Settings.{AreSettings};
ghost use Rattle.solero_explain.specs.Command.{question, explain_command as command_of, files_of};
ghost use Rattle.solero_explain.specs.Command.{form_asked as the_form, not_read_with, explain_app};
ghost use Rattle.solero_explain.specs.Command.{settings_for as the_settings_for};
ghost use Rattle.solero_explain.specs.Command.{what_of as the_what, with_flag as flag_in};
ghost use Rattle.solero_explain.specs.Requests.{question_by};

use crate::begins::begin_facts;
use crate::forbids::forbidden_or_none;
use crate::request::{Request, What};
use clap::{Arg, ArgAction, ArgMatches, Command};
use command_words::found_words::{found_in, gives_any, names, owned, simple_command, value};
use command_words::run_values::{are_few, heap, order, settings, threads};
use command_words::values::{Numbers, number_or, on_or_off};
use json_lines::Form;
use jvm_types::limits::MOST_LIMIT;
use machine_types::Config;
use outcome_texts::MOST_STATES;
use run_trace::Part;
use std::alloc::{AllocError, Global};

// The options, each with one value.
const OPTIONS: [&str; 16] = [
    "what", "threads", "order", "steps", "turns", "heap", "prints", "elide", "range", "from",
    "events", "fold", "commit", "states", "forbid", "expect",
];

const FROM: Numbers = Numbers {
    unless: 1,
    least: 1,
    most: MOST_LIMIT,
};

const EVENTS: Numbers = Numbers {
    unless: MOST_LIMIT,
    least: 1,
    most: MOST_LIMIT,
};

/// The states that are searched at most, where the words say nothing of them.
pub const USUAL_STATES: u32 = 200_000;

/// The failed turns after which a thread ends where outcomes are asked for, and the words say
/// nothing of them.
pub const USUAL_OUTCOME_TURNS: u32 = 1_000;

const STATES: Numbers = Numbers {
    unless: USUAL_STATES,
    least: 1,
    most: MOST_STATES,
};

// A flag, which has no value.
fn with_flag<'a>(
    alloc: Global,
    command: Command<'a>,
    name: &'a str,
) -> Result<Command<'a>, AllocError>
    ensures { IfOk result (λ c. app_of c ≡ flag_in (app_of command.entry) name.entry.now) }
{
    command.arg(Arg::new(alloc, name).long(name).action(ArgAction::SetTrue))
}

fn explain_command<'a>(alloc: Global) -> Result<Command<'a>, AllocError>
    ensures { IfOk result (λ c. app_of c ≡ explain_app) }
{
    let command = simple_command(alloc, "solero_explain", &OPTIONS)?;
    with_flag(alloc, command, "json")
}

fn what_of(given: Option<&str>) -> Option<What>
    ensures { result ≡ the_what (option_copied given.entry) }
{
    match given {
        Some(text) if text == "refusal" => Some(What::Refusal),
        Some(text) if text == "marks" => Some(What::Marks),
        Some(text) if text == "run" => Some(What::Run),
        Some(text) if text == "outcomes" => Some(What::Outcomes),
        _ => None,
    }
}

// Whether an option is given that is not read with this.
fn gives_unread(matches: &ArgMatches<'_>, what: What) -> bool
    ensures { result ≡ gives_any_of (rows_of (found_of matches.now)) (not_read_with what) }
{
    match what {
        What::Run => gives_any(matches, &["states", "forbid", "expect"]),
        What::Outcomes => { gives_any(matches, &["order", "from", "events", "fold", "commit"]) }
        What::Refusal | What::Marks => gives_any(
            matches,
            &[
                "order", "from", "events", "fold", "commit", "states", "forbid", "expect",
            ],
        ),
    }
}

// The settings, with fewer turns where outcomes are asked for and the words say nothing of turns.
fn settings_for(what: What, turns: Option<&str>, cfg: Config) -> Config
    requires { AreSettings cfg }
    ensures settings { AreSettings result }
    ensures value { result ≡ the_settings_for what (option_copied turns.entry) cfg }
{
    match (what, turns) {
        (What::Outcomes, None) => Config {
            turns: USUAL_OUTCOME_TURNS,
            ..cfg
        },
        _ => cfg,
    }
}

fn form_of(given: Option<&str>) -> Form
    ensures { result ≡ the_form (option_copied given.entry) }
{
    match given {
        Some(text) if text == "true" => Form::Json,
        _ => Form::Lines,
    }
}

// The names of the files, where there are 1 to 64.
fn files(alloc: Global, given: Option<&[&str]>) -> Result<Option<Vec<String>>, AllocError>
    ensures count { IfOk result
        (λ files. IfSome files (λ x. are_few_files (length x.items) ≡ true)) }
    ensures names { IfOk result (λ files.
        option_map (λ x. texts x.items) files
        ≡ files_of (unwrap_or (option_map (λ s. map (λ v. v.now) s.now) given.entry) [])) }
{
    let names = given.unwrap_or(&[]);
    if !are_few(names.len()) {
        return Ok(None);
    }
    Ok(Some(owned(alloc, names)?))
}

// A text of its own, where one is given.
fn owned_text(alloc: Global, given: Option<&str>) -> Result<Option<String>, AllocError>
    ensures { IfOk result
        (λ text. option_map (λ t. string_bytes t) text ≡ option_copied given.entry) }
{
    match given {
        Some(given) => Ok(Some(String::from_str(alloc, given)?)),
        None => Ok(None),
    }
}

// What is asked for, where each value follows its rule.
#[tactic(auto, unfolding(crate::specs::Command::question))]
fn request(
    alloc: Global,
    words: &[String],
    matches: &ArgMatches<'_>,
) -> Result<Option<Request>, AllocError>
    ensures { IfOk result (λ r.
        option_map question_by r ≡ question (texts words.now) (rows_of (found_of matches.now))) }
{
    let Some(what) = what_of(value(matches, "what")) else {
        return Ok(None);
    };
    let Some(files) = files(alloc, names(matches))? else {
        return Ok(None);
    };
    let Some(threads) = threads(matches) else {
        return Ok(None);
    };
    let Some(heap) = heap(matches) else {
        return Ok(None);
    };
    let Some(cfg) = settings(matches) else {
        return Ok(None);
    };
    let Some(order) = order(alloc, matches)? else {
        return Ok(None);
    };
    let form = form_of(value(matches, "json"));
    let Some(from) = number_or(FROM, value(matches, "from")) else {
        return Ok(None);
    };
    let Some(events) = number_or(EVENTS, value(matches, "events")) else {
        return Ok(None);
    };
    let Some(folds) = on_or_off(value(matches, "fold")) else {
        return Ok(None);
    };
    let Some(states) = number_or(STATES, value(matches, "states")) else {
        return Ok(None);
    };
    let Some(forbidden) = forbidden_or_none(alloc, value(matches, "forbid"))? else {
        return Ok(None);
    };
    if gives_unread(matches, what) {
        return Ok(None);
    }
    let cfg = settings_for(what, value(matches, "turns"), cfg);
    let given = value(matches, "order");
    let commit = value(matches, "commit");
    let begin = begin_facts(alloc, words, files.as_slice(), given, commit)?;
    let expect = owned_text(alloc, value(matches, "expect"))?;
    Ok(Some(Request {
        what,
        form,
        files,
        threads,
        heap,
        cfg,
        order,
        begin,
        part: Part {
            from: u64::from(from),
            count: u64::from(events),
            folds,
            form,
        },
        states,
        forbidden,
        expect,
    }))
}

// What is found in the words, where they have no fault.
fn matches_in<'a>(alloc: Global, words: &'a [String]) -> Result<Option<ArgMatches<'a>>, AllocError>
    ensures { IfOk result (λ m.
        option_map (λ x. rows_of (found_of x)) m
        ≡ found_in_words explain_app (texts words.entry.now)) }
{
    let command = explain_command(alloc)?;
    found_in(command, words)
}

/// What the words ask for, of which the first is the program's name. `None`: the words are not
/// read.
#[tactic(auto, unfolding(crate::specs::Command::explain_command))]
pub fn read_words(alloc: Global, words: &[String]) -> Result<Option<Request>, AllocError>
    ensures { IfOk result (λ r. option_map question_by r ≡ command_of (texts words.now)) }
{
    match matches_in(alloc, words)? {
        Some(matches) => request(alloc, words, &matches),
        None => Ok(None),
    }
}
