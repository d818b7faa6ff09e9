//! The words of `solero`, read by one simple command of `clap`, and then by the rules for the
//! values.
ghost use Rattle.std.specs.Prelude.{◌≡◌, IfOk, IfSome, [], length, map, option_map, true};
ghost use Rattle.std.specs.Option.{unwrap_or};
ghost use Rattle.clap.specs.Words.{found_of, rows_of};
ghost use Rattle.command_words.specs.Command.{asked, command as command_of, files_for, not_read};
ghost use Rattle.command_words.specs.Command.{takes_files, the_command};
ghost use Rattle.command_words.specs.Requests.{asked_by};
ghost use Rattle.command_words.specs.Words.{found_in_words, gives_any as gives_any_of, texts};

use crate::found_words::{found_in, gives_any, names, owned, simple_command, value};
use crate::request::{Mode, Request, Task};
use crate::run_values::{heap, order, settings, threads};
use crate::values::{
    MOST_EVENTS, MOST_SIZE, Numbers, USUAL_SIZE, green_or_none, memory_or_table, mode_or_replay,
    number_or,
};
use clap::ArgMatches;
use jvm_types::limits::MOST_LIMIT;
use std::alloc::{AllocError, Global};

/// The options of the command, each with one value.
const OPTIONS: [&str; 15] = [
    "mode", "threads", "order", "steps", "turns", "heap", "prints", "elide", "range", "memory",
    "size", "seed", "events", "workers", "turn",
];

const SIZE: Numbers = Numbers {
    unless: USUAL_SIZE,
    least: 1,
    most: MOST_SIZE,
};

const SEED: Numbers = Numbers {
    unless: 0,
    least: 0,
    most: MOST_LIMIT,
};

const EVENTS: Numbers = Numbers {
    unless: MOST_EVENTS,
    least: 1,
    most: MOST_EVENTS,
};

// The names of the files, where the mode takes so many.
fn files(
    alloc: Global,
    mode: Mode,
    given: Option<&[&str]>,
) -> Result<Option<Vec<String>>, AllocError>
    ensures count { IfOk result
        (λ files. IfSome files (λ x. takes_files mode (length x.items) ≡ true)) }
    ensures names { IfOk result (λ files.
        option_map (λ x. texts x.items) files ≡ files_for mode
        (unwrap_or (option_map (λ s. map (λ v. v.now) s.now) given.entry) [])) }
{
    let names = given.unwrap_or(&[]);
    if !mode.takes(names.len()) {
        return Ok(None);
    }
    Ok(Some(owned(alloc, names)?))
}

// Whether an option is given that the mode doesn't read.
fn gives_unread(matches: &ArgMatches<'_>, mode: Mode) -> bool
    ensures { result ≡ gives_any_of (rows_of (found_of matches.now)) (not_read mode) }
{
    match mode {
        Mode::Program(Task::Replay) => gives_any(
            matches,
            &["memory", "size", "seed", "events", "workers", "turn"],
        ),
        Mode::Program(Task::Run) => gives_any(matches, &["order", "size", "seed", "events"]),
        Mode::Program(Task::Record) => gives_any(
            matches,
            &["order", "memory", "size", "seed", "workers", "turn"],
        ),
        Mode::Load => gives_any(matches, &["order", "events", "workers", "turn"]),
        Mode::Cell => gives_any(
            matches,
            &["order", "memory", "seed", "events", "workers", "turn"],
        ),
        Mode::Program(Task::Mark) | Mode::List | Mode::Assemble => gives_any(
            matches,
            &[
                "order", "memory", "size", "seed", "events", "workers", "turn",
            ],
        ),
    }
}

// What is asked for, where each value follows its rule.
#[tactic(auto, unfolding(crate::specs::Command::asked))]
fn request(alloc: Global, matches: &ArgMatches<'_>) -> Result<Option<Request>, AllocError>
    ensures { IfOk result (λ r. option_map asked_by r ≡ asked (rows_of (found_of matches.now))) }
{
    let Some(mode) = mode_or_replay(value(matches, "mode")) else {
        return Ok(None);
    };
    let Some(files) = files(alloc, mode, names(matches))? else {
        return Ok(None);
    };
    let Some(threads) = threads(matches) else {
        return Ok(None);
    };
    let Some(heap) = heap(matches) else {
        return Ok(None);
    };
    let Some(cfg) = settings(matches) else {
        return Ok(None);
    };
    let Some(order) = order(alloc, matches)? else {
        return Ok(None);
    };
    let Some(memory) = memory_or_table(value(matches, "memory")) else {
        return Ok(None);
    };
    let Some(size) = number_or(SIZE, value(matches, "size")) else {
        return Ok(None);
    };
    let Some(seed) = number_or(SEED, value(matches, "seed")) else {
        return Ok(None);
    };
    let Some(events) = number_or(EVENTS, value(matches, "events")) else {
        return Ok(None);
    };
    let Some(green) = green_or_none(memory, value(matches, "workers"), value(matches, "turn"))
    else {
        return Ok(None);
    };
    if gives_unread(matches, mode) {
        return Ok(None);
    }
    Ok(Some(Request {
        mode,
        files,
        threads,
        heap,
        cfg,
        order,
        memory,
        size,
        seed,
        events,
        green,
    }))
}

// What is found in the words, where they have no fault.
fn matches_in<'a>(alloc: Global, words: &'a [String]) -> Result<Option<ArgMatches<'a>>, AllocError>
    ensures { IfOk result (λ m.
        option_map (λ x. rows_of (found_of x)) m
        ≡ found_in_words the_command (texts words.entry.now)) }
{
    let command = simple_command(alloc, "solero", &OPTIONS)?;
    found_in(command, words)
}

/// What the words ask for, of which the first is the program's name. `None`: the words are not
/// read.
#[tactic(auto, unfolding(crate::specs::Command::command))]
pub fn read_words(alloc: Global, words: &[String]) -> Result<Option<Request>, AllocError>
    ensures { IfOk result (λ r. option_map asked_by r ≡ command_of (texts words.now)) }
{
    match matches_in(alloc, words)? {
        Some(matches) => request(alloc, &matches),
        None => Ok(None),
    }
}
