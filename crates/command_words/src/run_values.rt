//! What the words say of a run, in every program that reads such words.
ghost use Rattle.std.specs.Prelude.{◌≡◌, ◌≤◌, IfOk, IfSome};
ghost use Rattle.clap.specs.Words.{found_of, rows_of};
ghost use Rattle.jvm_types.specs.declared.limits.TheConstants.{LEAST_HEAP, MOST_HEAP, MOST_WORKERS};
ghost use Rattle.machine_types.specs.Settings.{AreSettings};
ghost use Rattle.command_words.specs.RunValues.{are_few as are_few_files, heap_of, order_of};
ghost use Rattle.command_words.specs.RunValues.{settings_of, threads_of};

use crate::found_words::value;
use crate::values::{
    Numbers, USUAL_HEAP, USUAL_PRINTS, USUAL_STEPS, number_or, on_or_off, order_or_none,
};
use clap::ArgMatches;
use jvm_types::Bytes;
use jvm_types::limits::{LEAST_HEAP, MOST_FILES, MOST_HEAP, MOST_LIMIT, MOST_PRINTS, MOST_WORKERS};
use machine_types::Config;
use std::alloc::{AllocError, Global};

const THREADS: Numbers = Numbers {
    unless: 0,
    least: 0,
    most: MOST_WORKERS as u32,
};

const HEAP: Numbers = Numbers {
    unless: USUAL_HEAP,
    least: LEAST_HEAP,
    most: MOST_HEAP,
};

const STEPS: Numbers = Numbers {
    unless: USUAL_STEPS,
    least: 1,
    most: MOST_LIMIT,
};

const TURNS: Numbers = Numbers {
    unless: MOST_LIMIT,
    least: 1,
    most: MOST_LIMIT,
};

const PRINTS: Numbers = Numbers {
    unless: USUAL_PRINTS,
    least: 1,
    most: MOST_PRINTS,
};

const RANGE: Numbers = Numbers {
    unless: MOST_LIMIT,
    least: 1,
    most: MOST_LIMIT,
};

/// Whether a program may be made of so many files: 1 to 64.
pub fn are_few(count: usize) -> bool
    ensures { result ≡ are_few_files count }
{
    matches!(count, 1..=MOST_FILES)
}

/// How many workers there are: 0 to 8, and 0 unless said.
pub fn threads(matches: &ArgMatches<'_>) -> Option<u8>
    ensures bounds { IfSome result (λ n. n ≤ MOST_WORKERS) }
    ensures value { result ≡ threads_of (rows_of (found_of matches.now)) }
{
    let threads = number_or(THREADS, value(matches, "threads"))?;
    Some(threads as u8)
}

/// How many heap words there are: 4,096 to 1,048,576, and 65,536 unless said.
pub fn heap(matches: &ArgMatches<'_>) -> Option<u32>
    ensures bounds { IfSome result (λ n. (LEAST_HEAP ≤ n) × (n ≤ MOST_HEAP)) }
    ensures value { result ≡ heap_of (rows_of (found_of matches.now)) }
{
    number_or(HEAP, value(matches, "heap"))
}

/// The limits of a run, and whether sections are elided.
#[tactic(auto, unfolding(crate::specs::RunValues::settings_of))]
pub fn settings(matches: &ArgMatches<'_>) -> Option<Config>
    ensures bounds { IfSome result AreSettings }
    ensures value { result ≡ settings_of (rows_of (found_of matches.now)) }
{
    let steps = number_or(STEPS, value(matches, "steps"))?;
    let turns = number_or(TURNS, value(matches, "turns"))?;
    let prints = number_or(PRINTS, value(matches, "prints"))?;
    let elide = on_or_off(value(matches, "elide"))?;
    let range = number_or(RANGE, value(matches, "range"))?;
    Some(Config {
        steps,
        turns,
        prints,
        elide,
        range,
    })
}

/// The workers that make the next steps of a replay, each a number from 1 to 8; none where no order
/// is given.
pub fn order(alloc: Global, matches: &ArgMatches<'_>) -> Result<Option<Bytes>, AllocError>
    ensures { IfOk result (λ order. order ≡ order_of (rows_of (found_of matches.now))) }
{
    order_or_none(alloc, value(matches, "order"))
}
