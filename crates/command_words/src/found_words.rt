//! What `clap` finds in the words of a command: options, each with one value, and names.
ghost use Rattle.std.specs.Prelude.{◌≡◌, IfOk, Some, codes, length, map, option_map, true};
ghost use Rattle.std.specs.Option.{option_copied};
ghost use Rattle.clap.specs.Words.{all_of, app_of, first_of, found_of, is_simple};
ghost use Rattle.clap.specs.Words.{is_simple_and_free, rows_of};
ghost use Rattle.command_words.specs.Words.{command_of, found_in_words, gives_any as gives_any_of};
ghost use Rattle.command_words.specs.Words.{is_given as is_option_given, texts};
ghost use Rattle.command_words.specs.Words.{with_names as names_in, with_option as option_in};

use clap::error::ErrorKind;
use clap::{Arg, ArgAction, ArgMatches, Command};
use std::alloc::{AllocError, Global};

/// Adds an option with one value.
pub fn with_option<'a>(
    alloc: Global,
    command: Command<'a>,
    name: &'a str,
) -> Result<Command<'a>, AllocError>
    ensures { IfOk result (λ c. app_of c ≡ option_in (app_of command.entry) name.entry.now) }
{
    command.arg(Arg::new(alloc, name).long(name))
}

// Adds any number of names.
fn with_names<'a>(
    alloc: Global,
    command: Command<'a>,
    name: &'a str,
) -> Result<Command<'a>, AllocError>
    ensures { IfOk result (λ c. app_of c ≡ names_in (app_of command.entry) name.entry.now) }
{
    command.arg(Arg::new(alloc, name).action(ArgAction::Append))
}

/// The command of a program: options of these names, each with one value, and any number of files.
pub fn simple_command<'a>(
    alloc: Global,
    program: &'a str,
    options: &[&'a str],
) -> Result<Command<'a>, AllocError>
    ensures { IfOk result
        (λ c. app_of c ≡ command_of program.entry.now (map (λ o. o.now) options.now)) }
{
    let mut command = Command::new(alloc, program);
    for option in options {
        command = with_option(alloc, command, *option)?;
    }
    with_names(alloc, command, "FILE")
}

/// What is found in the words, the first of which is the program's name. `None`: they have a fault.
pub fn found_in<'a>(
    command: Command<'a>,
    words: &'a [String],
) -> Result<Option<ArgMatches<'a>>, AllocError>
    requires simple { is_simple (app_of command) ≡ true }
    requires free { is_simple_and_free (app_of command) ≡ true }
    ensures { IfOk result (λ m.
        option_map (λ x. rows_of (found_of x)) m
        ≡ found_in_words (app_of command.entry) (texts words.entry.now)) }
{
    match command.try_get_matches_from(words) {
        Ok(matches) => Ok(Some(matches)),
        Err(error) => {
            if error.kind() == ErrorKind::OutOfMemory {
                return Err(AllocError);
            }
            Ok(None)
        }
    }
}

/// The value of an option, where it is given.
pub fn value<'a>(matches: &ArgMatches<'a>, name: &str) -> Option<&'a str>
    ensures { option_copied result ≡ first_of name.now (rows_of (found_of matches.now)) }
{
    matches.get_str(name)
}

/// The names that are given.
pub fn names<'m, 'a>(matches: &'m ArgMatches<'a>) -> Option<&'m [&'a str]>
    ensures { option_map (λ s. map (λ v. v.now) s.now) result
        ≡ all_of (codes "FILE") (rows_of (found_of matches.now)) }
{
    matches.get_strs("FILE")
}

/// The names as texts of their own.
pub fn owned(alloc: Global, names: &[&str]) -> Result<Vec<String>, AllocError>
    ensures count { IfOk result (λ files. length files.items ≡ length names.now) }
    ensures names { IfOk result (λ files. texts files.items ≡ map (λ s. s.now) names.now) }
{
    let mut files = Vec::new(alloc);
    for name in names {
        files.push(String::from_str(alloc, name)?)?;
    }
    Ok(files)
}

/// Whether an option is given.
pub fn is_given(matches: &ArgMatches<'_>, name: &str) -> bool
    ensures { result ≡ is_option_given (rows_of (found_of matches.now)) name.now }
{
    value(matches, name).is_some()
}

/// Whether one of these options is given.
pub fn gives_any(matches: &ArgMatches<'_>, names: &[&str]) -> bool
    ensures { result ≡ gives_any_of (rows_of (found_of matches.now)) (map (λ n. n.now) names.now) }
{
    for name in names {
        if is_given(matches, *name) {
            return true;
        }
    }
    false
}
