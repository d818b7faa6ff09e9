//! What a run was asked by.
ghost use Rattle.std.specs.Prelude.{◌≡◌, ◌++◌, IfOk, OnOk, drop, map};
ghost use Rattle.std.specs.Option.{option_copied};
ghost use Rattle.command_words.specs.Words.{texts};
ghost use Rattle.solero_explain.specs.Begins.{begin_facts as the_begin_facts, given_facts};

use jvm_types::{Bytes, Rows};
use std::alloc::{AllocError, Global};
use tellings::{Fact, Key, add_text};

// The words as texts.
fn owned_texts(alloc: Global, words: &[String]) -> Result<Rows<Bytes>, AllocError>
    ensures { IfOk result (λ told. told ≡ texts words.now) }
{
    let mut told = Rows::new(alloc);
    for word in words {
        told.push(Bytes::from_slice(alloc, word.as_bytes())?)?;
    }
    Ok(told)
}

// A fact of an option that is given.
fn add_given(
    facts: &mut Rows<Fact>,
    alloc: Global,
    key: Key,
    given: Option<&str>,
) -> Result<(), AllocError>
    ensures { OnOk result (facts.new ≡ facts.old ++ given_facts key (option_copied given.entry)) }
{
    match given {
        Some(text) => add_text(facts, alloc, key, text.as_bytes()),
        None => Ok(()),
    }
}

// The words behind the first.
fn behind_first(words: &[String]) -> &[String]
    ensures { result.now ≡ drop 1 words.now }
{
    if words.is_empty() { words } else { &words[1..] }
}

/// What a run was asked by: the words of the command, of which the first is the program's name, the
/// names of the files, and the order and the commit where they are given.
pub fn begin_facts(
    alloc: Global,
    words: &[String],
    files: &[String],
    order: Option<&str>,
    commit: Option<&str>,
) -> Result<Rows<Fact>, AllocError>
    ensures { IfOk result (λ facts. facts ≡ the_begin_facts (texts words.now) (texts files.now)
        (option_copied order.entry) (option_copied commit.entry)) }
{
    let mut facts = Rows::new(alloc);
    let words = owned_texts(alloc, behind_first(words))?;
    facts.push(Fact::Texts(Key::RunWords, words))?;
    facts.push(Fact::Texts(Key::Files, owned_texts(alloc, files)?))?;
    add_given(&mut facts, alloc, Key::Order, order)?;
    add_given(&mut facts, alloc, Key::Commit, commit)?;
    Ok(facts)
}
