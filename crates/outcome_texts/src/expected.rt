//! Outcomes that are expected, by lines of an earlier listing.

ghost use Rattle.std.specs.Prelude.{◌≡◌, ◌+◌, ◌++◌, ◌&&◌, ◌||◌, IfOk, OnOk, Some, drop, length};
ghost use Rattle.std.specs.Prelude.{codes, map, not, position};
ghost use Rattle.std.specs.List.{flat_map, list_any};
ghost use Rattle.std.specs.Option.{option_to_list};
ghost use Rattle.outcome_texts.specs.Expected.{all_known as the_known, behind_number as the_behind};
ghost use Rattle.outcome_texts.specs.Expected.{expected_outcomes as the_expected, expected_words};
ghost use Rattle.outcome_texts.specs.Expected.{is_expected as is_it_expected, is_found_among};
ghost use Rattle.outcome_texts.specs.Expected.{is_known_by as is_it_known_by, is_of_word};
ghost use Rattle.outcome_texts.specs.Expected.{is_rest_of_line as is_it_the_rest, known_facts};
ghost use Rattle.outcome_texts.specs.Expected.{known_words as the_words};

use crate::ends::add_ends;
use crate::outcome::outcome_kind;
use crate::parts::{begins_with, behind, parts_between};
use crate::prints::add_prints;
use crate::steps::add_words;
use checked_program::Checked;
use history_rule::Plain;
use jvm_types::{Bytes, Rows};
use outcomes::Listed;
use std::alloc::{AllocError, Global};
use tellings::{Fact, write_facts};

/// What an outcome is known by.
fn known_facts(alloc: Global, p: &Checked, q: &Plain) -> Result<Rows<Fact>, AllocError>
    ensures { IfOk result (λ facts. facts ≡ known_facts p.now.program q.now.state) }
{
    let mut facts = Rows::new(alloc);
    add_words(&mut facts, alloc, outcome_kind(q).as_bytes())?;
    add_prints(&mut facts, alloc, q.prints())?;
    add_ends(&mut facts, alloc, p, q)?;
    Ok(facts)
}

/// The words that an outcome is known by.
fn known_words(alloc: Global, p: &Checked, q: &Plain) -> Result<Bytes, AllocError>
    ensures { IfOk result (λ words. words ≡ the_words p.now.program q.now.state) }
{
    let facts = known_facts(alloc, p, q)?;
    let mut words = Vec::new(alloc);
    write_facts(&mut words, alloc, facts.as_slice())?;
    Ok(Bytes::from_vec(words))
}

/// Of each outcome of a list the words that it is known by.
pub(crate) fn all_known(
    alloc: Global,
    p: &Checked,
    listed: &[Listed],
) -> Result<Rows<Bytes>, AllocError>
    ensures { IfOk result (λ known. known ≡ the_known p.now.program listed.now) }
{
    let mut known = Rows::new(alloc);
    for x in listed {
        known.push(known_words(alloc, p, &x.at.plain)?)?;
    }
    Ok(known)
}

/// Whether a byte is no space and no digit.
fn is_of_word(c: u8) -> bool
    ensures { result ≡ is_of_word c }
{
    !(c == b' ' || (b'0' <= c && c <= b'9'))
}

/// The place of the first byte that is no space and no digit.
fn word_place(text: &[u8]) -> Option<usize>
    ensures { result ≡ position is_of_word text.now }
{
    text.iter().position(|c| is_of_word(*c))
}

/// What stands behind spaces and digits.
fn behind_number(text: &[u8]) -> &[u8]
    ensures { result.now ≡ the_behind text.now }
{
    match word_place(text) {
        Some(i) => behind(text, i),
        None => &[],
    }
}

/// A kind of outcome, and what stands behind the number.
fn numberless(alloc: Global, kind: &[u8], text: &[u8]) -> Result<Bytes, AllocError>
    ensures { IfOk result (λ words. words ≡ kind.now ++ the_behind text.now) }
{
    let mut words = Vec::new(alloc);
    words.extend_from_slice(kind)?;
    words.extend_from_slice(behind_number(text))?;
    Ok(Bytes::from_vec(words))
}

/// The words of a line by which an outcome is expected, or `None` where the line tells of none.
fn words_of_line(alloc: Global, line: &[u8]) -> Result<Option<Bytes>, AllocError>
    ensures { IfOk result (λ words. words ≡ expected_words line.now) }
{
    if begins_with(b"outcome ", line) {
        Ok(Some(numberless(alloc, b"outcome ", behind(line, 8))?))
    } else if begins_with(b"stuck ", line) {
        Ok(Some(numberless(alloc, b"stuck ", behind(line, 6))?))
    } else {
        Ok(None)
    }
}

fn add_if(rows: &mut Rows<Bytes>, words: Option<Bytes>) -> Result<(), AllocError>
    ensures { OnOk result (rows.new ≡ rows.old ++ option_to_list words) }
{
    match words {
        Some(words) => rows.push(words),
        None => Ok(()),
    }
}

/// The outcomes that lines of an earlier listing tell of.
pub(crate) fn expected_outcomes(alloc: Global, file: &[u8]) -> Result<Rows<Bytes>, AllocError>
    ensures { IfOk result (λ rows. rows ≡ the_expected file.now) }
{
    let lines = parts_between(alloc, b'\n', file)?;
    let mut rows = Rows::new(alloc);
    for line in lines.as_slice() {
        let words = words_of_line(alloc, line.as_slice())?;
        add_if(&mut rows, words)?;
    }
    Ok(rows)
}

/// Whether nothing comes but an order, or that there is none.
fn is_rest_of_line(text: &[u8]) -> bool
    ensures { result ≡ is_it_the_rest text.now }
{
    match text {
        [] => true,
        [_, ..] => begins_with(b", order ", text) || begins_with(b", no order ", text),
    }
}

/// Whether a line expects the outcome that is known by some words.
fn is_known_by(expected: &[u8], known: &[u8]) -> bool
    ensures { result ≡ is_it_known_by expected.now known.now }
{
    begins_with(known, expected) && is_rest_of_line(behind(expected, known.len()))
}

/// Whether some line does.
pub(crate) fn is_expected(expected: &[Bytes], known: &[u8]) -> bool
    ensures { result ≡ is_it_expected expected.now known.now }
{
    expected
        .iter()
        .any(|line| is_known_by(line.as_slice(), known))
}

/// Whether an outcome is among these that a line expects.
pub(crate) fn is_found_among(known: &[Bytes], expected: &[u8]) -> bool
    ensures { result ≡ is_found_among known.now expected.now }
{
    known
        .iter()
        .any(|words| is_known_by(expected, words.as_slice()))
}
