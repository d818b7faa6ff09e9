//! What was and was not expected, as text.

ghost use Rattle.std.specs.Prelude.{◌≡◌, ◌+◌, ◌++◌, ◌||◌, IfOk, OnOk, not};
ghost use Rattle.std.specs.List.{flat_map, list_any};
ghost use Rattle.outcome_texts.specs.Expected.{expectation_text, expectation_text_of};
ghost use Rattle.outcome_texts.specs.Expected.{has_unexpected, is_expected as is_it_expected};
ghost use Rattle.outcome_texts.specs.Expected.{is_unexpected, missing_name as the_missing_name};
ghost use Rattle.outcome_texts.specs.Expected.{missing_text, missing_text_if, unexpected_texts};
ghost use Rattle.outcome_texts.specs.Expected.{unexpected_name as the_unexpected_name};
ghost use Rattle.outcome_texts.specs.Expected.{unexpected_text};

use crate::expected::{all_known, expected_outcomes, is_expected, is_found_among};
use crate::steps::add_words;
use checked_program::Checked;
use json_lines::Form;
use jvm_types::{Bytes, Rows};
use outcomes::Outcomes;
use std::alloc::{AllocError, Global};
use tellings::{Fact, Key, add_count, add_text, write_told};

#[tactic(auto, unfolding(crate::specs::Expected::unexpected_name))]
fn unexpected_name() -> &'static str
    ensures { result.now ≡ the_unexpected_name }
{
    "unexpected"
}

#[tactic(auto, unfolding(crate::specs::Expected::missing_name))]
fn missing_name() -> &'static str
    ensures { result.now ≡ the_missing_name }
{
    "missing"
}

/// Adds that the outcome of a number is not expected, where it is not.
fn write_unexpected(
    out: &mut Vec<u8>,
    alloc: Global,
    form: Form,
    number: u64,
    is_expected: bool,
) -> Result<(), AllocError>
    ensures { OnOk result
        (out.new.items ≡ out.old.items ++ unexpected_text form number is_expected) }
{
    if is_expected {
        return Ok(());
    }
    let mut facts = Rows::new(alloc);
    add_words(&mut facts, alloc, b"not expected")?;
    add_count(&mut facts, Key::InOutcome, number)?;
    write_told(out, alloc, form, unexpected_name(), facts.as_slice())
}

/// Adds which outcomes are not expected, and answers whether some are not.
fn write_all_unexpected(
    out: &mut Vec<u8>,
    alloc: Global,
    form: Form,
    expected: &[Bytes],
    known: &[Bytes],
) -> Result<bool, AllocError>
    ensures text { OnOk result
        (out.new.items ≡ out.old.items ++ unexpected_texts form expected.now 1 known.now) }
    ensures some { IfOk result (λ b. b ≡ has_unexpected expected.now known.now) }
{
    let mut some = false;
    for (i, words) in known.iter().enumerate() {
        let is_so = is_expected(expected, words.as_slice());
        write_unexpected(out, alloc, form, i as u64 + 1, is_so)?;
        some = some || !is_so;
    }
    Ok(some)
}

/// Adds what is expected and was not found, where it was not.
fn write_missing_if(
    out: &mut Vec<u8>,
    alloc: Global,
    form: Form,
    expected: &[u8],
    is_found: bool,
) -> Result<(), AllocError>
    ensures { OnOk result
        (out.new.items ≡ out.old.items ++ missing_text_if form expected.now is_found) }
{
    if is_found {
        return Ok(());
    }
    let mut facts = Rows::new(alloc);
    add_words(&mut facts, alloc, b"expected, and not found")?;
    add_text(&mut facts, alloc, Key::Line, expected)?;
    write_told(out, alloc, form, missing_name(), facts.as_slice())
}

/// Adds which outcomes are expected and were not found.
fn write_all_missing(
    out: &mut Vec<u8>,
    alloc: Global,
    form: Form,
    expected: &[Bytes],
    known: &[Bytes],
) -> Result<(), AllocError>
    ensures { OnOk result
        (out.new.items ≡ out.old.items ++ flat_map (missing_text form known.now) expected.now) }
{
    for line in expected {
        let is_found = is_found_among(known, line.as_slice());
        write_missing_if(out, alloc, form, line.as_slice(), is_found)?;
    }
    Ok(())
}

fn write_differences(
    out: &mut Vec<u8>,
    alloc: Global,
    form: Form,
    expected: &[Bytes],
    known: &[Bytes],
) -> Result<bool, AllocError>
    ensures text { OnOk result
        (out.new.items ≡ out.old.items ++ expectation_text_of form expected.now known.now) }
    ensures some { IfOk result (λ b. b ≡ has_unexpected expected.now known.now) }
{
    let some = write_all_unexpected(out, alloc, form, expected, known)?;
    write_all_missing(out, alloc, form, expected, known)?;
    Ok(some)
}

/// Adds, where a file of expected outcomes is given, which outcomes are not expected, and which are
/// and were not found, and answers whether some are not expected.
pub(crate) fn write_expectation(
    out: &mut Vec<u8>,
    alloc: Global,
    form: Form,
    p: &Checked,
    o: &Outcomes,
    file: &Option<Bytes>,
) -> Result<bool, AllocError>
    ensures text { OnOk result
        (out.new.items ≡ out.old.items ++ expectation_text form p.now.program o.now file.now) }
    ensures some { IfOk result (λ b. b ≡ is_unexpected p.now.program o.now file.now) }
{
    match file {
        Some(lines) => {
            let expected = expected_outcomes(alloc, lines.as_slice())?;
            let known = all_known(alloc, p, o.listed.as_slice())?;
            write_differences(out, alloc, form, expected.as_slice(), known.as_slice())
        }
        None => Ok(false),
    }
}
