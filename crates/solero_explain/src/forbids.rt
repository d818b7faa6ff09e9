//! What no run is to do, as the words name it.
ghost use Rattle.std.specs.Prelude.{◌≡◌, ◌≤◌, IfOk, IfSome, [], drop, neg_ℤ, option_map, pos, take};
ghost use Rattle.std.specs.Prelude.{OnOk, bytes_eq, codes};
ghost use Rattle.std.specs.List.{list_any};
ghost use Rattle.std.specs.Option.{option_and_then, option_copied};
ghost use Rattle.outcome_texts.specs.declared.findings.Forbidden.TheVariants.{Print};
ghost use Rattle.solero_explain.specs.Forbids.{digits_number, forbidden_part as the_part};
ghost use Rattle.solero_explain.specs.Forbids.{forbidden_or_none as the_forbidden, forbidden_parts};
ghost use Rattle.solero_explain.specs.Forbids.{java_number as the_number, with_digit, number_from};
ghost use Rattle.solero_explain.specs.Forbids.{forbid_the_same, positive as the_positive};
ghost use Rattle.solero_explain.specs.Forbids.{with_once};

use jvm_types::{Bytes, Rows};
use outcome_texts::{Forbidden, parts_between};
use std::alloc::{AllocError, Global};

// The largest number without its sign.
const MOST_DIGITS_SAY: u64 = 2_147_483_648;

// The number of some digits and one more.
fn digit_behind(n: u32, c: u8) -> Option<u32>
    requires { n ≤ 2147483648 }
    ensures number { result ≡ with_digit n c }
    ensures few { IfSome result (λ m. m ≤ 2147483648) }
{
    if !matches!(c, b'0'..=b'9') {
        return None;
    }
    let m = u64::from(n) * 10 + u64::from(c - b'0');
    if m <= MOST_DIGITS_SAY {
        Some(m as u32)
    } else {
        None
    }
}

fn number_of(digits: &[u8]) -> Option<u32>
    ensures number { result ≡ number_from 0 digits.now }
    ensures few { IfSome result (λ m. m ≤ 2147483648) }
{
    let mut n = 0;
    for c in digits {
        match digit_behind(n, *c) {
            Some(m) => n = m,
            None => return None,
        }
    }
    Some(n)
}

// Digits as a number.
fn digits(text: &[u8]) -> Option<u32>
    ensures number { result ≡ digits_number text.now }
    ensures few { IfSome result (λ m. m ≤ 2147483648) }
{
    if text.is_empty() {
        return None;
    }
    number_of(text)
}

fn negative(text: &[u8]) -> Option<i32>
    ensures { result ≡ option_map (λ n. neg_ℤ (pos n)) (digits_number text.now) }
{
    let n = digits(text)?;
    Some((-i64::from(n)) as i32)
}

fn positive(text: &[u8]) -> Option<i32>
    ensures { result ≡ option_and_then the_positive (digits_number text.now) }
{
    let n = digits(text)?;
    if n < 2_147_483_648 {
        Some(n as i32)
    } else {
        None
    }
}

// A number of Java: digits, before which a minus may stand.
fn java_number(text: &[u8]) -> Option<i32>
    ensures { result ≡ the_number text.now }
{
    match text {
        [] => None,
        [first, others @ ..] if *first == b'-' => negative(others),
        _ => positive(text),
    }
}

fn is_text(text: &[u8], other: &[u8]) -> bool
    ensures { result ≡ bytes_eq text.now other.now }
{
    text == other
}

fn printed(text: &[u8]) -> Option<Forbidden>
    ensures { result ≡ option_map Print (the_number text.now) }
{
    let value = java_number(text)?;
    Some(Forbidden::Print(value))
}

fn front(text: &[u8], count: usize) -> &[u8]
    ensures { result.now ≡ take count text.now }
{
    if count < text.len() {
        &text[..count]
    } else {
        text
    }
}

fn behind(text: &[u8], count: usize) -> &[u8]
    ensures { result.now ≡ drop count text.now }
{
    if count < text.len() {
        &text[count..]
    } else {
        &[]
    }
}

// One thing that no run is to do.
fn forbidden_part(part: &[u8]) -> Option<Forbidden>
    ensures { result ≡ the_part part.now }
{
    if is_text(part, b"stuck") {
        Some(Forbidden::Stuck)
    } else if is_text(part, b"uncaught") {
        Some(Forbidden::Uncaught)
    } else if is_text(front(part, 6), b"print:") {
        printed(behind(part, 6))
    } else {
        None
    }
}

// Whether it is the same.
fn is_same(a: Forbidden, b: Forbidden) -> bool
    ensures { result ≡ forbid_the_same a b }
{
    match (a, b) {
        (Forbidden::Print(one), Forbidden::Print(other)) => one == other,
        (Forbidden::Stuck, Forbidden::Stuck) => true,
        (Forbidden::Uncaught, Forbidden::Uncaught) => true,
        _ => false,
    }
}

// Whether it is among these.
fn is_among(forbidden: &[Forbidden], what: Forbidden) -> bool
    ensures { result ≡ list_any (forbid_the_same what) forbidden.now }
{
    forbidden.iter().any(|other| is_same(what, *other))
}

// Adds one thing, where it is not there.
fn add_once(forbidden: &mut Rows<Forbidden>, what: Forbidden) -> Result<(), AllocError>
    ensures { OnOk result (forbidden.new ≡ with_once forbidden.old what) }
{
    if is_among(forbidden.as_slice(), what) {
        Ok(())
    } else {
        forbidden.push(what)
    }
}

fn forbidden_of(alloc: Global, parts: &[Bytes]) -> Result<Option<Rows<Forbidden>>, AllocError>
    ensures { IfOk result (λ forbidden. forbidden ≡ forbidden_parts [] parts.now) }
{
    let mut forbidden = Rows::new(alloc);
    for part in parts {
        match forbidden_part(part.as_slice()) {
            Some(what) => add_once(&mut forbidden, what)?,
            None => return Ok(None),
        }
    }
    Ok(Some(forbidden))
}

/// What no run is to do: parts with commas between, each of which is `stuck`, `uncaught`, or
/// `print:` and a number of Java; of equal ones the first. None where nothing is given.
pub fn forbidden_or_none(
    alloc: Global,
    given: Option<&str>,
) -> Result<Option<Rows<Forbidden>>, AllocError>
    ensures { IfOk result (λ forbidden. forbidden ≡ the_forbidden (option_copied given.entry)) }
{
    match given {
        Some(text) => {
            let parts = parts_between(alloc, b',', text.as_bytes())?;
            forbidden_of(alloc, parts.as_slice())
        }
        None => Ok(Some(Rows::new(alloc))),
    }
}
