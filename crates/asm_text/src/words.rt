//! The words of a line, and what they say.

ghost use Rattle.std.specs.Prelude.{◌≡◌, ◌≤◌, map, slice_get, IfOk, drop};
ghost use Rattle.std.specs.Option.{option_map};
ghost use Rattle.asm_text.specs.Words.{words, word_at, unsigned, small, signed, hex_digit_of};
ghost use Rattle.asm_text.specs.Words.{hex_bytes, u2_word, u4_word, u8_word, s4_word, hex_word};
ghost use Rattle.asm_text.specs.Words.{operand_words};

use jvm_types::{Bytes, Rows};
use std::alloc::{AllocError, Global};

fn nth_word(line: &[u8], number: usize) -> Option<&[u8]>
    ensures { option_map (λ x. x.now) result ≡ slice_get (words line.now) number }
{
    line.split(|byte| *byte == b' ').nth(number)
}

/// The word of this number, counted from 0, or nothing where there are not so many.
pub fn word_at(line: &[u8], number: usize) -> &[u8]
    ensures { result.now ≡ word_at (words line.now) number }
{
    match nth_word(line, number) {
        Some(word) => word,
        None => &[],
    }
}

/// The number that digits say, in 64 bits.
fn unsigned(word: &[u8]) -> u64
    ensures { result ≡ unsigned word.now }
{
    let mut number = 0u64;
    for digit in word {
        number = number
            .wrapping_mul(10)
            .wrapping_add(u64::from(digit.saturating_sub(48)));
    }
    number
}

/// 0 in the place of a number that isn't below another.
fn small(limit: u64, number: u64) -> u64
    ensures { result ≡ small limit number }
{
    if number < limit { number } else { 0 }
}

/// A number that may have a dash in front.
fn signed(limit: u64, word: &[u8]) -> i64
    requires { limit ≤ 4294967296 }
    ensures { result ≡ signed limit word.now }
{
    match word {
        [] => 0,
        [b'-', digits @ ..] => -(small(2147483649, unsigned(digits)) as i64),
        [_, ..] => small(limit, unsigned(word)) as i64,
    }
}

fn hex_digit_of(digit: u8) -> u8
    ensures { result ≡ hex_digit_of digit }
{
    if digit < 97 {
        digit.saturating_sub(48) % 16
    } else {
        (digit - 87) % 16
    }
}

fn hex_bytes(alloc: Global, word: &[u8]) -> Result<Bytes, AllocError>
    ensures { IfOk result (λ bytes. bytes ≡ hex_bytes word.now) }
{
    let mut bytes = Bytes::new(alloc);
    let mut rest = word;
    while let [high, low, more @ ..] = rest {
        bytes.push(16 * hex_digit_of(*high) + hex_digit_of(*low))?;
        rest = more;
    }
    Ok(bytes)
}

/// A number of 16 bits.
pub fn u2_word(line: &[u8], number: usize) -> u16
    ensures { result ≡ u2_word (words line.now) number }
{
    small(65536, unsigned(word_at(line, number))) as u16
}

/// A number of 32 bits.
pub fn u4_word(line: &[u8], number: usize) -> u32
    ensures { result ≡ u4_word (words line.now) number }
{
    small(4294967296, unsigned(word_at(line, number))) as u32
}

/// A number of 64 bits.
pub fn u8_word(line: &[u8], number: usize) -> u64
    ensures { result ≡ u8_word (words line.now) number }
{
    unsigned(word_at(line, number))
}

/// A signed number of 32 bits.
pub fn s4_word(line: &[u8], number: usize) -> i32
    ensures { result ≡ s4_word (words line.now) number }
{
    signed(2147483648, word_at(line, number)) as i32
}

/// Bytes by their digits.
pub fn hex_word(alloc: Global, line: &[u8], number: usize) -> Result<Bytes, AllocError>
    ensures { IfOk result (λ bytes. bytes ≡ hex_word (words line.now) number) }
{
    hex_bytes(alloc, word_at(line, number))
}

fn split_words(alloc: Global, line: &[u8]) -> Result<Vec<&[u8]>, AllocError>
    ensures { IfOk result (λ ws. map (λ w. w.now) ws.items ≡ words line.now) }
{
    line.split(|byte| *byte == b' ').collect(alloc)
}

fn numbers_of(alloc: Global, ws: &[&[u8]]) -> Result<Rows<i64>, AllocError>
    ensures { IfOk result (λ numbers. numbers ≡ map (signed 4294967296) (map (λ w. w.now) ws.now)) }
{
    let mut numbers = Rows::new(alloc);
    for word in ws {
        numbers.push(signed(4294967296, word))?;
    }
    Ok(numbers)
}

/// The numbers of all words behind the first one.
pub fn operand_words(alloc: Global, line: &[u8]) -> Result<Rows<i64>, AllocError>
    ensures { IfOk result (λ numbers. numbers ≡ operand_words (words line.now)) }
{
    let ws = split_words(alloc, line)?;
    match ws.as_slice() {
        [_, operands @ ..] => numbers_of(alloc, operands),
        [] => Ok(Rows::new(alloc)),
    }
}
