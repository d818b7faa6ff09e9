//! Strings, and the members of an object.

ghost use Rattle.std.specs.Prelude.{◌≡◌, ◌<◌, ◌≤◌, ◌++◌, drop, length, IfOk, OnOk};
ghost use Rattle.std.specs.Fmt.{decimal};
ghost use Rattle.json_lines.specs.Json.{skip_behind, character as the_character, character_shown};
ghost use Rattle.json_lines.specs.Json.{hex_digit as the_digit, unit_text, pair_text};
ghost use Rattle.json_lines.specs.Json.{character_text, escaped, json_text, number_member};
ghost use Rattle.json_lines.specs.Json.{text_member};

use crate::characters::{UNKNOWN, front_character};
use std::alloc::{AllocError, Global};

fn hex_digit(n: u32) -> u8
    requires { n < 16 }
    ensures { result ≡ the_digit n }
{
    if n < 10 { 48 + n as u8 } else { 87 + n as u8 }
}

#[tactic(auto, unfolding(crate::specs::Json::unit_text))]
fn write_unit(out: &mut Vec<u8>, n: u32) -> Result<(), AllocError>
    ensures { OnOk result (out.new.items ≡ out.old.items ++ unit_text n) }
{
    out.extend_from_slice(&[
        b'\\',
        b'u',
        hex_digit(n / 4096 % 16),
        hex_digit(n / 256 % 16),
        hex_digit(n / 16 % 16),
        hex_digit(n % 16),
    ])
}

fn write_pair(out: &mut Vec<u8>, n: u32) -> Result<(), AllocError>
    ensures { OnOk result (out.new.items ≡ out.old.items ++ pair_text n) }
{
    write_unit(out, 0xD800 + n.saturating_sub(0x10000) / 1024)?;
    write_unit(out, 0xDC00 + n % 1024)
}

#[tactic(auto, unfolding(crate::specs::Json::character_text))]
fn write_character(out: &mut Vec<u8>, n: u32) -> Result<(), AllocError>
    ensures { OnOk result (out.new.items ≡ out.old.items ++ character_text n) }
{
    match n {
        34 | 92 => out.extend_from_slice(&[b'\\', n as u8]),
        32..127 => {
            out.push(n as u8)?;
            Ok(())
        }
        0..0x10000 => write_unit(out, n),
        0x10000..0x110000 => write_pair(out, n),
        _ => write_unit(out, UNKNOWN),
    }
}

fn after(n: usize, text: &[u8]) -> &[u8]
    requires { n ≤ length text.now }
    ensures { result.now ≡ drop n text.now }
{
    &text[n..]
}

// The character that begins with a byte, unless that is one of those to be skipped; answers how
// many of those behind it are.
fn write_next(out: &mut Vec<u8>, skip: usize, first: u8, rest: &[u8]) -> Result<usize, AllocError>
    ensures skip { IfOk result (λ n. n ≡ skip_behind skip (the_character first rest.now)) }
    ensures text { OnOk result
        (out.new.items ≡ out.old.items ++ character_shown skip (the_character first rest.now)) }
{
    if skip > 0 {
        return Ok(skip - 1);
    }
    let front = front_character(first, rest);
    write_character(out, front.number)?;
    Ok(front.more)
}

fn write_escaped(out: &mut Vec<u8>, text: &[u8]) -> Result<(), AllocError>
    ensures { OnOk result (out.new.items ≡ out.old.items ++ escaped 0 text.now) }
{
    let mut skip = 0;
    for (i, byte) in text.iter().enumerate() {
        skip = write_next(out, skip, *byte, after(i + 1, text))?;
    }
    Ok(())
}

/// A string of JSON, in quotes: what is no ASCII is written as `\uXXXX`, a character beyond 16 bits
/// as two of them, and a byte that is part of no character as `\ufffd`. The text is UTF-8, or the
/// modified UTF-8 of class files (JVMS 4.4.7).
#[tactic(auto, unfolding(crate::specs::Json::json_text))]
pub fn write_json_text(out: &mut Vec<u8>, text: &[u8]) -> Result<(), AllocError>
    ensures { OnOk result (out.new.items ≡ out.old.items ++ json_text text.now) }
{
    out.push(b'"')?;
    write_escaped(out, text)?;
    out.push(b'"')?;
    Ok(())
}

/// A number, in decimal.
pub fn write_json_number(out: &mut Vec<u8>, alloc: Global, n: u64) -> Result<(), AllocError>
    ensures { OnOk result (out.new.items ≡ out.old.items ++ decimal n) }
{
    let mut digits = String::new(alloc);
    write!(digits, "{n}")?;
    out.extend_from_slice(digits.as_bytes())
}

/// A member of an object whose value is a string: `"KEY":"VALUE"`.
pub fn write_text_member(out: &mut Vec<u8>, key: &str, value: &[u8]) -> Result<(), AllocError>
    ensures { OnOk result (out.new.items ≡ out.old.items ++ text_member key.now value.now) }
{
    write_json_text(out, key.as_bytes())?;
    out.push(b':')?;
    write_json_text(out, value)
}

/// A member of an object whose value is a number: `"KEY":N`.
pub fn write_number_member(
    out: &mut Vec<u8>,
    alloc: Global,
    key: &str,
    n: u64,
) -> Result<(), AllocError>
    ensures { OnOk result (out.new.items ≡ out.old.items ++ number_member key.now n) }
{
    write_json_text(out, key.as_bytes())?;
    out.push(b':')?;
    write_json_number(out, alloc, n)
}
