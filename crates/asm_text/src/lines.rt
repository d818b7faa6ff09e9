//! The values of a line, each behind one space, and lines of a name and numbers.

ghost use Rattle.std.specs.Prelude.{◌≡◌, ◌++◌, ◌∷◌, ◌<◌, [], codes, OnOk, string_bytes};
ghost use Rattle.std.specs.List.{flat_map};
ghost use Rattle.std.specs.Fmt.{decimal, signed_decimal};
ghost use Rattle.asm_text.specs.Lines.{Number, listed_digit, hex_byte, hex_text, line_text};

use std::alloc::AllocError;

/// A digit of base 16, of a number below 16.
fn hex_digit(n: u8) -> u8
    requires { n < 16 }
    ensures is { result ≡ listed_digit n }
    ensures ascii { result < 128 }
{
    if n < 10 { 48 + n } else { 87 + n }
}

fn write_hex_digit(text: &mut String, n: u8) -> Result<(), AllocError>
    requires { n < 16 }
    ensures { OnOk result (string_bytes text.new ≡ string_bytes text.old ++ listed_digit n ∷ []) }
{
    text.push(char::from(hex_digit(n)))
}

fn write_hex_byte(text: &mut String, byte: u8) -> Result<(), AllocError>
    ensures { OnOk result (string_bytes text.new ≡ string_bytes text.old ++ hex_byte byte) }
{
    write_hex_digit(text, byte / 16)?;
    write_hex_digit(text, byte % 16)
}

fn write_hex_bytes(text: &mut String, bytes: &[u8]) -> Result<(), AllocError>
    ensures { OnOk result
        (string_bytes text.new ≡ string_bytes text.old ++ flat_map hex_byte bytes.now) }
{
    for byte in bytes {
        write_hex_byte(text, *byte)?;
    }
    Ok(())
}

/// Bytes as two digits each, or `-` where there are none.
pub fn write_hex(text: &mut String, bytes: &[u8]) -> Result<(), AllocError>
    ensures { OnOk result
        (string_bytes text.new ≡ string_bytes text.old ++ (codes " " ++ hex_text bytes.now)) }
{
    text.push_str(" ")?;
    if bytes.is_empty() {
        text.push_str("-")
    } else {
        write_hex_bytes(text, bytes)
    }
}

pub fn write_number(text: &mut String, n: u32) -> Result<(), AllocError>
    ensures { OnOk result
        (string_bytes text.new ≡ string_bytes text.old ++ (codes " " ++ decimal n)) }
{
    write!(text, " {n}")
}

pub fn write_signed(text: &mut String, n: i64) -> Result<(), AllocError>
    ensures { OnOk result
        (string_bytes text.new ≡ string_bytes text.old ++ (codes " " ++ signed_decimal n)) }
{
    write!(text, " {n}")
}

/// A line of a name and a number.
pub fn write_one(text: &mut String, name: &str, n: u64) -> Result<(), AllocError>
    ensures { OnOk result (string_bytes text.new
        ≡ string_bytes text.old ++ line_text (record { name = name.now; values = Number n ∷ [] })) }
{
    writeln!(text, "{name} {n}")
}

/// A line of a name and two numbers.
pub fn write_two(text: &mut String, name: &str, a: u16, b: u16) -> Result<(), AllocError>
    ensures { OnOk result (string_bytes text.new ≡ string_bytes text.old
        ++ line_text (record { name = name.now; values = Number a ∷ Number b ∷ [] })) }
{
    writeln!(text, "{name} {a} {b}")
}

/// A line of a name and three numbers.
pub fn write_three(text: &mut String, name: &str, a: u16, b: u16, c: u16) -> Result<(), AllocError>
    ensures { OnOk result (string_bytes text.new ≡ string_bytes text.old
        ++ line_text (record { name = name.now; values = Number a ∷ Number b ∷ Number c ∷ [] })) }
{
    writeln!(text, "{name} {a} {b} {c}")
}
