//! The lines of the constant pool (JVMS 4.4).

ghost use Rattle.std.specs.Prelude.{◌≡◌, ◌++◌, map, OnOk, string_bytes};
ghost use Rattle.asm_text.specs.Lines.{line_text, text_of};
ghost use Rattle.asm_text.specs.ClassLines.{constant_line};
ghost use Rattle.jvm_types.specs.declared.class_file.Constant.TheVariants.{Utf8};

use crate::lines::{write_hex, write_one, write_two};
use jvm_types::Constant;
use std::alloc::AllocError;

fn write_utf8(text: &mut String, bytes: &[u8]) -> Result<(), AllocError>
    ensures { OnOk result (string_bytes text.new
        ≡ string_bytes text.old ++ line_text (constant_line (Utf8 bytes.now))) }
{
    text.push_str("utf8")?;
    write_hex(text, bytes)?;
    text.push_str("\n")
}

/// The line of an entry.
pub fn write_constant(text: &mut String, constant: &Constant) -> Result<(), AllocError>
    ensures { OnOk result
        (string_bytes text.new ≡ string_bytes text.old ++ line_text (constant_line constant.now)) }
{
    match constant {
        Constant::Gap => text.push_str("gap\n"),
        Constant::Utf8(bytes) => write_utf8(text, bytes.as_slice()),
        Constant::Integer(n) => writeln!(text, "integer {n}"),
        Constant::Float(n) => write_one(text, "float", u64::from(*n)),
        Constant::Long(n) => write_one(text, "long", *n),
        Constant::Double(n) => write_one(text, "double", *n),
        Constant::Class(name) => write_one(text, "class", u64::from(*name)),
        Constant::Text(string) => write_one(text, "string", u64::from(*string)),
        Constant::Field(class, member) => write_two(text, "field", *class, *member),
        Constant::Method(class, member) => write_two(text, "method", *class, *member),
        Constant::InterfaceMethod(class, member) => write_two(text, "imethod", *class, *member),
        Constant::NameAndType(name, descriptor) => write_two(text, "nametype", *name, *descriptor),
    }
}

/// The lines of the entries.
pub fn write_constants(text: &mut String, constants: &[Constant]) -> Result<(), AllocError>
    ensures { OnOk result (string_bytes text.new
        ≡ string_bytes text.old ++ text_of (map constant_line constants.now)) }
{
    for constant in constants {
        write_constant(text, constant)?;
    }
    Ok(())
}
