//! The line that an item says.

ghost use Rattle.std.specs.Prelude.{◌≡◌, ◌++◌, map, OnOk, string_bytes};
ghost use Rattle.asm_text.specs.Lines.{Signed, line_text, values_text};
ghost use Rattle.asm_text.specs.CodeLines.{bytes_line, name_or_empty};
ghost use Rattle.asm_text.specs.Items.{item_line, member_keyword};

use crate::class_lines::{write_attr, write_head, write_row};
use crate::code_lines::{name_of, write_bytes};
use crate::items::{Item, MemberKind};
use crate::lines::{write_one, write_signed, write_three, write_two};
use crate::pool_lines::write_constant;
use std::alloc::AllocError;

fn member_name(kind: MemberKind) -> &'static str
    ensures { result.now ≡ member_keyword kind }
{
    match kind {
        MemberKind::Field => "fmember",
        MemberKind::Method => "mmember",
    }
}

fn write_operands(text: &mut String, operands: &[i64]) -> Result<(), AllocError>
    ensures { OnOk result
        (string_bytes text.new ≡ string_bytes text.old ++ values_text (map Signed operands.now)) }
{
    for operand in operands {
        write_signed(text, *operand)?;
    }
    Ok(())
}

fn write_instruction(text: &mut String, opcode: u8, operands: &[i64]) -> Result<(), AllocError>
    ensures { OnOk result (string_bytes text.new ≡ string_bytes text.old
        ++ line_text (item_line (Item.Instruction opcode operands.now))) }
{
    text.push_str(name_of(opcode))?;
    write_operands(text, operands)?;
    text.push_str("\n")
}

/// The line that says this.
pub fn write_item(text: &mut String, item: &Item) -> Result<(), AllocError>
    ensures { OnOk result
        (string_bytes text.new ≡ string_bytes text.old ++ line_text (item_line item.now)) }
{
    match item {
        Item::FileHead(minor, major, flags, class, superclass) => {
            write_head(text, *minor, *major, *flags, *class, *superclass)
        }
        Item::Entry(constant) => write_constant(text, constant),
        Item::Interface(class) => write_one(text, "interface", u64::from(*class)),
        Item::MemberHead(kind, flags, name, descriptor) => {
            write_three(text, member_name(*kind), *flags, *name, *descriptor)
        }
        Item::Attribute(attr) => write_attr(text, attr),
        Item::InitialValue(name, constant) => write_two(text, "value", *name, *constant),
        Item::CodeHead(name, stack, locals) => write_three(text, "code", *name, *stack, *locals),
        Item::CodeBytes(bytes) => write_bytes(text, bytes.as_slice()),
        Item::Instruction(opcode, operands) => {
            write_instruction(text, *opcode, operands.as_slice())
        }
        Item::Row(row) => write_row(text, *row),
        Item::End => text.push_str("end\n"),
    }
}
