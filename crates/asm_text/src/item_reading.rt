//! Reading one line: what it says is spelled again, and compared with it.

ghost use Rattle.std.specs.Prelude.{◌≡◌, ◌++◌, ◌∷◌, [], ◌&&◌, bytes_eq, IfOk, OnOk, string_bytes};
ghost use Rattle.asm_text.specs.Lines.{line_text};
ghost use Rattle.asm_text.specs.Items.{item_line};
ghost use Rattle.asm_text.specs.Words.{words, u2_word};
ghost use Rattle.asm_text.specs.Reading.{named_item, rough_item, insn_fits, shape_fits, IsLineRead};

use crate::item_writing::write_item;
use crate::items::{Item, MemberKind};
use crate::line_names::{LineName, is_same_text, line_name_of};
use crate::shapes::{operands_fit, shape_at};
use crate::words::{hex_word, operand_words, s4_word, u2_word, u4_word, u8_word, word_at};
use jvm_types::{Attr, Constant, Handler};
use mnemonics::opcode_of;
use std::alloc::{AllocError, Global};

fn file_head(line: &[u8]) -> Item
    ensures { result ≡ named_item LineName.File (words line.now) }
{
    Item::FileHead(
        u2_word(line, 1),
        u2_word(line, 2),
        u2_word(line, 3),
        u2_word(line, 4),
        u2_word(line, 5),
    )
}

fn member_head(kind: MemberKind, line: &[u8]) -> Item
    ensures { result ≡ Item.MemberHead kind (u2_word (words line.now) 1)
        (u2_word (words line.now) 2) (u2_word (words line.now) 3) }
{
    Item::MemberHead(kind, u2_word(line, 1), u2_word(line, 2), u2_word(line, 3))
}

fn row(line: &[u8]) -> Item
    ensures { result ≡ named_item LineName.Row (words line.now) }
{
    Item::Row(Handler {
        start: u2_word(line, 1),
        end: u2_word(line, 2),
        handler: u2_word(line, 3),
        catch_type: u2_word(line, 4),
    })
}

fn attribute(alloc: Global, line: &[u8]) -> Result<Item, AllocError>
    ensures { IfOk result (λ item. item ≡ named_item LineName.Attribute (words line.now)) }
{
    let name = u2_word(line, 1);
    let body = hex_word(alloc, line, 2)?;
    Ok(Item::Attribute(Attr { name, body }))
}

fn entry(constant: Constant) -> Result<Item, AllocError>
    ensures { result ≡ Ok (Item.Entry constant) }
{
    Ok(Item::Entry(constant))
}

/// What a line of this name says, whatever its words are.
fn named_item(alloc: Global, name: LineName, line: &[u8]) -> Result<Item, AllocError>
    ensures { IfOk result (λ item. item ≡ named_item name (words line.now)) }
{
    match name {
        LineName::File => Ok(file_head(line)),
        LineName::Utf8 => entry(Constant::Utf8(hex_word(alloc, line, 1)?)),
        LineName::Integer => entry(Constant::Integer(s4_word(line, 1))),
        LineName::Float => entry(Constant::Float(u4_word(line, 1))),
        LineName::Long => entry(Constant::Long(u8_word(line, 1))),
        LineName::Double => entry(Constant::Double(u8_word(line, 1))),
        LineName::Gap => entry(Constant::Gap),
        LineName::Class => entry(Constant::Class(u2_word(line, 1))),
        LineName::Text => entry(Constant::Text(u2_word(line, 1))),
        LineName::Field => entry(Constant::Field(u2_word(line, 1), u2_word(line, 2))),
        LineName::Method => entry(Constant::Method(u2_word(line, 1), u2_word(line, 2))),
        LineName::InterfaceMethod => {
            entry(Constant::InterfaceMethod(u2_word(line, 1), u2_word(line, 2)))
        }
        LineName::NameAndType => entry(Constant::NameAndType(u2_word(line, 1), u2_word(line, 2))),
        LineName::Interface => Ok(Item::Interface(u2_word(line, 1))),
        LineName::FieldHead => Ok(member_head(MemberKind::Field, line)),
        LineName::MethodHead => Ok(member_head(MemberKind::Method, line)),
        LineName::Attribute => attribute(alloc, line),
        LineName::InitialValue => Ok(Item::InitialValue(u2_word(line, 1), u2_word(line, 2))),
        LineName::Code => Ok(Item::CodeHead(u2_word(line, 1), u2_word(line, 2), u2_word(line, 3))),
        LineName::CodeBytes => Ok(Item::CodeBytes(hex_word(alloc, line, 1)?)),
        LineName::Row => Ok(row(line)),
        LineName::End => Ok(Item::End),
    }
}

/// What a line says, whatever its words are.
fn rough_item(alloc: Global, line: &[u8]) -> Result<Item, AllocError>
    ensures { IfOk result (λ item. item ≡ rough_item line.now) }
{
    let name = word_at(line, 0);
    if let Some(name) = line_name_of(name) {
        return named_item(alloc, name, line);
    }
    match opcode_of(name) {
        Some(opcode) => Ok(Item::Instruction(opcode, operand_words(alloc, line)?)),
        None => Ok(Item::End),
    }
}

/// Whether the operands are in their fields, where it is an instruction.
fn insn_fits(item: &Item) -> bool
    ensures { result ≡ insn_fits item.now }
{
    match item {
        Item::Instruction(opcode, operands) => match shape_at(*opcode) {
            Some(shape) => operands_fit(shape, operands.as_slice()),
            None => false,
        },
        _ => true,
    }
}

/// The line that says this.
fn line_of(alloc: Global, item: &Item) -> Result<String, AllocError>
    ensures { IfOk result (λ text. string_bytes text ≡ line_text (item_line item.now)) }
{
    let mut text = String::new(alloc);
    write_item(&mut text, item)?;
    Ok(text)
}

/// Whether a line with its newline says this, and its operands are in their fields.
fn is_said(alloc: Global, item: &Item, whole: &[u8]) -> Result<bool, AllocError>
    ensures { IfOk result
        (λ is. is ≡ (insn_fits item.now && bytes_eq (line_text (item_line item.now)) whole.now)) }
{
    let text = line_of(alloc, item)?;
    Ok(insn_fits(item) && is_same_text(text.as_bytes(), whole))
}

/// What a line says, or `None` where it has no form. `line` is without its newline, and `whole` is
/// with it.
pub fn read_line(alloc: Global, line: &[u8], whole: &[u8]) -> Result<Option<Item>, AllocError>
    requires { whole.now ≡ line.now ++ 10 ∷ [] }
    ensures { IfOk result (λ found. IsLineRead whole.now found) }
{
    let item = rough_item(alloc, line)?;
    if is_said(alloc, &item, whole)? {
        Ok(Some(item))
    } else {
        Ok(None)
    }
}
