//! Assembling the class that a text lists.

ghost use Rattle.std.specs.Prelude.{◌≡◌, ◌++◌, ◌∷◌, [], ◌<◌, ◌^◌, ◌-◌, ◌==◌, length, position};
ghost use Rattle.std.specs.Prelude.{take, drop, Decides, IfOk, IfErr};
ghost use Rattle.jvm_types.specs.ClassGrammar.{IsClass};
ghost use Rattle.jvm_types.specs.declared.class_file.ClassFile.{ClassFile as Listed};
ghost use Rattle.asm_text.specs.ClassLines.{Lists};
ghost use Rattle.assembler.specs.Assembling.{Assembles, IsFormed};
ghost use Rattle.assembler.specs.Drafted.{IsDrafted, IsNextPlace, is_whole, IsVerdict};

use crate::asm_error::AsmError;
use asm_text::drafts::{Draft, add, new_draft};
use asm_text::item_reading::read_line;
use asm_text::line_names::is_same_text;
use asm_text::listing;
use asm_text::places::{ListingPlace, after, is_end};
use class_writer::{WriteError, write_class};
use jvm_types::{ARule, Bytes, ClassFile};
use std::alloc::{AllocError, Global};

/// The place of the first newline.
fn line_end(text: &[u8]) -> Option<usize>
    ensures { result ≡ position (λ b. b == 10) text.now }
{
    text.iter().position(|byte| *byte == b'\n')
}

/// The first so many bytes.
fn front(count: usize, text: &[u8]) -> &[u8]
    ensures { result.now ≡ take count text.now }
{
    if count <= text.len() {
        &text[..count]
    } else {
        text
    }
}

/// The bytes behind the first so many.
fn behind(count: usize, text: &[u8]) -> &[u8]
    ensures { result.now ≡ drop count text.now }
{
    if count <= text.len() {
        &text[count..]
    } else {
        &[]
    }
}

/// Reads a line, which is `whole` with its newline, into the draft. It answers the place behind it,
/// or `None` where it has no form at its place.
fn read_next(
    alloc: Global,
    draft: &mut Draft,
    place: ListingPlace,
    line: &[u8],
    whole: &[u8],
) -> Result<Option<ListingPlace>, AllocError>
    requires { whole.now ≡ line.now ++ 10 ∷ [] }
    ensures { IfOk result (λ found. IsNextPlace place whole.now draft.old draft.new found) }
{
    let Some(item) = read_line(alloc, line, whole)? else {
        return Ok(None);
    };
    let Some(next) = after(place, &item) else {
        return Ok(None);
    };
    add(draft, alloc, place, item)?;
    Ok(Some(next))
}

/// Whether a text may end at a place, and nothing is left of it.
fn is_whole(rest: &[u8], place: ListingPlace) -> bool
    ensures { result ≡ is_whole rest.now place }
{
    match rest {
        [] => is_end(place),
        [_, ..] => false,
    }
}

/// The lines of a text, or A1 at the first that has no form at its place.
fn read_draft(alloc: Global, text: &[u8]) -> Result<Draft, AsmError>
    requires { length text.now < 2 ^ 32 - 1 }
    ensures { IsDrafted text.now result }
{
    let mut draft = new_draft(alloc)?;
    let mut place = ListingPlace::Start;
    let mut number = 1u32;
    let mut rest = text;
    while let Some(end) = line_end(rest) {
        let whole = front(end + 1, rest);
        match read_next(alloc, &mut draft, place, front(end, rest), whole)? {
            Some(next) => place = next,
            None => return Err(AsmError::Refused(ARule::A1, number)),
        }
        number += 1;
        rest = behind(end + 1, rest);
    }
    if is_whole(rest, place) {
        Ok(draft)
    } else {
        Err(AsmError::Refused(ARule::A1, number))
    }
}

fn is_written(answer: &Result<Bytes, WriteError>) -> Result<bool, AllocError>
    ensures { IsVerdict answer.now result }
{
    match answer {
        Ok(_) => Ok(true),
        Err(WriteError::Memory) => Err(AllocError),
        Err(WriteError::TooLarge | WriteError::NoSpelling) => Ok(false),
    }
}

/// Whether some bytes spell a class.
fn is_spelled(alloc: Global, c: &ClassFile) -> Result<bool, AllocError>
    ensures { IfOk result (λ is. Decides is (IsClass c.now)) }
{
    let answer = write_class(alloc, c);
    is_written(&answer)
}

/// Whether a text lists a class.
fn lists(alloc: Global, text: &Bytes, c: &ClassFile) -> Result<bool, AllocError>
    ensures { IfOk result (λ is. Decides is (Lists text.now c.now)) }
{
    if is_spelled(alloc, c)? {
        let listed = listing(alloc, c)?;
        Ok(is_same_text(text.as_slice(), listed.as_slice()))
    } else {
        Ok(false)
    }
}

fn text_draft(alloc: Global, text: &Bytes) -> Result<Draft, AsmError>
    requires { length text.now < 2 ^ 32 - 1 }
    ensures { IsDrafted text.now result }
{
    read_draft(alloc, text.as_slice())
}

fn class_of(draft: Draft) -> ClassFile
    ensures { result ≡ draft.class }
{
    draft.class
}

/// The class, or A2 where the text does not list it. It lists no other one.
fn assembled(alloc: Global, text: &Bytes, class: ClassFile) -> Result<ClassFile, AsmError>
    requires formed { IsFormed text.now }
    requires only { (c : Listed) → Lists text.now c → class ≡ c }
    ensures is { Assembles text.now result }
    ensures only { (c : Listed) → Lists text.now c → IfOk result (λ d. d ≡ c) }
    ensures listed { (c : Listed) → Lists text.now c → IfErr result (λ e. e ≡ AsmError.Memory) }
{
    if lists(alloc, text, &class)? {
        Ok(class)
    } else {
        Err(AsmError::Refused(ARule::A2, 0))
    }
}

/// The class that a text lists (JVMS 4), which `listing` lists so again. The text has fewer than
/// 2^32 - 1 bytes.
///
/// Errors: A1 at the number of the first line, counted from 1, that has no form at its place, or a
/// number outside its field; where the text stops too early, at the number of its lines plus 1, and
/// a line without its newline has no form. A2, at 0, where all lines have their forms and no class
/// is listed so. Want of memory.
pub fn assemble(alloc: Global, text: &Bytes) -> Result<ClassFile, AsmError>
    requires { length text.now < 2 ^ 32 - 1 }
    ensures is { Assembles text.now result }
    ensures only { (c : Listed) → Lists text.now c → IfOk result (λ d. d ≡ c) }
    ensures listed { (c : Listed) → Lists text.now c → IfErr result (λ e. e ≡ AsmError.Memory) }
{
    match text_draft(alloc, text) {
        Ok(draft) => assembled(alloc, text, class_of(draft)),
        Err(error) => Err(error),
    }
}
