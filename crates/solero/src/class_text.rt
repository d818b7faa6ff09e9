//! A class file as text, and a text as a class file.
ghost use Rattle.std.specs.Prelude.{◌≡◌, ◌≤◌, ◌∷◌, [], IfErr, IfOk, None, length};
ghost use Rattle.class_runner.specs.Loading.{read_fault};
ghost use Rattle.class_runner.specs.Stages.{IsClassUnread};
ghost use Rattle.class_runner.specs.declared.loading.FileError.TheVariants.{Memory};
ghost use Rattle.jvm_types.specs.ClassGrammar.{IsClass, Spells};
ghost use Rattle.host_io.specs.Reading.{first_long};
ghost use Rattle.solero.specs.Answer.{IsAssembled, IsListed};
ghost use Rattle.solero.specs.Parts.{IsNotAssembled};

use asm_text::listing;
use assembler::{AsmError, assemble};
use class_runner::{FileError, read_files};
use class_writer::{WriteError, write_class};
use jvm_types::limits::MOST_FILE_BYTES;
use jvm_types::{Bytes, ClassFile, Rows, Rule, counts_fit, in_file};
use std::alloc::Global;

/// The listing of the class that the one file spells, or the rule of reading that refuses the file.
pub fn listed(alloc: Global, files: &Rows<Bytes>) -> Result<Bytes, FileError>
    requires { length files.now ≡ 1 }
    ensures ok { IfOk result (λ text. IsListed files.now text) }
    ensures refused { IfErr result (λ e. IsClassUnread (read_fault 0 files.now) e) }
{
    let classes = read_files(alloc, files.as_slice())?;
    let class = &classes.as_slice()[0];
    Ok(listing(alloc, class)?)
}

/// The bytes that spell the class which the text of the one file lists, or the rule of assembling
/// that refuses the text.
pub fn assembled(alloc: Global, files: &Rows<Bytes>) -> Result<Bytes, FileError>
    requires one { length files.now ≡ 1 }
    requires short { first_long 0 files.now ≡ None }
    ensures ok { IfOk result (λ bytes. IsAssembled files.now bytes) }
    ensures refused { IfErr result (λ e. IsNotAssembled files.now e) }
{
    assembled_text(alloc, only(files))
}

fn only(files: &Rows<Bytes>) -> &Bytes
    requires { length files.now ≡ 1 }
    ensures { files.now ≡ result.now ∷ [] }
{
    &files.as_slice()[0]
}

fn assembled_text(alloc: Global, text: &Bytes) -> Result<Bytes, FileError>
    requires { length text.now ≤ MOST_FILE_BYTES }
    ensures ok { IfOk result (λ bytes. IsAssembled (text.now ∷ []) bytes) }
    ensures refused { IfErr result (λ e. IsNotAssembled (text.now ∷ []) e) }
{
    match assemble(alloc, text) {
        Ok(class) => bytes_of(alloc, &class),
        Err(AsmError::Refused(rule, at)) => Err(FileError::Refused(Rule::A(rule), in_file(0, at))),
        Err(AsmError::Memory) => Err(FileError::Memory),
    }
}

/// The bytes that spell the class, where some do.
pub fn bytes_of(alloc: Global, class: &ClassFile) -> Result<Bytes, FileError>
    requires { IsClass class.now }
    ensures ok { IfOk result (λ bytes. Spells bytes class.now) }
    ensures memory { IfErr result (λ e. e ≡ Memory) }
{
    counts_fit();
    match write_class(alloc, class) {
        Ok(bytes) => Ok(bytes),
        Err(WriteError::Memory) => Err(FileError::Memory),
        Err(WriteError::TooLarge | WriteError::NoSpelling) => unreachable!(),
    }
}
