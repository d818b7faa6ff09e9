//! The texts of the constant pools of some files, by numbers.

ghost use Rattle.std.specs.Prelude.{◌≡◌, ℕ, ◌+◌, ◌*◌, ◌<◌, ◌≤◌, ◌^◌, [], length, slice_get, IfOk};
ghost use Rattle.std.specs.Prelude.{OnOk, IsSomeAnd};
ghost use Rattle.std.specs.Option.{option_map};
ghost use Rattle.jvm_types.specs.ClassNames.{class_names};
ghost use Rattle.jvm_types.specs.Descriptors.{method_signature};
ghost use Rattle.descriptors.specs.Signatures.{meaning};
ghost use Rattle.link_scope.specs.TextNumbers.{number_of, IsNumbered, AreApart, Keeps, IsMeaning};
ghost use Rattle.jvm_types.specs.Members.{is_init_name};
ghost use Rattle.link_scope.specs.Scoping.{file_text, takes_name, AreFiles};
ghost use Rattle.link_scope.specs.FileTexts.{IsRow, AreRows, is_before};

use crate::names::names_of;
use crate::texts::{EMPTY, Meaning, Texts};
use constant_pools::pool_texts::{class_name, text_of};
use descriptors::{ClassNumbers, Signature};
use jvm_types::class_numbers::FIRST_FILE_CLASS;
use jvm_types::{ClassFile, Constant, Rows};
use std::alloc::{AllocError, Global};
use std::marker::Model;

/// Some files, with the number of each text of their pools. Contracts see the files and the
/// numbers.
#[derive(Drop)]
pub struct FileTexts<'a> {
    files: &'a Rows<ClassFile>,
    texts: Texts<'a>,
    /// For each file, the number of the text at each index of its pool.
    rows: Rows<Rows<u32>>,
    /// The number of `<init>`, where a file has it.
    init: Option<u32>,
}

impl<'a> Model for FileTexts<'a> {
    ghost use Rattle.link_scope.specs.FileTexts.{NumberedFiles, AreTextsRead};

    ghost Value = { NumberedFiles };

    ghost view = { λ t. record { files = t.files.now; numbers = t.texts.numbers } };

    ghost invariant = { λ t. AreTextsRead t.files.now t.texts.names t.texts.numbers t.rows t.init };
}

/// Gives numbers to the texts of a pool, and answers the number at each index.
fn number_pool<'a>(
    alloc: Global,
    texts: &mut Texts<'a>,
    pool: &'a Rows<Constant>,
) -> Result<Rows<u32>, AllocError>
    requires fits { texts.old.count + length pool.now ≤ 2 ^ 32 }
    requires empty { IsNumbered texts.old.numbers [] EMPTY }
    ensures row { IfOk result (IsRow texts.new.numbers pool.now) }
    ensures kept { OnOk result (Keeps texts.old.numbers texts.new.numbers) }
    ensures names { OnOk result (texts.new.names ≡ texts.old.names) }
    ensures count { OnOk result (texts.new.count ≤ texts.old.count + length pool.now) }
{
    let mut row = Rows::new(alloc);
    for entry in pool.as_slice() {
        row.push(texts.add(alloc, text_of(entry))?)?;
    }
    Ok(row)
}

/// Gives numbers to the texts of all pools, and answers the rows of the files.
fn number_files<'a>(
    alloc: Global,
    texts: &mut Texts<'a>,
    files: &'a Rows<ClassFile>,
) -> Result<Rows<Rows<u32>>, AllocError>
    requires files { AreFiles files.now }
    requires fits { texts.old.count ≤ 1 }
    requires empty { IsNumbered texts.old.numbers [] EMPTY }
    ensures rows { IfOk result (AreRows texts.new.numbers files.now) }
    ensures names { OnOk result (texts.new.names ≡ texts.old.names) }
{
    let mut rows = Rows::new(alloc);
    for class in files.as_slice() {
        rows.push(number_pool(alloc, texts, &class.constants)?)?;
    }
    Ok(rows)
}

impl<'a> FileTexts<'a> {
    /// Gives each text of the files a number.
    pub fn of(alloc: Global, files: &'a Rows<ClassFile>) -> Result<Self, AllocError>
        requires { AreFiles files.now }
        ensures { IfOk result (λ t. t.files ≡ files.now) }
    {
        let classes = ClassNumbers::of(alloc, names_of(alloc, files)?)?;
        let mut texts = Texts::new(alloc, classes)?;
        let rows = number_files(alloc, &mut texts, files)?;
        let init = texts.number(b"<init>");
        Ok(FileTexts {
            files,
            texts,
            rows,
            init,
        })
    }

    /// The files.
    pub fn files(&self) -> &'a Rows<ClassFile>
        ensures { result.now ≡ self.now.files }
    {
        self.files
    }

    /// The number of the text at an index of the pool of a file.
    pub fn number(&self, file: usize, index: u16) -> u32
        ensures number { IsNumbered self.now.numbers (file_text self.now.files file index) result }
        ensures apart { AreApart self.now.numbers }
    {
        let row = self.rows.get(file);
        row.and_then(|row| row.get(usize::from(index)))
            .copied()
            .unwrap_or(EMPTY)
    }

    /// The number of a text that one of the files has.
    pub fn number_of(&self, text: &[u8]) -> Option<u32>
        ensures number { result ≡ number_of self.now.numbers text.now }
        ensures apart { AreApart self.now.numbers }
    {
        self.texts.number(text)
    }

    /// Whether the text at an index of the pool of a file is `<init>`.
    pub fn is_init(&self, file: usize, index: u16) -> bool
        ensures { result ≡ is_init_name (file_text self.now.files file index) }
    {
        self.init == Some(self.number(file, index))
    }

    /// What the text at an index of the pool of a file says.
    pub fn meaning(&self, file: usize, index: u16) -> Option<Meaning>
        ensures { IsSomeAnd result
            (IsMeaning (class_names self.now.files) (file_text self.now.files file index)) }
    {
        self.texts.meaning(self.number(file, index))
    }

    /// What a text says as a method descriptor, read anew.
    pub fn signature(&self, alloc: Global, text: &[u8]) -> Result<Option<Signature>, AllocError>
        ensures { IfOk result (λ found.
            option_map meaning found ≡ method_signature (class_names self.now.files) text.now) }
    {
        self.texts.signature(alloc, text)
    }

    /// Whether the class of a file has the name of an earlier file's or of a built-in class.
    pub fn takes_name(&self, file: usize) -> bool
        ensures { result ≡ takes_name self.now.files file (slice_get self.now.files file) }
    {
        match self.files.get(file) {
            Some(class) => is_before(self.texts.named_class(class_name(class)), file),
            None => false,
        }
    }
}

/// Whether a class that was found is a built-in one or that of a file before this one.
fn is_before(class: Option<u16>, file: usize) -> bool
    ensures { result ≡ is_before class file }
{
    match class {
        Some(number) => {
            number < FIRST_FILE_CLASS || usize::from(number - FIRST_FILE_CLASS) < file
        }
        None => false,
    }
}
