//! Tables of a program: the number of the instruction at each pc of a method, how many words an
//! object takes, and where each class stands.

ghost use Rattle.std.specs.Prelude.{◌≡◌, ◌≤◌, slice_get, IfOk};
ghost use Rattle.jvm_types.specs.ProgramInvariant.{statics_among};
ghost use Rattle.jvm_types.specs.declared.limits.TheConstants.{MOST_HEAP};
ghost use Rattle.code_table.specs.PcTables.{number_at};
ghost use Rattle.checked_program.specs.CodeIndex.{number_in, statics_below, word_of_class};
ghost use Rattle.checked_program.specs.CodeIndex.{words_of_object, AllAscend, AreClassWords};
ghost use Rattle.checked_program.specs.CodeIndex.{ArePcTables, AreSizes, FewInstances, IsCodeIndex};

use code_table::PcTable;
use jvm_types::class_numbers::FIRST_FILE_CLASS;
use jvm_types::fixed_words::{FIRST_CLASS_WORD, OBJECT_HEAD_WORDS};
use jvm_types::flags::is_static;
use jvm_types::limits::MOST_FILES;
use jvm_types::{FieldInfo, Insn, MethodInfo, Program};
use std::alloc::{AllocError, Global};

/// The tables of a program: of the pcs of its methods in order, of the words of an object by its
/// class, and of the words at which the classes of the files stand.
#[derive(Debug, Drop)]
pub struct CodeIndex {
    pub tables: Vec<PcTable>,
    pub sizes: Vec<u32>,
    pub classes: Vec<u32>,
}

/// The table of each method in order.
fn pc_tables(alloc: Global, methods: &[MethodInfo]) -> Result<Vec<PcTable>, AllocError>
    requires { AllAscend methods.now }
    ensures { IfOk result (λ v. ArePcTables methods.now v.items) }
{
    let mut tables = Vec::with_capacity(alloc, methods.len())?;
    for m in methods {
        tables.push(PcTable::of(alloc, m.code.as_slice())?)?;
    }
    Ok(tables)
}

/// The words of an object of each class before this one.
fn object_sizes(alloc: Global, fields: &[FieldInfo], classes: u16) -> Result<Vec<u32>, AllocError>
    requires { FewInstances fields.now }
    ensures { IfOk result (λ v. AreSizes fields.now v.items) }
{
    let mut sizes = Vec::with_capacity(alloc, usize::from(classes))?;
    for class in 0..classes {
        sizes.push(count_words(fields, class))?;
    }
    Ok(sizes)
}

/// How many static fields stand before those of a class.
fn statics_below(fields: &[FieldInfo], class: u32) -> u32
    requires { statics_below class fields.now ≤ MOST_HEAP }
    ensures count { result ≡ statics_below class fields.now }
    ensures few { result ≤ MOST_HEAP }
{
    let mut count = 0;
    for field in fields {
        if u32::from(field.class) < class && is_static(field.flags) {
            count += 1;
        }
    }
    count
}

/// The word of the class of a file, by a count.
#[cold]
pub fn word_of_class(fields: &[FieldInfo], file: u16) -> u32
    requires { statics_among fields.now ≤ MOST_HEAP }
    ensures { result ≡ word_of_class fields.now file }
{
    let class = u32::from(FIRST_FILE_CLASS) + u32::from(file);
    FIRST_CLASS_WORD + OBJECT_HEAD_WORDS * u32::from(file) + statics_below(fields, class)
}

/// The word of the class of each file.
fn class_words(alloc: Global, fields: &[FieldInfo], files: u16) -> Result<Vec<u32>, AllocError>
    requires { statics_among fields.now ≤ MOST_HEAP }
    ensures { IfOk result (λ v. AreClassWords fields.now v.items) }
{
    let mut words = Vec::with_capacity(alloc, usize::from(files))?;
    for file in 0..files {
        words.push(word_of_class(fields, file))?;
    }
    Ok(words)
}

impl CodeIndex {
    /// The tables of a program, in memory in proportion to its code.
    pub fn of(alloc: Global, p: &Program) -> Result<CodeIndex, AllocError>
        requires ascend { AllAscend p.now.methods }
        requires few { FewInstances p.now.fields }
        requires statics { statics_among p.now.fields ≤ MOST_HEAP }
        ensures { IfOk result (λ index.
            IsCodeIndex p.now.methods p.now.fields index.tables.items index.sizes.items
            index.classes.items) }
    {
        let files = p.names.len().min(MOST_FILES) as u16;
        let classes = FIRST_FILE_CLASS + files;
        Ok(CodeIndex {
            tables: pc_tables(alloc, p.methods.as_slice())?,
            sizes: object_sizes(alloc, p.fields.as_slice(), classes)?,
            classes: class_words(alloc, p.fields.as_slice(), files)?,
        })
    }
}

/// The number of the instruction at a pc, by a search.
#[cold]
fn search(code: &[Insn], pc: u32) -> Option<usize>
    ensures { result ≡ number_at code.now pc }
{
    for (i, insn) in code.iter().enumerate() {
        if insn.pc == pc {
            return Some(i);
        }
    }
    None
}

/// The number of the instruction at a pc of a method, by a search.
#[cold]
pub fn search_in(p: &Program, method: u32, pc: u32) -> Option<usize>
    ensures { result ≡ number_in (slice_get p.now.methods method) pc }
{
    match p.methods.get(method as usize) {
        Some(m) => search(m.code.as_slice(), pc),
        None => None,
    }
}

/// The words of an object of a class, by a count.
#[cold]
pub fn count_words(fields: &[FieldInfo], class: u16) -> u32
    requires { FewInstances fields.now }
    ensures { result ≡ words_of_object fields.now class }
{
    let mut words = OBJECT_HEAD_WORDS;
    for field in fields {
        if field.class == class && !is_static(field.flags) {
            words += 1;
        }
    }
    words
}
