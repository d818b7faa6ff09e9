//! The source of each method of a program: its file, and the line of each pc of its code.

ghost use Rattle.std.specs.Prelude.{◌≡◌, ◌++◌, List, [], ◌∷◌, map, option_map, IfOk, OnOk};
ghost use Rattle.std.specs.List.{AllZip};
ghost use Rattle.jvm_types.specs.ClassGrammar.{Spells};
ghost use Rattle.jvm_types.specs.declared.class_file.ClassFile.{ClassFile as Class};
ghost use Rattle.source_lines.specs.Sources.{SourcesAreInOrder, class_source as the_class_source};
ghost use Rattle.source_lines.specs.Sources.{file_among, line_among, line_at};
ghost use Rattle.source_lines.specs.Sources.{method_lines as the_method_lines, source_at};
ghost use Rattle.source_lines.specs.Sources.{sources_of as the_sources_of, with_class};

use crate::line_starts::source_name;
use crate::line_tables::lines_of;
use class_reader::{ReadError, read_class};
use jvm_types::code_attribute::code_of;
use jvm_types::{Bytes, ClassFile, Constant, Member, Rows};
use std::alloc::{AllocError, Global};

/// The lines of a method.
#[derive(Debug, Drop)]
pub struct MethodLines {
    /// The number of its file.
    pub file: usize,
    /// The line of each pc of its code, where its class has one for it.
    pub lines: Rows<Option<u16>>,
}

/// The sources of the methods of a program. They take memory in proportion to the files.
#[derive(Debug, Drop)]
pub struct Sources {
    /// The name of the source of each file, where its class has one.
    pub files: Rows<Option<Bytes>>,
    /// Each method, in the order of the program.
    pub methods: Rows<MethodLines>,
}

impl Sources {
    /// No file, and no method.
    fn new(alloc: Global) -> Sources
        ensures { result ≡ the_sources_of [] }
    {
        Sources {
            files: Rows::new(alloc),
            methods: Rows::new(alloc),
        }
    }

    /// The name of the source of the method of that number. None: its class has none.
    pub fn file(&self, method: u32) -> Option<&[u8]>
        ensures { option_map (λ name. name.now) result ≡ source_at self.now method }
    {
        match self.methods.get(method as usize) {
            Some(m) => match self.files.get(m.file) {
                Some(Some(name)) => Some(name.as_slice()),
                Some(None) | None => None,
            },
            None => None,
        }
    }

    /// The line of a pc of that method. None: its class has none for it.
    pub fn line(&self, method: u32, pc: u32) -> Option<u16>
        ensures { result ≡ line_at self.now method pc }
    {
        match self.methods.get(method as usize) {
            Some(m) => match m.lines.get(pc as usize) {
                Some(line) => *line,
                None => None,
            },
            None => None,
        }
    }
}

fn method_lines(
    alloc: Global,
    file: usize,
    pool: &Rows<Constant>,
    method: &Member,
) -> Result<MethodLines, AllocError>
    ensures { IfOk result (λ lines. lines ≡ the_method_lines file pool.now method.now) }
{
    let lines = match code_of(method.attrs.as_slice()) {
        Some(code) => lines_of(alloc, pool, code)?,
        None => Rows::new(alloc),
    };
    Ok(MethodLines { file, lines })
}

fn class_source(alloc: Global, class: &ClassFile) -> Result<Option<Bytes>, AllocError>
    ensures { IfOk result (λ name. name ≡ the_class_source class.now) }
{
    match source_name(&class.constants, class.attrs.as_slice()) {
        Some(name) => Ok(Some(Bytes::from_slice(alloc, name)?)),
        None => Ok(None),
    }
}

fn add_methods(
    methods: &mut Rows<MethodLines>,
    alloc: Global,
    file: usize,
    pool: &Rows<Constant>,
    members: &[Member],
) -> Result<(), AllocError>
    ensures { OnOk result
        (methods.new ≡ methods.old ++ map (the_method_lines file pool.now) members.now) }
{
    for member in members {
        methods.push(method_lines(alloc, file, pool, member)?)?;
    }
    Ok(())
}

fn add_class(sources: &mut Sources, alloc: Global, class: &ClassFile) -> Result<(), AllocError>
    ensures { OnOk result (sources.new ≡ with_class sources.old class.now) }
{
    let file = sources.files.len();
    sources.files.push(class_source(alloc, class)?)?;
    add_methods(
        &mut sources.methods,
        alloc,
        file,
        &class.constants,
        class.methods.as_slice(),
    )
}

// Adds the class that a file spells; nothing where it spells none.
fn add_file(sources: &mut Sources, alloc: Global, file: &Bytes) -> Result<(), AllocError>
    ensures { OnOk result
        ((c : Class) → Spells file.now c → sources.new ≡ with_class sources.old c) }
{
    match read_class(alloc, file) {
        Ok(class) => add_class(sources, alloc, &class),
        Err(ReadError::Memory) => Err(AllocError),
        Err(ReadError::Refused(_, _)) => Ok(()),
    }
}

/// The sources of the methods of the classes that some files spell, in the order of the files and
/// of their methods (JVMS 4.6): that in which the program that the files are linked to has its
/// methods (`sources_are_in_order`).
pub fn sources_of(alloc: Global, files: &Rows<Bytes>) -> Result<Sources, AllocError>
    ensures { IfOk result (λ sources.
        (classes : List Class) → AllZip Spells files.now classes
        → sources ≡ the_sources_of classes) }
{
    let mut sources = Sources::new(alloc);
    let mut rest = files.as_slice();
    while let [file, more @ ..] = rest {
        add_file(&mut sources, alloc, file)?;
        rest = more;
    }
    Ok(sources)
}

/// Law: a program that files are linked to has the methods of their classes in the order in which
/// their sources stand, so that what is told of a method is of the class that declares it.
pub fn sources_are_in_order()
    ensures { SourcesAreInOrder }
{}
