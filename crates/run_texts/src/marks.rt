//! The marks of a program as text.

ghost use Rattle.std.specs.Prelude.{◌≡◌, ◌++◌, slice_get, IfOk, OnOk, string_bytes};
ghost use Rattle.run_texts.specs.MarksText.{class_text, mark_line, marks_text, mark_words};
ghost use Rattle.run_texts.specs.MarksText.{method_words};

use checked_program::{Checked, SectionMark, Spot};
use jvm_types::class_numbers::FIRST_FILE_CLASS;
use jvm_types::{Bytes, Program};
use std::alloc::{AllocError, Global};
use std::fmt;

/// The bytes that the marks of a program take as text, but for the last line: 64 MiB. Where they
/// would take more, memory is wanting.
const MOST_MARK_BYTES: usize = 67108864;

/// The marks of a program: for each synchronized section, in order, a line `CLASS.NAMEDESCRIPTOR
/// SPOT MARK`, where the spot is `method` for a synchronized method's own section and `block PC`
/// for a block, and the mark is `M0` where the section may run without its lock, else the first
/// rule that forbids it (the read-only sections of SOLERO, PLDI 2010).
pub fn mark_text(alloc: Global, c: &Checked) -> Result<Bytes, AllocError>
    ensures { IfOk result (λ text. text ≡ marks_text c.now.program c.now.marks) }
{
    let text = lines(alloc, c.program(), c.marks().as_slice())?;
    Ok(Bytes::from_vec(text))
}

fn lines(alloc: Global, p: &Program, marks: &[SectionMark]) -> Result<Vec<u8>, AllocError>
    ensures { IfOk result (λ text. text.items ≡ marks_text p.now marks.now) }
{
    let mut text = Vec::new(alloc);
    for mark in marks {
        write_mark_line(&mut text, alloc, p, *mark)?;
        allow_bytes(text.len())?;
    }
    Ok(text)
}

/// Whether the marks may have so many bytes; the error is that they may not.
fn allow_bytes(bytes: usize) -> Result<(), AllocError> {
    if bytes > MOST_MARK_BYTES {
        return Err(AllocError);
    }
    Ok(())
}

/// Adds the line of a mark.
pub fn write_mark_line(
    text: &mut Vec<u8>,
    alloc: Global,
    p: &Program,
    mark: SectionMark,
) -> Result<(), AllocError>
    ensures { OnOk result (text.new.items ≡ text.old.items ++ mark_line p.now mark) }
{
    write_method(text, p, mark.method)?;
    write_mark(text, alloc, mark)
}

/// Adds class, name and descriptor of the method of that number.
pub fn write_method(text: &mut Vec<u8>, p: &Program, method: u32) -> Result<(), AllocError>
    ensures { OnOk result (text.new.items
        ≡ text.old.items ++ method_words p.now.names (slice_get p.now.methods method)) }
{
    let Some(m) = p.methods.get(method as usize) else {
        return Ok(());
    };
    write_class(text, p, m.class)?;
    text.push(b'.')?;
    text.extend_from_slice(m.name.as_slice())?;
    text.extend_from_slice(m.descriptor.as_slice())
}

/// Adds the name of the class of that number, which is one of the files.
pub fn write_class(text: &mut Vec<u8>, p: &Program, class: u16) -> Result<(), AllocError>
    ensures { OnOk result (text.new.items ≡ text.old.items ++ class_text p.now.names class) }
{
    let file = usize::from(class.saturating_sub(FIRST_FILE_CLASS));
    match p.names.get(file) {
        Some(name) => text.extend_from_slice(name.as_slice()),
        None => Ok(()),
    }
}

/// Where the section begins, and its mark.
fn write_mark(text: &mut Vec<u8>, alloc: Global, mark: SectionMark) -> Result<(), AllocError>
    ensures { OnOk result (text.new.items ≡ text.old.items ++ mark_words mark) }
{
    let spot = SpotText(mark.spot);
    let number = mark.mark;
    let mut words = String::new(alloc);
    writeln!(words, " {spot} M{number}")?;
    text.extend_from_slice(words.as_bytes())
}

/// Displays where a section begins.
#[derive(Clone, Copy)]
struct SpotText(Spot);

impl fmt::Display for SpotText {
    ghost use Rattle.std.specs.Prelude.{Some};
    ghost use Rattle.run_texts.specs.MarksText.{spot_text};

    ghost output = { λ s. Some (spot_text s.0) };

    fn fmt<W: fmt::Write>(&self, f: &mut fmt::Formatter<W>) -> fmt::Result {
        match self.0 {
            Spot::Method => f.write_str("method"),
            Spot::Block(pc) => write!(f, "block {pc}"),
        }
    }
}
