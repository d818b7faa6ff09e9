//! The line of each pc of a code (JVMS 4.7.8).

ghost use Rattle.std.specs.Prelude.{◌≡◌, None, Some, IfOk, replicate, slice_set};
ghost use Rattle.source_lines.specs.LineTables.{carried as the_carried};
ghost use Rattle.source_lines.specs.LineTables.{lines_of as the_lines_of};
ghost use Rattle.source_lines.specs.LineTables.{marked as the_marked, marked_among};
ghost use Rattle.source_lines.specs.SourceLines.{starts_in, starts_of};

use crate::line_starts::{LineStart, behind_count, is_named, start_at};
use jvm_types::{Attr, Code, Constant, Rows};
use std::alloc::{AllocError, Global};

fn mark(lines: &mut Rows<Option<u16>>, start: LineStart)
    ensures { lines.new ≡ slice_set lines.old start.pc (Some start.line) }
{
    let pc = usize::from(start.pc);
    if pc < lines.len() {
        lines.set(pc, Some(start.line));
    }
}

fn mark_all(lines: &mut Rows<Option<u16>>, starts: &[u8])
    ensures { lines.new ≡ the_marked (starts_in starts.now) lines.old }
{
    let mut rest = starts;
    while let [a, b, c, d, more @ ..] = rest {
        mark(lines, start_at(*a, *b, *c, *d));
        rest = more;
    }
}

fn mark_attr(lines: &mut Rows<Option<u16>>, pool: &Rows<Constant>, attr: &Attr)
    ensures { lines.new ≡ the_marked (starts_of pool.now attr.now) lines.old }
{
    if is_named(pool, b"LineNumberTable", attr) {
        mark_all(lines, behind_count(attr.body.as_slice()));
    }
}

fn mark_among(lines: &mut Rows<Option<u16>>, pool: &Rows<Constant>, attrs: &[Attr])
    ensures { lines.new ≡ marked_among pool.now attrs.now lines.old }
{
    for attr in attrs {
        mark_attr(lines, pool, attr);
    }
}

fn no_lines(alloc: Global, size: usize) -> Result<Rows<Option<u16>>, AllocError>
    ensures { IfOk result (λ lines. lines ≡ replicate size None) }
{
    Ok(Rows::from_vec(vec![in alloc; None; size]?))
}

fn carried(alloc: Global, starts: &[Option<u16>]) -> Result<Rows<Option<u16>>, AllocError>
    ensures { IfOk result (λ lines. lines ≡ the_carried None starts.now) }
{
    let mut before = None;
    let mut lines = Rows::from_vec(Vec::with_capacity(alloc, starts.len())?);
    for start in starts {
        before = start.or(before);
        lines.push(before)?;
    }
    Ok(lines)
}

/// The line of each pc of a code, where the attributes of the code have one for it: in time and
/// memory in proportion to the code and its attributes.
#[tactic(auto, using(crate::proofs::CarriedLines::are_lines))]
pub fn lines_of(
    alloc: Global,
    pool: &Rows<Constant>,
    code: &Code,
) -> Result<Rows<Option<u16>>, AllocError>
    ensures { IfOk result (λ lines. lines ≡ the_lines_of pool.now code.now) }
{
    let mut starts = no_lines(alloc, code.bytes.len())?;
    mark_among(&mut starts, pool, code.attrs.as_slice());
    carried(alloc, starts.as_slice())
}
