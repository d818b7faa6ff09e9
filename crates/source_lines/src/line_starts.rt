//! The line of the source that an instruction comes from (JVMS 4.7.8), and the name of the source
//! (JVMS 4.7.7).

ghost use Rattle.std.specs.Prelude.{◌≡◌, drop, None, option_map};
ghost use Rattle.std.specs.Option.{option_copied};
ghost use Rattle.source_lines.specs.SourceLines.{first_index as the_first_index};
ghost use Rattle.source_lines.specs.SourceLines.{is_named as has_name, later as the_later};
ghost use Rattle.source_lines.specs.SourceLines.{latest_start, latest_among};
ghost use Rattle.source_lines.specs.SourceLines.{name_at as the_name_at};
ghost use Rattle.source_lines.specs.SourceLines.{source_name as the_source_name, start_of};
ghost use Rattle.source_lines.specs.SourceLines.{starts_in, starts_of};

use constant_pools::pool_texts::text_at;
use jvm_types::{Attr, Constant, Rows};

/// The pc from which instructions come from a line.
#[derive(Clone, Copy, Debug, PartialEq, Eq)]
pub struct LineStart {
    pub pc: u16,
    pub line: u16,
}

pub(crate) fn is_named(pool: &Rows<Constant>, name: &[u8], attr: &Attr) -> bool
    ensures { result ≡ has_name pool.now name.now attr.now }
{
    text_at(pool, attr.name) == name
}

// Of what was found before, and a start: the one that begins later, and not behind the pc.
fn later(pc: u32, found: Option<LineStart>, start: LineStart) -> Option<LineStart>
    ensures { result ≡ the_later pc found start }
{
    match found {
        None if u32::from(start.pc) <= pc => Some(start),
        None => None,
        Some(before) if u32::from(start.pc) <= pc && before.pc <= start.pc => Some(start),
        Some(before) => Some(before),
    }
}

pub(crate) fn start_at(a: u8, b: u8, c: u8, d: u8) -> LineStart
    ensures { result ≡ start_of a b c d }
{
    LineStart {
        pc: u16::from_be_bytes([a, b]),
        line: u16::from_be_bytes([c, d]),
    }
}

fn latest_in(pc: u32, before: Option<LineStart>, starts: &[u8]) -> Option<LineStart>
    ensures { result ≡ latest_start pc before (starts_in starts.now) }
{
    let mut found = before;
    let mut rest = starts;
    while let [a, b, c, d, more @ ..] = rest {
        found = later(pc, found, start_at(*a, *b, *c, *d));
        rest = more;
    }
    found
}

// What stands behind the count of a table.
pub(crate) fn behind_count(body: &[u8]) -> &[u8]
    ensures { result.now ≡ drop 2 body.now }
{
    match body {
        [_, _, rest @ ..] => rest,
        _ => &[],
    }
}

fn latest_of(
    pool: &Rows<Constant>,
    pc: u32,
    before: Option<LineStart>,
    attr: &Attr,
) -> Option<LineStart>
    ensures { result ≡ latest_start pc before (starts_of pool.now attr.now) }
{
    if is_named(pool, b"LineNumberTable", attr) {
        latest_in(pc, before, behind_count(attr.body.as_slice()))
    } else {
        before
    }
}

/// Where the line of the instruction at a pc begins, by the attributes of its code. None: they have
/// no line numbers for it.
pub fn line_start(pool: &Rows<Constant>, pc: u32, attrs: &[Attr]) -> Option<LineStart>
    ensures { result ≡ latest_among pool.now pc None attrs.now }
{
    let mut found = None;
    for attr in attrs {
        found = latest_of(pool, pc, found, attr);
    }
    found
}

/// The first two bytes as an index.
pub fn first_index(body: &[u8]) -> Option<u16>
    ensures { result ≡ the_first_index body.now }
{
    match body {
        [high, low, ..] => Some(u16::from_be_bytes([*high, *low])),
        _ => None,
    }
}

fn name_at(pool: &Rows<Constant>, index: Option<u16>) -> Option<&[u8]>
    ensures { option_map (λ s. s.now) result ≡ the_name_at pool.now index }
{
    match index {
        Some(i) => Some(text_at(pool, i)),
        None => None,
    }
}

/// The name of the source, by the attributes of the class. None: they have none.
pub fn source_name<'a>(pool: &'a Rows<Constant>, attrs: &[Attr]) -> Option<&'a [u8]>
    ensures { option_map (λ s. s.now) result ≡ the_source_name pool.now attrs.now }
{
    for attr in attrs {
        if is_named(pool, b"SourceFile", attr) {
            return name_at(pool, first_index(attr.body.as_slice()));
        }
    }
    None
}
