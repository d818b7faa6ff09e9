//! What stands in the words that threads share, as text.

ghost use Rattle.std.specs.Prelude.{◌≡◌, ◌++◌, slice_get, OnOk};
ghost use Rattle.event_texts.specs.ValueTexts.{field_value, reference_text, shared_value_text};

use crate::headers::write_header;
use crate::waiting::write_waiting;
use crate::words::SharedWord;
use instr_effects::ints::int_of;
use jvm_types::{FieldInfo, Kind, Program};
use std::alloc::{AllocError, Global};
use std::fmt;

/// Displays a lock word by its kind and what stands above it.
#[derive(Clone, Copy)]
struct LockText(u64);

impl fmt::Display for LockText {
    ghost use Rattle.std.specs.Prelude.{Some, ◌%◌, ◌/◌};
    ghost use Rattle.event_texts.specs.ValueTexts.{lock_text};

    ghost output = { λ l. Some (lock_text (l.0 % 4) (l.0 / 4)) };

    fn fmt<W: fmt::Write>(&self, f: &mut fmt::Formatter<W>) -> fmt::Result {
        let upper = self.0 / 4;
        let thread = upper.saturating_sub(1);
        match self.0 % 4 {
            0 => write!(f, "Free({upper})"),
            1 => write!(f, "Fat({upper})"),
            2 => write!(f, "Held({thread})"),
            _ => write!(f, "Flagged({thread})"),
        }
    }
}

/// Displays the owner of a monitor record.
#[derive(Clone, Copy)]
struct OwnerText(u64);

impl fmt::Display for OwnerText {
    ghost use Rattle.std.specs.Prelude.{Some};
    ghost use Rattle.event_texts.specs.ValueTexts.{owner_text};

    ghost output = { λ o. Some (owner_text o.0) };

    fn fmt<W: fmt::Write>(&self, f: &mut fmt::Formatter<W>) -> fmt::Result {
        if self.0 == 0 {
            f.write_str("nobody")
        } else {
            let thread = self.0 - 1;
            write!(f, "thread {thread}")
        }
    }
}

/// Displays a reference.
#[derive(Clone, Copy)]
struct ReferenceText(u64);

impl fmt::Display for ReferenceText {
    ghost use Rattle.std.specs.Prelude.{Some};
    ghost use Rattle.event_texts.specs.ValueTexts.{reference_text};

    ghost output = { λ r. Some (reference_text r.0) };

    fn fmt<W: fmt::Write>(&self, f: &mut fmt::Formatter<W>) -> fmt::Result {
        let reference = self.0;
        if reference == 0 {
            f.write_str("null")
        } else {
            write!(f, "@{reference}")
        }
    }
}

/// Displays a value of a kind.
#[derive(Clone, Copy)]
struct KindText(Kind, u64);

impl fmt::Display for KindText {
    ghost use Rattle.std.specs.Prelude.{Some};
    ghost use Rattle.event_texts.specs.ValueTexts.{kind_text};

    ghost output = { λ k. Some (kind_text k.0 k.1) };

    fn fmt<W: fmt::Write>(&self, f: &mut fmt::Formatter<W>) -> fmt::Result {
        match self.0 {
            Kind::Ref(_) => {
                let reference = ReferenceText(self.1);
                write!(f, "{reference}")
            }
            _ => {
                let value = int_of(self.1);
                write!(f, "{value}")
            }
        }
    }
}

/// Adds a reference, as text.
pub fn write_reference(text: &mut Vec<u8>, alloc: Global, reference: u64) -> Result<(), AllocError>
    ensures { OnOk result (text.new.items ≡ text.old.items ++ reference_text reference) }
{
    let reference = ReferenceText(reference);
    let mut words = String::new(alloc);
    write!(words, "{reference}")?;
    text.extend_from_slice(words.as_bytes())
}

/// The field of that number.
pub fn field_of(p: &Program, number: u32) -> Option<FieldInfo>
    ensures { result ≡ slice_get p.now.fields number }
{
    match p.fields.get(number as usize) {
        Some(field) => Some(*field),
        None => None,
    }
}

/// Adds what stands in a field.
fn write_field_value(
    text: &mut Vec<u8>,
    alloc: Global,
    field: Option<FieldInfo>,
    n: u64,
) -> Result<(), AllocError>
    ensures { OnOk result (text.new.items ≡ text.old.items ++ field_value field n) }
{
    let mut words = String::new(alloc);
    match field {
        Some(f) => {
            let value = KindText(f.kind, n);
            write!(words, "{value}")?;
        }
        None => write!(words, "{n}")?,
    }
    text.extend_from_slice(words.as_bytes())
}

/// Adds what stands in a word.
pub fn write_value(
    text: &mut Vec<u8>,
    alloc: Global,
    p: &Program,
    word: SharedWord,
    n: u64,
) -> Result<(), AllocError>
    ensures { OnOk result (text.new.items ≡ text.old.items ++ shared_value_text p.now word n) }
{
    let mut words = String::new(alloc);
    match word {
        SharedWord::Field(_, number) => {
            return write_field_value(text, alloc, field_of(p, number), n);
        }
        SharedWord::StaticField(number) => {
            return write_field_value(text, alloc, field_of(p, number), n);
        }
        SharedWord::Header(_) => return write_header(text, alloc, p, n),
        SharedWord::Lock(_) => {
            let lock = LockText(n);
            write!(words, "{lock}")?;
        }
        SharedWord::Waiting(_, _) => return write_waiting(text, alloc, n),
        SharedWord::Owner(_, _) => {
            let owner = OwnerText(n);
            write!(words, "{owner}")?;
        }
        SharedWord::Element(_, _) => {
            let value = int_of(n);
            write!(words, "{value}")?;
        }
        _ => write!(words, "{n}")?,
    }
    text.extend_from_slice(words.as_bytes())
}
