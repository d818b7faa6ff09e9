//! Which word an event accesses, fact by fact.

ghost use Rattle.std.specs.Prelude.{◌≡◌, ◌++◌, ◌∷◌, [], slice_get, OnOk};
ghost use Rattle.event_texts.specs.WordFacts.{declared_facts, field_class_facts, field_name_fact};
ghost use Rattle.event_texts.specs.WordFacts.{numbered_facts, plain_word, record_facts, word_facts};
ghost use Rattle.tellings.specs.declared.facts.Fact.TheVariants.{Text as TextFact};
ghost use Rattle.tellings.specs.declared.keys.Key.TheVariants.{Word};

use crate::monitors::{add_monitor, add_on_monitor};
use crate::values::field_of;
use crate::words::SharedWord;
use checked_program::Checked;
use jvm_types::{Bytes, FieldInfo, Program, Rows};
use run_texts::write_class;
use std::alloc::{AllocError, Global};
use tellings::{Fact, Key, add_count, add_text};

/// Adds the class that declares a field.
fn add_field_class(
    facts: &mut Rows<Fact>,
    alloc: Global,
    p: &Program,
    field: Option<FieldInfo>,
) -> Result<(), AllocError>
    ensures { OnOk result (facts.new ≡ facts.old ++ field_class_facts p.now.names field) }
{
    match field {
        Some(f) => {
            let mut name = Vec::new(alloc);
            write_class(&mut name, p, f.class)?;
            add_text(facts, alloc, Key::FieldClass, name.as_slice())
        }
        None => Ok(()),
    }
}

/// Adds what kind of field it is, and its class.
fn add_declared(
    facts: &mut Rows<Fact>,
    alloc: Global,
    kind: &[u8],
    p: &Program,
    number: u32,
) -> Result<(), AllocError>
    ensures { OnOk result (facts.new ≡ facts.old ++ declared_facts kind.now p.now number) }
{
    add_text(facts, alloc, Key::WordKind, kind)?;
    add_field_class(facts, alloc, p, field_of(p, number))
}

/// Adds the name of a field, or its number where no name is given.
fn add_field_name(
    facts: &mut Rows<Fact>,
    alloc: Global,
    names: &Rows<Bytes>,
    number: u32,
) -> Result<(), AllocError>
    ensures { OnOk result (facts.new ≡ facts.old ++ field_name_fact names.now number ∷ []) }
{
    match names.get(number as usize) {
        Some(name) => add_text(facts, alloc, Key::FieldName, name.as_slice()),
        None => {
            let mut words = String::new(alloc);
            write!(words, "#{number}")?;
            add_text(facts, alloc, Key::FieldName, words.as_bytes())
        }
    }
}

/// Adds a word of an object or of an array, by its number.
fn add_numbered(
    facts: &mut Rows<Fact>,
    alloc: Global,
    key: Key,
    kind: &[u8],
    of: Key,
    n: u64,
) -> Result<(), AllocError>
    ensures { OnOk result (facts.new ≡ facts.old ++ numbered_facts key kind.now of n) }
{
    add_text(facts, alloc, key, kind)?;
    add_count(facts, of, n)
}

/// Adds a word of a monitor record, by its number and its monitor.
fn add_record(
    facts: &mut Rows<Fact>,
    alloc: Global,
    kind: &[u8],
    c: &Checked,
    m: u32,
    number: u32,
) -> Result<(), AllocError>
    ensures { OnOk result (facts.new ≡ facts.old ++ record_facts kind.now c.now.program m number) }
{
    add_text(facts, alloc, Key::Word, kind)?;
    add_count(facts, Key::RecordOf, u64::from(number))?;
    add_monitor(facts, alloc, c, u64::from(m))
}

/// The words of one that is told by them alone.
fn plain_word(word: SharedWord) -> &'static str
    ensures { result.now ≡ plain_word word }
{
    match word {
        SharedWord::NextFree => "next free word",
        SharedWord::NextTicket => "next ticket",
        SharedWord::NextRecord => "next record",
        _ => "null",
    }
}

fn add_plain(facts: &mut Rows<Fact>, alloc: Global, word: SharedWord) -> Result<(), AllocError>
    ensures { OnOk result (facts.new ≡ facts.old ++ TextFact Word (plain_word word) ∷ []) }
{
    add_text(facts, alloc, Key::Word, plain_word(word).as_bytes())
}

/// Adds a word: what kind it is, and whose.
pub fn add_word(
    facts: &mut Rows<Fact>,
    alloc: Global,
    c: &Checked,
    names: &Rows<Bytes>,
    word: SharedWord,
) -> Result<(), AllocError>
    ensures { OnOk result
        (facts.new ≡ facts.old ++ word_facts c.now.program names.now word) }
{
    match word {
        SharedWord::Field(object, number) => {
            add_declared(facts, alloc, b"field", c.program(), number)?;
            add_count(facts, Key::FieldObject, object)?;
            add_field_name(facts, alloc, names, number)
        }
        SharedWord::StaticField(number) => {
            add_declared(facts, alloc, b"static field", c.program(), number)?;
            add_field_name(facts, alloc, names, number)
        }
        SharedWord::Lock(m) => {
            add_on_monitor(facts, alloc, Key::WordOf, c, b"lock word", u64::from(m))
        }
        SharedWord::Owner(m, record) => add_record(facts, alloc, b"owner", c, m, record),
        SharedWord::Waiting(m, record) => add_record(facts, alloc, b"waiting bits", c, m, record),
        SharedWord::Header(object) => {
            add_numbered(facts, alloc, Key::Word, b"header", Key::HeaderOf, object)
        }
        SharedWord::Element(array, index) => {
            add_numbered(
                facts,
                alloc,
                Key::WordKind,
                b"element",
                Key::ArrayObject,
                array,
            )?;
            add_count(facts, Key::Index, u64::from(index))
        }
        SharedWord::Null | SharedWord::NextFree | SharedWord::NextTicket | SharedWord::NextRecord =>
            add_plain(facts, alloc, word),
    }
}
