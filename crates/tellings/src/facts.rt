//! What there is to tell of a thing, fact by fact.

ghost use Rattle.std.specs.Prelude.{◌≡◌, ◌++◌, ◌∷◌, [], OnOk};
ghost use Rattle.tellings.specs.Forms.{text_facts};
ghost use Rattle.tellings.specs.declared.facts.Fact.TheVariants.{Count, Text};

use crate::keys::Key;
use lists::{Bytes, Rows};
use std::alloc::{AllocError, Global};

/// A fact; or the begin or the end of facts that stand together.
#[derive(Debug, Drop)]
pub enum Fact {
    /// Words that stand on a line alone.
    Words(Bytes),
    /// A text.
    Text(Key, Bytes),
    /// A number that is never negative.
    Count(Key, u64),
    /// A number of Java, signed.
    Value(Key, i32),
    /// Some texts.
    Texts(Key, Rows<Bytes>),
    /// What follows, up to its end, is an object of its own.
    Opens(Key),
    /// What follows, up to its end, is a list of objects.
    Lists(Key),
    /// The begin of an object in such a list.
    Item,
    /// The end of an object that a key or a list has.
    Closes,
    /// The end of a list.
    Ends,
}

/// Adds a text to some facts.
pub fn add_text(
    facts: &mut Rows<Fact>,
    alloc: Global,
    key: Key,
    text: &[u8],
) -> Result<(), AllocError>
    ensures { OnOk result (facts.new ≡ facts.old ++ Text key text.now ∷ []) }
{
    facts.push(Fact::Text(key, Bytes::from_slice(alloc, text)?))
}

/// Adds a number.
pub fn add_count(facts: &mut Rows<Fact>, key: Key, n: u64) -> Result<(), AllocError>
    ensures { OnOk result (facts.new ≡ facts.old ++ Count key n ∷ []) }
{
    facts.push(Fact::Count(key, n))
}

/// Adds a text where there is one.
pub fn add_text_if(
    facts: &mut Rows<Fact>,
    alloc: Global,
    key: Key,
    text: &[u8],
) -> Result<(), AllocError>
    ensures { OnOk result (facts.new ≡ facts.old ++ text_facts key text.now) }
{
    match text {
        [] => Ok(()),
        _ => add_text(facts, alloc, key, text),
    }
}
