//! Texts by numbers, with what each means, so that a text is compared and read once, however many
//! constants name it.

ghost use Rattle.std.specs.Prelude.{◌≡◌, ℕ, ◌≤◌, ◌<◌, ◌+◌, ◌^◌, List, [], None, IfOk, OnOk};
ghost use Rattle.std.specs.Prelude.{IsSomeAnd};
ghost use Rattle.std.specs.Option.{option_map};
ghost use Rattle.jvm_types.specs.ClassNames.{named_class};
ghost use Rattle.jvm_types.specs.Descriptors.{method_signature as signature_named};
ghost use Rattle.descriptors.specs.Signatures.{meaning};
ghost use Rattle.link_scope.specs.TextNumbers.{IsMeaning};

use descriptors::{ClassNumbers, Signature, field_kind, method_signature};
use jvm_types::{Kind, Rows};
use std::alloc::{AllocError, Global};
use std::collections::BTreeMap;
use std::marker::Model;

/// The number of the empty text.
pub const EMPTY: u32 = 0;

/// What a text says where it is the name of a class or a field descriptor, and whether it is a
/// method descriptor.
#[derive(Clone, Copy, Debug)]
pub struct Meaning {
    /// The number of the class.
    pub class: Option<u16>,
    /// The same, where 0 stands for `java/lang/System`.
    pub named: Option<u16>,
    pub kind: Option<Kind>,
    pub is_method: bool,
}

/// Texts, each with a number. Contracts see the names of the classes that they may name, the number
/// of each text, and how many numbers were given.
#[derive(Drop)]
pub struct Texts<'a> {
    classes: ClassNumbers<'a>,
    numbers: BTreeMap<&'a [u8], u32>,
    meanings: Rows<Meaning>,
}

impl<'a> Model for Texts<'a> {
    ghost use Rattle.std.specs.Prelude.{length};
    ghost use Rattle.link_scope.specs.TextNumbers.{Numbered, AreTexts, by_bytes};

    ghost Value = { Numbered };

    ghost view = { λ t.
        record {
          names = t.classes;
          numbers = by_bytes t.numbers.entries;
          count = length t.meanings;
        } };

    ghost invariant = { λ t. AreTexts t.classes (by_bytes t.numbers.entries) t.meanings };
}

/// What a text says, among these classes.
fn read_meaning(
    alloc: Global,
    classes: &ClassNumbers<'_>,
    text: &[u8],
) -> Result<Meaning, AllocError>
    ensures { IfOk result (IsMeaning classes.now text.now) }
{
    let signature = method_signature(alloc, classes, text)?;
    Ok(Meaning {
        class: classes.number(text),
        named: classes.named(text),
        kind: field_kind(classes, text),
        is_method: signature.is_some(),
    })
}

impl<'a> Texts<'a> {
    ghost use Rattle.link_scope.specs.TextNumbers.{number_of, IsNumbered, AreApart, Keeps};

    /// The empty text alone, among these classes.
    pub fn new(alloc: Global, classes: ClassNumbers<'a>) -> Result<Self, AllocError>
        ensures names { IfOk result (λ t. t.names ≡ classes.entry) }
        ensures empty { IfOk result (λ t. IsNumbered t.numbers [] EMPTY) }
        ensures count { IfOk result (λ t. t.count ≡ 1) }
    {
        let empty = read_meaning(alloc, &classes, b"")?;
        let mut meanings = Rows::new(alloc);
        meanings.push(empty)?;
        let mut numbers = BTreeMap::new(alloc);
        numbers.insert(b"".as_slice(), EMPTY)?;
        Ok(Texts {
            classes,
            numbers,
            meanings,
        })
    }

    /// The number of a text, which it is given where it has none.
    pub fn add(&mut self, alloc: Global, text: &'a [u8]) -> Result<u32, AllocError>
        requires { self.old.count < 2 ^ 32 }
        ensures number { IfOk result (IsNumbered self.new.numbers text.now) }
        ensures kept { OnOk result (Keeps self.old.numbers self.new.numbers) }
        ensures names { OnOk result (self.new.names ≡ self.old.names) }
        ensures count { OnOk result (self.new.count ≤ self.old.count + 1) }
    {
        match self.number(text) {
            Some(number) => Ok(number),
            None => self.give(alloc, text),
        }
    }

    /// Gives the next number to a text.
    fn give(&mut self, alloc: Global, text: &'a [u8]) -> Result<u32, AllocError>
        requires absent { number_of self.old.numbers text.now ≡ None }
        requires fits { self.old.count < 2 ^ 32 }
        ensures number { IfOk result (IsNumbered self.new.numbers text.now) }
        ensures kept { OnOk result (Keeps self.old.numbers self.new.numbers) }
        ensures names { OnOk result (self.new.names ≡ self.old.names) }
        ensures count { OnOk result (self.new.count ≤ self.old.count + 1) }
    {
        let number = self.meanings.len() as u32;
        let meaning = read_meaning(alloc, &self.classes, text)?;
        self.meanings.push(meaning)?;
        self.numbers.insert(text, number)?;
        Ok(number)
    }

    /// The number of a text, where it has one.
    pub fn number(&self, text: &[u8]) -> Option<u32>
        ensures number { result ≡ number_of self.now.numbers text.now }
        ensures apart { AreApart self.now.numbers }
    {
        self.numbers.get(text).copied()
    }

    /// The number of the class that a text names, where 0 stands for `java/lang/System`.
    pub fn named_class(&self, text: &[u8]) -> Option<u16>
        ensures { result ≡ named_class self.now.names text.now }
    {
        self.classes.named(text)
    }

    /// What a text says as a method descriptor, read anew.
    pub fn signature(&self, alloc: Global, text: &[u8]) -> Result<Option<Signature>, AllocError>
        ensures { IfOk result
            (λ found. option_map meaning found ≡ signature_named self.now.names text.now) }
    {
        method_signature(alloc, &self.classes, text)
    }

    /// What the text with a number means; `None` only where no text has the number.
    pub fn meaning(&self, number: u32) -> Option<Meaning>
        ensures { (text : List ℕ) → IsNumbered self.now.numbers text number
            → IsSomeAnd result (IsMeaning self.now.names text) }
    {
        self.meanings.get(number as usize).copied()
    }
}
