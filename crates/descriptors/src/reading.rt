//! Descriptors (JVMS 4.3.2, 4.3.3).

ghost use Rattle.std.specs.Prelude.{◌≡◌, ◌∷◌, IfOk};
ghost use Rattle.std.specs.Option.{option_map};
ghost use Rattle.jvm_types.specs.Descriptors.{field_kind as kind_named};
ghost use Rattle.jvm_types.specs.Descriptors.{method_signature as signature_named, class_kind};
ghost use Rattle.jvm_types.specs.Descriptors.{result_kind};
ghost use Rattle.descriptors.specs.Signatures.{meaning, IsFront, IsCut, IsArgs, ends_args};

use crate::class_numbers::ClassNumbers;
use jvm_types::class_numbers::INT_ARRAY_CLASS;
use jvm_types::{Kind, Rows};
use std::alloc::{AllocError, Global};

/// The types of a method's arguments, without its receiver, and that of its result; `None` stands
/// for V.
#[derive(Debug, Drop)]
pub struct Signature {
    pub args: Rows<Kind>,
    pub result: Option<Kind>,
}

/// A type, and what stands behind it.
#[derive(Drop)]
struct Front<'a> {
    kind: Kind,
    rest: &'a [u8],
}

/// The name of a class, and what stands behind the `;` that ends it.
#[derive(Drop)]
struct Cut<'a> {
    name: &'a [u8],
    rest: &'a [u8],
}

/// The types of a method's arguments, and what stands behind them.
#[derive(Drop)]
struct Args<'a> {
    kinds: Rows<Kind>,
    rest: &'a [u8],
}

/// What stands before the first `;` and behind it.
fn cut_name(text: &[u8]) -> Option<Cut<'_>>
    ensures { IsCut text.now result }
{
    for (at, byte) in text.iter().enumerate() {
        if *byte == b';' {
            return Some(Cut {
                name: &text[..at],
                rest: &text[at + 1..],
            });
        }
    }
    None
}

/// The type of a class with this name: `[I` is no class here.
fn class_kind(classes: &ClassNumbers<'_>, name: &[u8]) -> Option<Kind>
    ensures { result ≡ class_kind classes.now name.now }
{
    if name == b"[I".as_slice() {
        return None;
    }
    match classes.number(name) {
        Some(class) => Some(Kind::Ref(class)),
        None => None,
    }
}

/// The type that a text begins with behind its `L`.
fn read_class<'a>(classes: &ClassNumbers<'_>, text: &'a [u8]) -> Option<Front<'a>>
    ensures { IsFront classes.now (76 ∷ text.now) result }
{
    match cut_name(text) {
        Some(cut) => match class_kind(classes, cut.name) {
            Some(kind) => Some(Front {
                kind,
                rest: cut.rest,
            }),
            None => None,
        },
        None => None,
    }
}

/// The type that a text begins with.
fn read_kind<'a>(classes: &ClassNumbers<'_>, text: &'a [u8]) -> Option<Front<'a>>
    ensures { IsFront classes.now text.now result }
{
    match text {
        [b'I', rest @ ..] => Some(Front {
            kind: Kind::Int,
            rest,
        }),
        [b'Z', rest @ ..] => Some(Front {
            kind: Kind::Bool,
            rest,
        }),
        [b'[', b'I', rest @ ..] => Some(Front {
            kind: Kind::Ref(INT_ARRAY_CLASS),
            rest,
        }),
        [b'L', rest @ ..] => read_class(classes, rest),
        _ => None,
    }
}

/// The type that a field descriptor names (JVMS 4.3.2), or `None` where it names none of this
/// machine's. The text is read once, and a class in it is looked up once.
pub fn field_kind(classes: &ClassNumbers<'_>, text: &[u8]) -> Option<Kind>
    ensures { result ≡ kind_named classes.now text.now }
{
    match read_kind(classes, text) {
        Some(front) => {
            if front.rest.is_empty() {
                Some(front.kind)
            } else {
                None
            }
        }
        None => None,
    }
}

/// What a return descriptor names: V, or a type.
fn result_kind(classes: &ClassNumbers<'_>, text: &[u8]) -> Option<Option<Kind>>
    ensures { result ≡ result_kind classes.now text.now }
{
    if text == b"V".as_slice() {
        return Some(None);
    }
    match field_kind(classes, text) {
        Some(kind) => Some(Some(kind)),
        None => None,
    }
}

/// Whether the text is at its end or at a `)`.
fn ends_args(text: &[u8]) -> bool
    ensures { result ≡ ends_args text.now }
{
    match text {
        [] => true,
        [byte, ..] => *byte == b')',
    }
}

/// The types up to the first `)`.
fn read_args<'a>(
    alloc: Global,
    classes: &ClassNumbers<'_>,
    text: &'a [u8],
) -> Result<Option<Args<'a>>, AllocError>
    ensures { IfOk result (λ found. IsArgs classes.now text.now found) }
{
    let mut kinds = Rows::new(alloc);
    let mut rest = text;
    while !ends_args(rest) {
        match read_kind(classes, rest) {
            Some(front) => {
                kinds.push(front.kind)?;
                rest = front.rest;
            }
            None => return Ok(None),
        }
    }
    Ok(Some(Args { kinds, rest }))
}

/// What a method descriptor says (JVMS 4.3.3), or `None` where it says nothing to this machine. The
/// text is read once, and each class in it is looked up once.
pub fn method_signature(
    alloc: Global,
    classes: &ClassNumbers<'_>,
    text: &[u8],
) -> Result<Option<Signature>, AllocError>
    ensures { IfOk result
        (λ found. option_map meaning found ≡ signature_named classes.now text.now) }
{
    let [b'(', inside @ ..] = text else {
        return Ok(None);
    };
    let Some(args) = read_args(alloc, classes, inside)? else {
        return Ok(None);
    };
    let [b')', last @ ..] = args.rest else {
        return Ok(None);
    };
    match result_kind(classes, last) {
        Some(result) => Ok(Some(Signature {
            args: args.kinds,
            result,
        })),
        None => Ok(None),
    }
}
