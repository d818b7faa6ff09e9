//! The two forms of what is told.

ghost use Rattle.std.specs.Prelude.{◌≡◌, ◌++◌, OnOk};
ghost use Rattle.std.specs.List.{flat_map};
ghost use Rattle.std.specs.Fmt.{decimal, signed_decimal};
ghost use Rattle.tellings.specs.Keys.{key_row};
ghost use Rattle.tellings.specs.Forms.{comma, is_first_behind, line_of, listed_items};
ghost use Rattle.tellings.specs.Forms.{listed_words, member_begin, member_behind, member_told};
ghost use Rattle.tellings.specs.Forms.{members_told, object_of, piece, texts_member, told_in};
ghost use Rattle.tellings.specs.Forms.{value_member, words_told};

use crate::facts::Fact;
use crate::keys::Key;
use json_lines::{
    Form, write_json_number, write_json_text, write_number_member, write_text_member,
};
use lists::Bytes;
use std::alloc::{AllocError, Global};

// ---- on a line

fn write_piece(out: &mut Vec<u8>, key: Key, words: &[u8]) -> Result<(), AllocError>
    ensures { OnOk result (out.new.items ≡ out.old.items ++ piece (key_row key) words.now) }
{
    let row = key.row();
    if !row.is_shown {
        return Ok(());
    }
    out.extend_from_slice(row.before.as_bytes())?;
    out.extend_from_slice(words)?;
    out.extend_from_slice(row.behind.as_bytes())
}

fn write_count(out: &mut Vec<u8>, alloc: Global, key: Key, n: u64) -> Result<(), AllocError>
    ensures { OnOk result (out.new.items ≡ out.old.items ++ piece (key_row key) (decimal n)) }
{
    let mut words = Vec::new(alloc);
    write_json_number(&mut words, alloc, n)?;
    write_piece(out, key, words.as_slice())
}

fn write_signed(out: &mut Vec<u8>, alloc: Global, n: i32) -> Result<(), AllocError>
    ensures { OnOk result (out.new.items ≡ out.old.items ++ signed_decimal n) }
{
    let mut digits = String::new(alloc);
    write!(digits, "{n}")?;
    out.extend_from_slice(digits.as_bytes())
}

fn write_value(out: &mut Vec<u8>, alloc: Global, key: Key, n: i32) -> Result<(), AllocError>
    ensures { OnOk result
        (out.new.items ≡ out.old.items ++ piece (key_row key) (signed_decimal n)) }
{
    let mut words = Vec::new(alloc);
    write_signed(&mut words, alloc, n)?;
    write_piece(out, key, words.as_slice())
}

fn write_listed_words(out: &mut Vec<u8>, texts: &[Bytes]) -> Result<(), AllocError>
    ensures { OnOk result (out.new.items ≡ out.old.items ++ listed_words texts.now) }
{
    match texts {
        [] => out.extend_from_slice(b"none"),
        [a] => out.extend_from_slice(a.as_slice()),
        [a, more @ ..] => {
            out.extend_from_slice(a.as_slice())?;
            out.extend_from_slice(b", ")?;
            write_listed_words(out, more)
        }
    }
}

fn write_list(out: &mut Vec<u8>, alloc: Global, key: Key, texts: &[Bytes]) -> Result<(), AllocError>
    ensures { OnOk result
        (out.new.items ≡ out.old.items ++ piece (key_row key) (listed_words texts.now)) }
{
    let mut words = Vec::new(alloc);
    write_listed_words(&mut words, texts)?;
    write_piece(out, key, words.as_slice())
}

fn write_words(out: &mut Vec<u8>, alloc: Global, fact: &Fact) -> Result<(), AllocError>
    ensures { OnOk result (out.new.items ≡ out.old.items ++ words_told fact.now) }
{
    match fact {
        Fact::Words(text) => out.extend_from_slice(text.as_slice()),
        Fact::Text(key, text) => write_piece(out, *key, text.as_slice()),
        Fact::Count(key, n) => write_count(out, alloc, *key, *n),
        Fact::Value(key, n) => write_value(out, alloc, *key, *n),
        Fact::Texts(key, texts) => write_list(out, alloc, *key, texts.as_slice()),
        Fact::Opens(key) => write_piece(out, *key, &[]),
        Fact::Lists(key) => write_piece(out, *key, &[]),
        Fact::Item | Fact::Closes | Fact::Ends => Ok(()),
    }
}

/// Adds the words of the facts, as they stand on a line.
pub fn write_facts(out: &mut Vec<u8>, alloc: Global, facts: &[Fact]) -> Result<(), AllocError>
    ensures { OnOk result (out.new.items ≡ out.old.items ++ flat_map words_told facts.now) }
{
    for fact in facts {
        write_words(out, alloc, fact)?;
    }
    Ok(())
}

fn write_line(out: &mut Vec<u8>, alloc: Global, facts: &[Fact]) -> Result<(), AllocError>
    ensures { OnOk result (out.new.items ≡ out.old.items ++ line_of facts.now) }
{
    write_facts(out, alloc, facts)?;
    out.extend_from_slice(b"\n")
}

// ---- in an object

fn write_items(out: &mut Vec<u8>, texts: &[Bytes]) -> Result<(), AllocError>
    ensures { OnOk result (out.new.items ≡ out.old.items ++ listed_items texts.now) }
{
    match texts {
        [] => Ok(()),
        [a] => write_json_text(out, a.as_slice()),
        [a, more @ ..] => {
            write_json_text(out, a.as_slice())?;
            out.extend_from_slice(b",")?;
            write_items(out, more)
        }
    }
}

#[tactic(auto, unfolding(crate::specs::Forms::texts_member))]
fn write_texts_member(out: &mut Vec<u8>, key: &str, texts: &[Bytes]) -> Result<(), AllocError>
    ensures { OnOk result (out.new.items ≡ out.old.items ++ texts_member key.now texts.now) }
{
    write_json_text(out, key.as_bytes())?;
    out.extend_from_slice(b":[")?;
    write_items(out, texts)?;
    out.extend_from_slice(b"]")
}

#[tactic(auto, unfolding(crate::specs::Forms::value_member))]
fn write_value_member(out: &mut Vec<u8>, alloc: Global, key: &str, n: i32) -> Result<(), AllocError>
    ensures { OnOk result (out.new.items ≡ out.old.items ++ value_member key.now n) }
{
    write_json_text(out, key.as_bytes())?;
    out.extend_from_slice(b":")?;
    write_signed(out, alloc, n)
}

#[tactic(auto, unfolding(crate::specs::Forms::member_begin))]
fn write_member_begin(out: &mut Vec<u8>, key: &str, begin: &[u8]) -> Result<(), AllocError>
    ensures { OnOk result (out.new.items ≡ out.old.items ++ member_begin key.now begin.now) }
{
    write_json_text(out, key.as_bytes())?;
    out.extend_from_slice(b":")?;
    out.extend_from_slice(begin)
}

fn write_member(out: &mut Vec<u8>, alloc: Global, fact: &Fact) -> Result<(), AllocError>
    ensures { OnOk result (out.new.items ≡ out.old.items ++ member_told fact.now) }
{
    match fact {
        Fact::Text(key, text) => write_text_member(out, key.row().member, text.as_slice()),
        Fact::Count(key, n) => write_number_member(out, alloc, key.row().member, *n),
        Fact::Value(key, n) => write_value_member(out, alloc, key.row().member, *n),
        Fact::Texts(key, texts) => write_texts_member(out, key.row().member, texts.as_slice()),
        Fact::Opens(key) => write_member_begin(out, key.row().member, b"{"),
        Fact::Lists(key) => write_member_begin(out, key.row().member, b"["),
        _ => out.extend_from_slice(b"{"),
    }
}

fn write_comma(out: &mut Vec<u8>, first: bool) -> Result<(), AllocError>
    ensures { OnOk result (out.new.items ≡ out.old.items ++ comma first) }
{
    if first {
        Ok(())
    } else {
        out.extend_from_slice(b",")
    }
}

fn write_behind(
    out: &mut Vec<u8>,
    alloc: Global,
    first: bool,
    fact: &Fact,
) -> Result<(), AllocError>
    ensures { OnOk result (out.new.items ≡ out.old.items ++ member_behind first fact.now) }
{
    match fact {
        Fact::Words(_) => Ok(()),
        Fact::Closes => out.extend_from_slice(b"}"),
        Fact::Ends => out.extend_from_slice(b"]"),
        _ => {
            write_comma(out, first)?;
            write_member(out, alloc, fact)
        }
    }
}

fn is_first(first: bool, fact: &Fact) -> bool
    ensures { result ≡ is_first_behind first fact.now }
{
    match fact {
        Fact::Words(_) => first,
        Fact::Opens(_) | Fact::Lists(_) | Fact::Item => true,
        _ => false,
    }
}

/// Adds the members of the facts, as they stand in an object; the first with no comma before it, or
/// behind others.
pub fn write_members(
    out: &mut Vec<u8>,
    alloc: Global,
    is_begin: bool,
    facts: &[Fact],
) -> Result<(), AllocError>
    ensures { OnOk result (out.new.items ≡ out.old.items ++ members_told is_begin facts.now) }
{
    let mut first = is_begin;
    for fact in facts {
        write_behind(out, alloc, first, fact)?;
        first = is_first(first, fact);
    }
    Ok(())
}

fn write_object(
    out: &mut Vec<u8>,
    alloc: Global,
    what: &str,
    facts: &[Fact],
) -> Result<(), AllocError>
    ensures { OnOk result (out.new.items ≡ out.old.items ++ object_of what.now facts.now) }
{
    out.extend_from_slice(b"{")?;
    write_text_member(out, "what", what.as_bytes())?;
    write_members(out, alloc, false, facts)?;
    out.extend_from_slice(b"}\n")
}

/// Adds what is told of a thing, in the form that is asked for, up to the end of the line. The
/// first member of an object is `what`, which says what the thing is.
pub fn write_told(
    out: &mut Vec<u8>,
    alloc: Global,
    form: Form,
    what: &str,
    facts: &[Fact],
) -> Result<(), AllocError>
    ensures { OnOk result (out.new.items ≡ out.old.items ++ told_in form what.now facts.now) }
{
    match form {
        Form::Lines => write_line(out, alloc, facts),
        Form::Json => write_object(out, alloc, what, facts),
    }
}
