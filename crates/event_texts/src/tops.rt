//! The value on top of the stack behind an instruction, by the type that verification gave to it.

ghost use Rattle.std.specs.Prelude.{◌≡◌, ◌++◌, slice_get, OnOk};
ghost use Rattle.event_texts.specs.TopFacts.{has_result, leaves_value, top_facts, type_on_top};
ghost use Rattle.event_texts.specs.TopFacts.{typed_text, value_on_top};

use crate::sights::{After, Before, Spot};
use crate::values::write_reference;
use checked_program::Checked;
use instr_effects::ints::int_of;
use jvm_types::{Program, Rows, VType};
use machine_types::{Effect, Phase};
use std::alloc::{AllocError, Global};
use tellings::{Fact, Key, add_text};

/// The type of the value on top of the stack of a frame that stands there.
fn type_on_top(c: &Checked, at: Spot) -> Option<VType>
    ensures { result ≡ type_on_top c.now at }
{
    let Some(typing) = c.typings().get(at.method as usize) else {
        return None;
    };
    let Some(i) = c.number_at(at.method, at.pc) else {
        return None;
    };
    match typing.frames.get(i) {
        Some(Some(frame)) => match frame.stack().get(0) {
            Some(on_top) => Some(*on_top),
            None => None,
        },
        _ => None,
    }
}

/// Adds a value of a type, as text.
fn write_typed(
    text: &mut Vec<u8>,
    alloc: Global,
    of: Option<VType>,
    n: u64,
) -> Result<(), AllocError>
    ensures { OnOk result (text.new.items ≡ text.old.items ++ typed_text of n) }
{
    let mut words = String::new(alloc);
    match of {
        None | Some(VType::Top) => write!(words, "{n}")?,
        Some(VType::Int) => {
            let value = int_of(n);
            write!(words, "{value}")?;
        }
        Some(_) => return write_reference(text, alloc, n),
    }
    text.extend_from_slice(words.as_bytes())
}

/// Whether the method of that number has a result.
fn has_result(p: &Program, method: u32) -> bool
    ensures { result ≡ has_result (slice_get p.now.methods method) }
{
    match p.methods.get(method as usize) {
        Some(m) => m.result.is_some(),
        None => false,
    }
}

/// Whether it is an instruction that does no more than to go on, or a return with a result.
fn leaves_value(p: &Program, effect: Option<Effect>, at: Option<Spot>) -> bool
    ensures { result ≡ leaves_value p.now effect at }
{
    match (effect, at) {
        (Some(Effect::Goes(_, _)), _) => true,
        (Some(Effect::Returns), Some(at)) => has_result(p, at.method),
        _ => false,
    }
}

fn add_value_on_top(
    facts: &mut Rows<Fact>,
    alloc: Global,
    c: &Checked,
    at: Option<Spot>,
    value: Option<u64>,
) -> Result<(), AllocError>
    ensures { OnOk result (facts.new ≡ facts.old ++ value_on_top c.now at value) }
{
    match (at, value) {
        (Some(at), Some(n)) => {
            let mut words = Vec::new(alloc);
            write_typed(&mut words, alloc, type_on_top(c, at), n)?;
            add_text(facts, alloc, Key::Top, words.as_slice())
        }
        _ => Ok(()),
    }
}

/// Adds the value on top of the stack behind an instruction that does no more than to go on, and
/// behind a return with a result.
pub fn add_top(
    facts: &mut Rows<Fact>,
    alloc: Global,
    c: &Checked,
    before: &Before,
    after: &After,
) -> Result<(), AllocError>
    ensures { OnOk result (facts.new ≡ facts.old ++ top_facts c.now before.now after.now) }
{
    let may = leaves_value(c.program(), before.effect, before.spot);
    match (may, after.phase) {
        (true, Phase::Run) => add_value_on_top(facts, alloc, c, after.spot, after.top),
        _ => Ok(()),
    }
}
