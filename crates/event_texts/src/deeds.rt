//! What an instruction prints, and which monitor it notifies where it does all of that itself.

ghost use Rattle.std.specs.Prelude.{◌≡◌, ◌++◌, OnOk};
ghost use Rattle.event_texts.specs.DeedFacts.{deed_facts, share_steps};

use crate::monitors::add_on_monitor;
use crate::shares::Share;
use checked_program::Checked;
use instr_effects::ints::int_of;
use jvm_types::Rows;
use machine_types::Effect;
use std::alloc::{AllocError, Global};
use tellings::{Fact, Key};

/// For how many steps of the plain machine an event stands.
pub fn share_steps(share: &Share) -> u64
    ensures { result ≡ share_steps share.now }
{
    match share {
        Share::Steps(acts) => acts.len(),
        Share::Owes(_) | Share::Section(_) => 0,
    }
}

/// Adds what an instruction prints, or which monitor it notifies, by the steps that it stands for.
pub fn add_deed(
    facts: &mut Rows<Fact>,
    alloc: Global,
    c: &Checked,
    effect: Option<Effect>,
    steps: u64,
) -> Result<(), AllocError>
    ensures { OnOk result (facts.new ≡ facts.old ++ deed_facts c.now.program effect steps) }
{
    match effect {
        Some(Effect::Prints(n)) if steps == 1 => facts.push(Fact::Value(Key::Prints, int_of(n))),
        Some(Effect::Notifies(m)) if steps == 2 => {
            add_on_monitor(facts, alloc, Key::Does, c, b"notifies on", m)
        }
        Some(Effect::NotifiesAll(m)) if steps == 2 => {
            add_on_monitor(facts, alloc, Key::Does, c, b"notifies all on", m)
        }
        _ => Ok(()),
    }
}
