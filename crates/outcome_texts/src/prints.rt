//! Printed numbers, fact by fact.

ghost use Rattle.std.specs.Prelude.{◌≡◌, ◌++◌, OnOk};
ghost use Rattle.std.specs.List.{flat_map};
ghost use Rattle.outcome_texts.specs.OutcomeFacts.{dash_if_none, plain_print_facts};
ghost use Rattle.outcome_texts.specs.OutcomeFacts.{prints_facts as the_prints_facts};

use crate::steps::add_words;
use history_rule::Printed;
use jvm_types::Rows;
use std::alloc::{AllocError, Global};
use tellings::{Fact, Key, add_count};

/// Adds a number with the worker that has printed it, or one of thread 0 alone.
fn add_print(facts: &mut Rows<Fact>, x: &Printed) -> Result<(), AllocError>
    ensures { OnOk result (facts.new ≡ facts.old ++ plain_print_facts x.now) }
{
    facts.push(Fact::Item)?;
    if x.thread() == 0 {
        add_count(facts, Key::PrintThreadUnsaid, 0)?;
        facts.push(Fact::Value(Key::PrintAlone, x.value()))?;
    } else {
        add_count(facts, Key::PrintThread, u64::from(x.thread()))?;
        facts.push(Fact::Value(Key::PrintBehind, x.value()))?;
    }
    facts.push(Fact::Closes)
}

fn add_each_print(facts: &mut Rows<Fact>, prints: &[Printed]) -> Result<(), AllocError>
    ensures { OnOk result (facts.new ≡ facts.old ++ flat_map plain_print_facts prints.now) }
{
    for x in prints {
        add_print(facts, x)?;
    }
    Ok(())
}

/// Adds a dash where there is nothing of a list.
pub(crate) fn add_dash_if_none<T>(
    facts: &mut Rows<Fact>,
    alloc: Global,
    items: &[T],
) -> Result<(), AllocError>
    ensures { OnOk result (facts.new ≡ facts.old ++ dash_if_none items.now) }
{
    match items {
        [] => add_words(facts, alloc, b" -"),
        _ => Ok(()),
    }
}

/// Adds what was printed, in order.
pub(crate) fn add_prints(
    facts: &mut Rows<Fact>,
    alloc: Global,
    prints: &[Printed],
) -> Result<(), AllocError>
    ensures { OnOk result (facts.new ≡ facts.old ++ the_prints_facts prints.now) }
{
    facts.push(Fact::Lists(Key::AllPrints))?;
    add_dash_if_none(facts, alloc, prints)?;
    add_each_print(facts, prints)?;
    facts.push(Fact::Ends)
}
