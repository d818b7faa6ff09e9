//! Orders as text.

ghost use Rattle.std.specs.Prelude.{◌≡◌, ◌++◌, IfOk, OnOk, string_bytes};
ghost use Rattle.outcome_texts.specs.OrderTexts.{order_text as the_order_text, stretch};
ghost use Rattle.outcome_texts.specs.OrderTexts.{stretches_from};

use jvm_types::Bytes;
use std::alloc::{AllocError, Global};

fn write_stretch(text: &mut String, worker: u8, events: usize) -> Result<(), AllocError>
    ensures { OnOk result (string_bytes text.new ≡ string_bytes text.old ++ stretch worker events) }
{
    write!(text, "{worker}x{events}")
}

/// The stretches of an order whose first event is that of a worker.
fn write_stretches(text: &mut String, first: u8, order: &[u8]) -> Result<(), AllocError>
    ensures { OnOk result
        (string_bytes text.new ≡ string_bytes text.old ++ stretches_from first 1 order.now) }
{
    let mut worker = first;
    let mut events = 1;
    for t in order {
        if *t == worker {
            events += 1;
        } else {
            write_stretch(text, worker, events)?;
            text.push_str(",")?;
            worker = *t;
            events = 1;
        }
    }
    write_stretch(text, worker, events)
}

/// An order as stretches, or a dash where it has no event.
pub(crate) fn order_text(alloc: Global, order: &[u8]) -> Result<Bytes, AllocError>
    ensures { IfOk result (λ text. text ≡ the_order_text order.now) }
{
    let mut text = String::new(alloc);
    match order {
        [] => text.push_str("-")?,
        [first, others @ ..] => write_stretches(&mut text, *first, others)?,
    }
    Bytes::from_slice(alloc, text.as_bytes())
}
