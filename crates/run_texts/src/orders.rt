//! The report of a run whose order was recorded.

ghost use Rattle.std.specs.Prelude.{◌≡◌, ◌<◌, ◌++◌, IfOk, OnOk, length, string_bytes};
ghost use Rattle.std.specs.Fmt.{decimal};
ghost use Rattle.std.specs.List.{flat_map};
ghost use Rattle.run_texts.specs.OrderText.{order_line as the_order_line, order_words};
ghost use Rattle.run_texts.specs.Report.{report_text};

use crate::reports::report;
use jvm_types::{Bytes, Outcome};
use std::alloc::{AllocError, Global};

/// The report of a run, and behind it the line `order DIGITS` of the workers that made its events,
/// or `order -` where there are none.
pub fn recorded_report(alloc: Global, outcome: &Outcome, order: &Bytes) -> Result<Bytes, AllocError>
    requires { 0 < length outcome.now.threads }
    ensures { IfOk result (λ text. text ≡ report_text outcome.now ++ the_order_line order.now) }
{
    let mut text = report(alloc, outcome)?;
    let line = order_line(alloc, order.as_slice())?;
    text.extend_from_slice(line.as_slice())?;
    Ok(text)
}

fn order_line(alloc: Global, order: &[u8]) -> Result<Bytes, AllocError>
    ensures { IfOk result (λ text. text ≡ the_order_line order.now) }
{
    let mut text = String::new(alloc);
    text.push_str("order ")?;
    write_order(&mut text, order)?;
    text.push_str("\n")?;
    Bytes::from_slice(alloc, text.as_bytes())
}

fn write_order(text: &mut String, order: &[u8]) -> Result<(), AllocError>
    ensures { OnOk result (string_bytes text.new ≡ string_bytes text.old ++ order_words order.now) }
{
    if order.is_empty() {
        return text.push_str("-");
    }
    write_numbers(text, order)
}

fn write_numbers(text: &mut String, order: &[u8]) -> Result<(), AllocError>
    ensures { OnOk result
        (string_bytes text.new ≡ string_bytes text.old ++ flat_map decimal order.now) }
{
    for worker in order {
        let number = *worker;
        write!(text, "{number}")?;
    }
    Ok(())
}
