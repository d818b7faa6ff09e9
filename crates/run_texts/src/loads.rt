//! The summary of a load.

ghost use Rattle.std.specs.Prelude.{◌≡◌, ◌<◌, IfOk, length};
ghost use Rattle.run_texts.specs.LoadText.{summary_text};

use crate::reports::{write_ends, write_prints};
use jvm_types::{Bytes, Outcome};
use std::alloc::{AllocError, Global};

/// The summary of a load of that size, made from that number: the line `load size S seed X`, and
/// then the report of its run without the lines of counts.
pub fn summary(alloc: Global, size: u32, seed: u32, outcome: &Outcome) -> Result<Bytes, AllocError>
    requires { 0 < length outcome.now.threads }
    ensures { IfOk result (λ text. text ≡ summary_text size seed outcome.now) }
{
    let threads = outcome.threads.as_slice();
    let mut text = String::new(alloc);
    writeln!(text, "load size {size} seed {seed}")?;
    write_prints(&mut text, alloc, threads)?;
    write_ends(&mut text, threads, outcome.done)?;
    Bytes::from_slice(alloc, text.as_bytes())
}
