ghost use Rattle.std.specs.Prelude.{◌≡◌};
ghost use Rattle.program_answers.specs.Delivery.{IsDelivered};

use crate::answer::Due;
use host_io::sink::{Sink, SinkFailed};
use host_io::writing::write_whole;

/// The status where the sink failed.
const SINK_FAILED: u8 = 5;

/// Writes the text that is due in a program of that line of use, and answers its status, or 5 where
/// the sink fails.
pub fn deliver<K: Sink>(sink: &mut K, usage: &'static str, due: &Due) -> u8
    ensures { IsDelivered usage.now (K.text sink.old) (K.text sink.new)
        (K.faults sink.old) (K.faults sink.new) due.now result }
{
    match write_whole(sink, due.text(usage)) {
        Ok(()) => due.status(),
        Err(SinkFailed) => SINK_FAILED,
    }
}
