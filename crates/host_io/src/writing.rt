//! A text that is written whole to a sink.
ghost use Rattle.host_io.specs.Writing.{IsWritten};

use crate::sink::{Sink, SinkFailed};

/// Writes the whole text, or its front up to a fault of the sink.
pub fn write_whole<K: Sink>(sink: &mut K, text: &[u8]) -> Result<(), SinkFailed>
    ensures { IsWritten (K.text sink.old) (K.text sink.new)
        (K.faults sink.old) (K.faults sink.new) text.now result }
{
    let mut written = 0;
    while written < text.len() {
        written += sink.write_some(&text[written..])?;
    }
    Ok(())
}
