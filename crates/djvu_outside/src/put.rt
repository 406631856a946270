//! Putting a text into a sink.
ghost use Rattle.djvu_outside.specs.Parts.{Gives, SinkStops};

use crate::faults::SinkFault;
use crate::sink::Sink;
use crate::stops::Stop;

/// Puts a text, at once. An empty one makes no call of the sink.
pub fn put_text<S: Sink>(sink: &mut S, text: &[u8]) -> Result<(), Stop>
    ensures taken { Gives result (S.given sink.old) (S.given sink.new) text.now }
    ensures stops { SinkStops result (S.faults sink.old) (S.faults sink.new) }
{
    if text.is_empty() {
        return Ok(());
    }
    match sink.put(text) {
        Ok(()) => Ok(()),
        Err(SinkFault::Failed) => Err(Stop::Sink),
        Err(SinkFault::OutOfMemory) => Err(Stop::Memory),
    }
}
