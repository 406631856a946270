//! A sink over a writer.
ghost use Rattle.std.specs.Prelude.{◌≡◌, ◌≢◌, ◌<◌, None, length, OnOk};
ghost use Rattle.std.specs.Io.KnownBytes.{Appends};
ghost use Rattle.djvu_outside.specs.Faults.{SinkCounts};
ghost use Rattle.djvu_outside.specs.Sinks.{new_writer};

use crate::faults::SinkFault;
use crate::sink::Sink;
use std::io;
use std::io::Write;
use std::marker::Model;

/// A sink that puts every piece through to a writer, such as a file or the standard output.
#[derive(Drop)]
pub struct WriteSink<W: Write> {
    writer: W,
    failed: u64,
}

impl<W: Write> Model for WriteSink<W> {
    ghost use Rattle.djvu_outside.specs.Sinks.{WrittenBytes};

    ghost Value = { WrittenBytes };

    ghost view = { λ a. record { written = W.contents a.writer; faults = a.failed } };
}

impl<W: Write + Drop> WriteSink<W> {
    /// A sink over this writer.
    pub fn new(writer: W) -> WriteSink<W>
        ensures { result ≡ new_writer (W.contents writer) }
    {
        WriteSink { writer, failed: 0 }
    }
}

impl<W: Write + Drop> Sink for WriteSink<W> {
    ghost given = { λ _. None };

    ghost faults = { λ sink. sink.faults };

    /// Writes the whole piece and flushes the writer, so that no failure comes after an `Ok`. A piece that failed may
    /// have been written in part.
    fn put(&mut self, piece: &[u8]) -> Result<(), SinkFault>
        requires { 0 < length piece.now }
        ensures counts { SinkCounts result self.old.faults self.new.faults }

        ensures written { OnOk result (Appends self.old.written self.new.written piece.now) }
        ensures no_other_fault { result ≢ Err SinkFault.OutOfMemory }
    {
        match write_through(&mut self.writer, piece) {
            Ok(()) => Ok(()),
            Err(_) => {
                self.failed = self.failed.saturating_add(1);
                Err(SinkFault::Failed)
            }
        }
    }
}

fn write_through<W: Write>(writer: &mut W, piece: &[u8]) -> io::Result<()>
    ensures { OnOk result (Appends (W.contents writer.old) (W.contents writer.new) piece.now) }
{
    writer.write_all(piece)?;
    writer.flush()
}
