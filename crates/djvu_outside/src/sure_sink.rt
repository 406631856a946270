//! A sink in memory that never fails.
ghost use Rattle.std.specs.Prelude.{◌≡◌, ◌≢◌, ◌<◌, ◌++◌, ℕ, List, [], Some, Err, length, OnOk, OnErr};
ghost use Rattle.djvu_outside.specs.Faults.{SinkCounts};
ghost use Rattle.djvu_outside.specs.Reading.{Puts};

use crate::faults::SinkFault;
use crate::sink::Sink;
use std::alloc::Global;
use std::marker::Model;

/// A sink that keeps all bytes that it was given, and never fails. It may find no memory for them.
#[derive(Debug, Drop)]
pub struct SureSink {
    taken: Vec<u8>,
}

impl Model for SureSink {
    ghost Value = { List ℕ };

    ghost view = { λ a. a.taken.items };
}

impl SureSink {
    /// A sink that was given nothing.
    pub fn new(alloc: Global) -> SureSink
        ensures { result ≡ [] }
    {
        SureSink {
            taken: Vec::new(alloc),
        }
    }

    /// All bytes that were given.
    pub fn bytes(&self) -> &[u8]
        ensures { result.now ≡ self.now }
    {
        self.taken.as_slice()
    }
}

impl Sink for SureSink {
    ghost given = { λ sink. Some sink };

    ghost faults = { λ sink. 0 };

    /// Takes the piece, or nothing of it where there is no memory.
    fn put(&mut self, piece: &[u8]) -> Result<(), SinkFault>
        requires { 0 < length piece.now }
        ensures taken { (before : List ℕ) → Some self.old ≡ Some before → (after : List ℕ) × (Some self.new ≡ Some after) × Puts result before piece.now after }
        ensures counts { SinkCounts result 0 0 }

        ensures sure { result ≢ Err SinkFault.Failed }
        ensures ok { OnOk result (self.new ≡ self.old ++ piece.now) }
        ensures err { OnErr result (self.new ≡ self.old) }
    {
        match self.taken.extend_from_slice(piece) {
            Ok(()) => Ok(()),
            Err(_) => Err(SinkFault::OutOfMemory),
        }
    }
}
