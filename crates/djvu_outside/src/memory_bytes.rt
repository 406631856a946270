//! A sink in memory.
ghost use Rattle.std.specs.Prelude.{◌≡◌, ◌<◌, ◌↔◌, ℕ, List, Some, length, IsTrue, IsErrOf, OnOk, OnErr, ◌++◌, if◌then◌else◌};
ghost use Rattle.djvu_base.specs.Meter.{ticked_once};
ghost use Rattle.djvu_outside.specs.Calls.{is_failing, after_call};
ghost use Rattle.djvu_outside.specs.Faults.{SinkCounts};
ghost use Rattle.djvu_outside.specs.Reading.{Puts};
ghost use Rattle.djvu_outside.specs.Sinks.{new_bytes};

use crate::calls::Calls;
use crate::faults::SinkFault;
use crate::sink::Sink;
use std::alloc::Global;
use std::marker::Model;

/// A sink that keeps all bytes that it was given, and fails at the calls that it was told.
#[derive(Debug, Drop)]
pub struct MemorySink {
    taken: Vec<u8>,
    failed: u64,
    calls: Calls,
}

impl Model for MemorySink {
    ghost use Rattle.djvu_outside.specs.Sinks.{MemoryBytes};

    ghost Value = { MemoryBytes };

    ghost view = { λ a. record { given = a.taken.items; faults = a.failed; calls = a.calls } };
}

impl MemorySink {
    /// A sink that was given nothing. The calls of `put` are numbered from 0, and those whose number stands in
    /// `failing` fail.
    pub fn new(alloc: Global, failing: Vec<u64>) -> MemorySink
        ensures { result ≡ new_bytes failing.items }
    {
        MemorySink {
            taken: Vec::new(alloc),
            failed: 0,
            calls: Calls::new(failing),
        }
    }

    /// All bytes that were given.
    pub fn bytes(&self) -> &[u8]
        ensures { result.now ≡ self.now.given }
    {
        self.taken.as_slice()
    }
}

impl Sink for MemorySink {
    ghost given = { λ sink. Some sink.given };

    ghost faults = { λ sink. sink.faults };

    /// Takes the piece. A call that fails, or that finds no memory, takes nothing.
    fn put(&mut self, piece: &[u8]) -> Result<(), SinkFault>
        requires { 0 < length piece.now }
        ensures taken { (before : List ℕ) → Some self.old.given ≡ Some before → (after : List ℕ) × (Some self.new.given ≡ Some after) × Puts result before piece.now after }
        ensures counts { SinkCounts result self.old.faults self.new.faults }

        ensures fails { IsErrOf result SinkFault.Failed ↔ IsTrue (is_failing self.old.calls) }
        ensures ok { OnOk result (self.new.given ≡ self.old.given ++ piece.now) }
        ensures err { OnErr result (self.new.given ≡ self.old.given) }
        ensures faults { self.new.faults ≡ (if is_failing self.old.calls then ticked_once self.old.faults else self.old.faults) }
        ensures calls { self.new.calls ≡ after_call self.old.calls }
    {
        if self.calls.fails() {
            self.failed = self.failed.saturating_add(1);
            return Err(SinkFault::Failed);
        }
        match self.taken.extend_from_slice(piece) {
            Ok(()) => Ok(()),
            Err(_) => Err(SinkFault::OutOfMemory),
        }
    }
}
