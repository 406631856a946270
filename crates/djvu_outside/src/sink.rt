//! Sinks.
ghost use Rattle.std.specs.Prelude.{◌≡◌, ℕ, ◌<◌, List, Option, length};
ghost use Rattle.djvu_outside.specs.Faults.{SinkCounts};
ghost use Rattle.djvu_outside.specs.Reading.{Puts};

use crate::faults::SinkFault;

/// What takes bytes, one piece after another.
pub trait Sink {
    /// All bytes that were taken. Some sinks tell them.
    ghost given: { Self → Option (List ℕ) };

    /// How many calls failed. It never falls.
    ghost faults: { Self → ℕ };

    /// Takes the piece. A call that failed may have taken a front of it, and one without memory took nothing.
    fn put(&mut self, piece: &[u8]) -> Result<(), SinkFault>
        requires { 0 < length piece.now }
        ensures taken { (before : List ℕ) → given self.old ≡ Some before → (after : List ℕ) × (given self.new ≡ Some after) × Puts result before piece.now after }
        ensures counts { SinkCounts result (faults self.old) (faults self.new) };
}
