//! Readers of shapes, direct and refined ones, as the coder asks them.
ghost use Rattle.std.specs.Prelude.{◌≡◌, ◌-◌, ◌≤◌, ℕ, length, Option, Some, None};
ghost use Rattle.djvu_base.specs.Meter.{TicksExactly};
ghost use Rattle.zp_decoder.specs.Decoder.{room_left};
ghost use Rattle.zp_decoder.specs.States.{AreBelow};
ghost use Rattle.bit_plane.specs.Pixels.{Pixels};
ghost use Rattle.jb2_shapes.specs.Numbers.{states_of};
ghost use Rattle.jb2_shapes.specs.Shape.{Sketch, IsWhole};
ghost use Rattle.jb2_records.specs.Taking.{context_of, IsOf, Sketches};

use djvu_base::CountMeter;
use jb2_shapes::{DirectReader, RefineReader, ShapeContexts, ShapeStep};
use zp_decoder::ZpDecoder;

/// A reader of a shape, of which contracts see the matched shape, if it refines one, and what was read so far.
pub(crate) trait ShapeReader {
    ghost matched: { Self → Option Pixels };

    ghost sketch: { Self → Sketch };

    /// Reads on, as far as the bytes taken go. Each pixel ticks the meter once.
    fn read_on(
        &mut self,
        contexts: &mut ShapeContexts,
        zp: &mut ZpDecoder,
        meter: &mut CountMeter,
    ) -> ShapeStep
        requires { AreBelow (length zp.old.table) (states_of contexts.old) }
        ensures advances { (of : Option Pixels) (width height : ℕ) → IsOf of width height (matched self.old) (sketch self.old) →
            Sketches (context_of of width height) zp.old zp.new (sketch self.old) (sketch self.new)
            (states_of contexts.old) (states_of contexts.new) result }
        ensures done { result ≡ ShapeStep.Done → IsWhole (sketch self.new) }
        ensures matched { matched self.new ≡ matched self.old }
        ensures width { (sketch self.new).shape.width ≡ (sketch self.old).shape.width }
        ensures height { (sketch self.new).shape.height ≡ (sketch self.old).shape.height }
        ensures grows { (sketch self.old).number ≤ (sketch self.new).number }
        ensures ticks { TicksExactly ((sketch self.new).number - (sketch self.old).number) meter.old meter.new }
        ensures room { room_left zp.new ≤ room_left zp.old }
        ensures below { AreBelow (length zp.new.table) (states_of contexts.new) }
        ensures table { zp.new.table ≡ zp.old.table }
        ensures ended { zp.new.ended ≡ zp.old.ended };
}

impl ShapeReader for DirectReader {
    ghost matched = { λ reader. None };

    ghost sketch = { λ reader. reader };

    fn read_on(
        &mut self,
        contexts: &mut ShapeContexts,
        zp: &mut ZpDecoder,
        meter: &mut CountMeter,
    ) -> ShapeStep {
        let step = self.advance(contexts, zp, meter);
        zp.was_fed();
        step
    }
}

impl ShapeReader for RefineReader {
    ghost matched = { λ reader. Some reader.matched };

    ghost sketch = { λ reader. reader.sketch };

    fn read_on(
        &mut self,
        contexts: &mut ShapeContexts,
        zp: &mut ZpDecoder,
        meter: &mut CountMeter,
    ) -> ShapeStep {
        let step = self.advance(contexts, zp, meter);
        zp.was_fed();
        step
    }
}
