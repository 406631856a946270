//! Direct shapes.
ghost use Rattle.std.specs.Prelude.{◌≡◌, ℕ, ◌-◌, ◌*◌, ◌≤◌, length, List, Option, IfOk};
ghost use Rattle.bit_plane.specs.Pixels.{area_limit, side_limit};
ghost use Rattle.djvu_base.specs.Meter.{TicksExactly};
ghost use Rattle.zp_decoder.specs.Decision.{Interval};
ghost use Rattle.zp_decoder.specs.Decoder.{Fed, room_left};
ghost use Rattle.zp_decoder.specs.States.{AreBelow};
ghost use Rattle.jb2_shapes.specs.Numbers.{states_of};
ghost use Rattle.jb2_shapes.specs.Steps.{Reads, Counts};
ghost use Rattle.jb2_shapes.specs.Shape.{direct_reading, direct_context, progress, empty_sketch, IsWhole};

use crate::canvas::Canvas;
use crate::contexts::ShapeContexts;
use crate::pixels::read_pixel;
use crate::steps::ShapeStep;
use crate::windows::DirectWindow;
use bit_plane::Plane;
use djvu_base::Meter;
use std::alloc::{AllocError, Global};
use std::marker::Model;
use zp_decoder::{Decision, ZpDecoder};

/// Reads a direct shape, each pixel of which is decided in the context of ten pixels before it.
///
/// Contracts see the shape as far as it was read, and the number of pixels that were read.
#[derive(Debug, Drop)]
pub struct DirectReader {
    canvas: Canvas,
}

impl Model for DirectReader {
    ghost use Rattle.jb2_shapes.specs.Shape.{Sketch};

    ghost Value = { Sketch };

    ghost view = { λ a. a.canvas };
}

impl DirectReader {
    /// A reader of a shape of this size in pixels, of which nothing was read.
    pub fn begin(alloc: Global, width: u32, height: u32) -> Result<DirectReader, AllocError>
        requires width { width ≤ side_limit }
        requires height { height ≤ side_limit }
        requires area { width * height ≤ area_limit }
        ensures { IfOk result (λ reader. reader ≡ empty_sketch width height) }
    {
        Ok(DirectReader {
            canvas: Canvas::new(alloc, width, height)?,
        })
    }

    /// Reads on, as far as the bytes go. Each pixel ticks the meter once.
    pub fn advance<M: Meter>(
        &mut self,
        contexts: &mut ShapeContexts,
        zp: &mut ZpDecoder,
        meter: &mut M,
    ) -> ShapeStep
        requires { AreBelow (length zp.old.table) (states_of contexts.old) }
        // For every payload that the decoder was fed, the definition's answer, and all is as it leaves it.
        ensures answer { (payload : List ℕ) (place : Option Interval) → Fed payload place zp.old →
            result ≡ (direct_reading zp.old.table payload zp.old.ended (progress self.old (states_of contexts.old) place)).answer }
        ensures sketch { (payload : List ℕ) (place : Option Interval) → Fed payload place zp.old →
            self.new ≡ (direct_reading zp.old.table payload zp.old.ended (progress self.old (states_of contexts.old) place)).at.sketch }
        ensures states { (payload : List ℕ) (place : Option Interval) → Fed payload place zp.old →
            states_of contexts.new ≡ (direct_reading zp.old.table payload zp.old.ended (progress self.old (states_of contexts.old) place)).at.states }
        ensures fed { (payload : List ℕ) (place : Option Interval) → Fed payload place zp.old →
            Fed payload (direct_reading zp.old.table payload zp.old.ended (progress self.old (states_of contexts.old) place)).at.place zp.new }
        ensures done { result ≡ ShapeStep.Done → IsWhole self.new }

        ensures width { self.new.shape.width ≡ self.old.shape.width }
        ensures height { self.new.shape.height ≡ self.old.shape.height }
        ensures below { AreBelow (length zp.new.table) (states_of contexts.new) }
        ensures table { zp.new.table ≡ zp.old.table }
        ensures ended { zp.new.ended ≡ zp.old.ended }

        ensures room { room_left zp.new ≤ room_left zp.old }

        // Each pixel that was read ticked once.
        ensures grows { self.old.number ≤ self.new.number }
        ensures ticks { TicksExactly (self.new.number - self.old.number) (M.count meter.old) (M.count meter.new) }
    {
        read_pixels(&mut self.canvas, contexts, zp, meter)
    }

    /// The shape, all of which was read.
    pub fn take(self) -> Plane
        requires { IsWhole self }
        ensures { result ≡ self.shape }
    {
        self.canvas.into_plane()
    }
}

/// Reads pixels of a direct shape, as far as the bytes go.
fn read_pixels<M: Meter>(
    canvas: &mut Canvas,
    contexts: &mut ShapeContexts,
    zp: &mut ZpDecoder,
    meter: &mut M,
) -> ShapeStep
    requires { AreBelow (length zp.old.table) (states_of contexts.old) }
    ensures reads { (payload : List ℕ) (place : Option Interval) → Fed payload place zp.old →
        Reads direct_context zp.old.table payload zp.old.ended (progress canvas.old (states_of contexts.old) place) result canvas.new (states_of contexts.new) zp.new }
    ensures done { result ≡ ShapeStep.Done → IsWhole canvas.new }
    ensures below { AreBelow (length zp.new.table) (states_of contexts.new) }
    ensures table { zp.new.table ≡ zp.old.table }
    ensures ended { zp.new.ended ≡ zp.old.ended }
    ensures room { room_left zp.new ≤ room_left zp.old }
    ensures counts { Counts (M.count meter.old) canvas.old (M.count meter.new) canvas.new }
{
    if canvas.is_whole() {
        return ShapeStep::Done;
    }
    let mut window = DirectWindow::around(canvas);
    'pixels: loop {
        let black = match read_pixel(canvas, window.number(), contexts, zp, meter) {
            Decision::Bit(black) => black,
            Decision::NeedBytes => return ShapeStep::NeedBytes,
            Decision::Exhausted => return ShapeStep::Exhausted,
        };
        if canvas.is_whole() {
            return ShapeStep::Done;
        }
        window = window.next(canvas, black);
    }
}
