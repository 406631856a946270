//! Refined shapes.
ghost use Rattle.std.specs.Prelude.{◌≡◌, ℕ, ◌-◌, ◌*◌, ◌≤◌, length, List, Option, IfOk};
ghost use Rattle.std.specs.Arc.{arc_value};
ghost use Rattle.bit_plane.specs.Pixels.{area_limit, side_limit};
ghost use Rattle.bit_plane.specs.Ink.{ink_box_of};
ghost use Rattle.djvu_base.specs.Meter.{TicksExactly};
ghost use Rattle.zp_decoder.specs.Decision.{Interval};
ghost use Rattle.zp_decoder.specs.Decoder.{Fed, room_left};
ghost use Rattle.zp_decoder.specs.States.{AreBelow};
ghost use Rattle.jb2_shapes.specs.Numbers.{states_of};
ghost use Rattle.jb2_shapes.specs.Refined.{matching_context, refined_reading};
ghost use Rattle.jb2_shapes.specs.Steps.{Reads, Counts};
ghost use Rattle.jb2_shapes.specs.Shape.{progress, empty_sketch, IsWhole};

use crate::canvas::Canvas;
use crate::contexts::ShapeContexts;
use crate::matching::Matching;
use crate::pixels::read_pixel;
use crate::steps::ShapeStep;
use crate::windows::RefinedWindow;
use bit_plane::{InkBox, Plane};
use djvu_base::Meter;
use std::alloc::{AllocError, Global};
use std::marker::Model;
use std::sync::Arc;
use zp_decoder::{Decision, ZpDecoder};

/// Reads a refined shape, each pixel of which is decided in the context of four pixels before it and of seven pixels of a
/// matched shape.
///
/// Contracts see the matched shape, the shape as far as it was read, and the number of pixels that were read.
#[derive(Debug, Drop)]
pub struct RefineReader {
    canvas: Canvas,
    matching: Matching,
}

impl Model for RefineReader {
    ghost use Rattle.std.specs.Prelude.{◌≡◌};
    ghost use Rattle.bit_plane.specs.Ink.{ink_box_of};
    ghost use Rattle.jb2_shapes.specs.Refined.{Refinement, column_shift, row_shift};

    ghost Value = { Refinement };

    ghost view = { λ a. record { matched = a.matching.matched; sketch = a.canvas } };

    ghost invariant = { λ a. (a.matching.right ≡ column_shift a.canvas.shape (ink_box_of a.matching.matched)) × (a.matching.up ≡ row_shift a.canvas.shape (ink_box_of a.matching.matched)) };
}

impl RefineReader {
    /// A reader of a shape of this size in pixels, of which nothing was read, beside a matched shape.
    pub fn begin(
        alloc: Global,
        width: u32,
        height: u32,
        matched: Arc<Plane>,
    ) -> Result<RefineReader, AllocError>
        requires width { width ≤ side_limit }
        requires height { height ≤ side_limit }
        requires area { width * height ≤ area_limit }
        ensures { IfOk result (λ reader. reader ≡ record { matched = arc_value matched; sketch = empty_sketch width height }) }
    {
        let ink = matched.ink_box();
        RefineReader::begin_beside(alloc, width, height, matched, ink)
    }

    /// The same where the matched shape's ink box is known.
    pub fn begin_beside(
        alloc: Global,
        width: u32,
        height: u32,
        matched: Arc<Plane>,
        ink: InkBox,
    ) -> Result<RefineReader, AllocError>
        requires width { width ≤ side_limit }
        requires height { height ≤ side_limit }
        requires area { width * height ≤ area_limit }
        requires ink { ink ≡ ink_box_of (arc_value matched) }
        ensures { IfOk result (λ reader. reader ≡ record { matched = arc_value matched; sketch = empty_sketch width height }) }
    {
        Ok(RefineReader {
            canvas: Canvas::new(alloc, width, height)?,
            matching: Matching::new(matched, ink, width, height),
        })
    }

    /// Reads on, as far as the bytes go. Each pixel ticks the meter once.
    pub fn advance<M: Meter>(
        &mut self,
        contexts: &mut ShapeContexts,
        zp: &mut ZpDecoder,
        meter: &mut M,
    ) -> ShapeStep
        requires { AreBelow (length zp.old.table) (states_of contexts.old) }
        // For every payload that the decoder was fed, the definition's answer, and all is as it leaves it.
        ensures answer { (payload : List ℕ) (place : Option Interval) → Fed payload place zp.old →
            result ≡ (refined_reading self.old.matched zp.old.table payload zp.old.ended (progress self.old.sketch (states_of contexts.old) place)).answer }
        ensures sketch { (payload : List ℕ) (place : Option Interval) → Fed payload place zp.old →
            self.new.sketch ≡ (refined_reading self.old.matched zp.old.table payload zp.old.ended (progress self.old.sketch (states_of contexts.old) place)).at.sketch }
        ensures states { (payload : List ℕ) (place : Option Interval) → Fed payload place zp.old →
            states_of contexts.new ≡ (refined_reading self.old.matched zp.old.table payload zp.old.ended (progress self.old.sketch (states_of contexts.old) place)).at.states }
        ensures fed { (payload : List ℕ) (place : Option Interval) → Fed payload place zp.old →
            Fed payload (refined_reading self.old.matched zp.old.table payload zp.old.ended (progress self.old.sketch (states_of contexts.old) place)).at.place zp.new }
        ensures done { result ≡ ShapeStep.Done → IsWhole self.new.sketch }

        ensures matched { self.new.matched ≡ self.old.matched }
        ensures width { self.new.sketch.shape.width ≡ self.old.sketch.shape.width }
        ensures height { self.new.sketch.shape.height ≡ self.old.sketch.shape.height }
        ensures below { AreBelow (length zp.new.table) (states_of contexts.new) }
        ensures table { zp.new.table ≡ zp.old.table }
        ensures ended { zp.new.ended ≡ zp.old.ended }

        ensures room { room_left zp.new ≤ room_left zp.old }

        // Each pixel that was read ticked once.
        ensures grows { self.old.sketch.number ≤ self.new.sketch.number }
        ensures ticks { TicksExactly (self.new.sketch.number - self.old.sketch.number) (M.count meter.old) (M.count meter.new) }
    {
        read_pixels(&mut self.canvas, &self.matching, contexts, zp, meter)
    }

    /// The shape, all of which was read.
    pub fn take(self) -> Plane
        requires { IsWhole self.sketch }
        ensures { result ≡ self.sketch.shape }
    {
        self.canvas.into_plane()
    }
}

/// Reads pixels of a refined shape, as far as the bytes go.
fn read_pixels<M: Meter>(
    canvas: &mut Canvas,
    matching: &Matching,
    contexts: &mut ShapeContexts,
    zp: &mut ZpDecoder,
    meter: &mut M,
) -> ShapeStep
    requires { AreBelow (length zp.old.table) (states_of contexts.old) }
    ensures reads { (payload : List ℕ) (place : Option Interval) → Fed payload place zp.old →
        Reads (matching_context matching.now) zp.old.table payload zp.old.ended (progress canvas.old (states_of contexts.old) place) result canvas.new (states_of contexts.new) zp.new }
    ensures done { result ≡ ShapeStep.Done → IsWhole canvas.new }
    ensures below { AreBelow (length zp.new.table) (states_of contexts.new) }
    ensures table { zp.new.table ≡ zp.old.table }
    ensures ended { zp.new.ended ≡ zp.old.ended }
    ensures room { room_left zp.new ≤ room_left zp.old }
    ensures counts { Counts (M.count meter.old) canvas.old (M.count meter.new) canvas.new }
{
    if canvas.is_whole() {
        return ShapeStep::Done;
    }
    let mut window = RefinedWindow::around(canvas, matching);
    'pixels: loop {
        let black = match read_pixel(canvas, window.number(), contexts, zp, meter) {
            Decision::Bit(black) => black,
            Decision::NeedBytes => return ShapeStep::NeedBytes,
            Decision::Exhausted => return ShapeStep::Exhausted,
        };
        if canvas.is_whole() {
            return ShapeStep::Done;
        }
        window = window.next(canvas, matching, black);
    }
}
