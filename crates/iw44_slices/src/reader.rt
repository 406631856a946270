//! The reader of a plane's slices: it stands between decisions, so that it goes on wherever the bytes ended.
ghost use Rattle.std.specs.Prelude.{◌≡◌, ◌≢◌, ℕ, ◌+◌, ◌-◌, ◌<◌, ◌≤◌, List, length, Option};
ghost use Rattle.djvu_base.specs.Meter.{TicksExactly};
ghost use Rattle.zp_decoder.specs.Decision.{Interval};
ghost use Rattle.zp_decoder.specs.Decoder.{Fed, room_left};
ghost use Rattle.zp_decoder.specs.States.{AreBelow, fresh};
ghost use Rattle.iw44_blocks.specs.Plane.{IsSmall, zero_plane};
ghost use Rattle.iw44_slices.specs.Slice.{Course, slice_course};
ghost use Rattle.iw44_slices.specs.Reading.{plane_of};
ghost use Rattle.iw44_slices.specs.Kept.{states_in};
ghost use Rattle.iw44_slices.specs.Reader.{Stands, StandsSomewhere, reading_from, states_of};
ghost use Rattle.iw44_slices.specs.Moves.{EndsAt};

use crate::contexts::Contexts;
use crate::spots::Spot;
use crate::steps::SliceStep;
use djvu_base::Meter;
use iw44_blocks::Coefficients;
use std::marker::Model;
use zp_decoder::{Decision, ZpDecoder};

/// Reads the slices of one plane, one after the other, and keeps the plane's contexts.
///
/// Contracts speak of it by `Stands slice course plane reader`: in the slice with this number, of a plane with these
/// coefficients, this is left to read. `states_of reader` are the states of the contexts.
#[derive(Debug, Drop)]
pub struct SliceReader {
    contexts: Contexts,
    spot: Spot,
}

impl Model for SliceReader {
    ghost use Rattle.iw44_slices.specs.Reader.{Reader};

    ghost Value = { Reader };

    ghost view = { λ a. record { contexts = a.contexts; spot = a.spot } };
}

impl SliceReader {
    /// A reader before slice 0 of a plane whose coefficients are all 0. Takes no memory.
    pub fn new() -> SliceReader
        ensures stands { (width height : ℕ) → Stands 0 (slice_course 0 (zero_plane width height)) (zero_plane width height) result }
        ensures fresh { states_of result ≡ fresh }
        ensures below { (count : ℕ) → 0 < count → AreBelow count (states_of result) }
    {
        SliceReader {
            contexts: Contexts::new(),
            spot: Spot::new(),
        }
    }

    /// Reads the slice on, as far as the bytes go, into the plane's coefficients. Each decision ticks the meter once, and
    /// no memory is taken. After a `SliceEnd` the next call begins the next slice.
    ///
    /// The coefficients are those that the last call left, and before the first call all 0.
    pub fn advance<M: Meter>(
        &mut self,
        coefficients: &mut Coefficients,
        zp: &mut ZpDecoder,
        meter: &mut M,
    ) -> SliceStep
        requires stands { StandsSomewhere coefficients.old self.old }
        requires below { AreBelow (length zp.old.table) (states_of self.old) }
        // For all that may be left, and every payload that the decoder was fed, what the definition's reading gives.
        ensures answer { (slice decisions : ℕ) (course : Course) (payload : List ℕ) (place : Option Interval) →
            Stands slice course coefficients.old self.old →
            Fed payload place zp.old → result ≡ (reading_from course zp.old payload place self.old decisions).answer }
        ensures coefficients { (slice decisions : ℕ) (course : Course) (payload : List ℕ) (place : Option Interval) →
            Stands slice course coefficients.old self.old →
            Fed payload place zp.old → coefficients.new ≡ plane_of (reading_from course zp.old payload place self.old decisions).left }
        ensures states { (slice decisions : ℕ) (course : Course) (payload : List ℕ) (place : Option Interval) →
            Stands slice course coefficients.old self.old →
            Fed payload place zp.old → states_of self.new ≡ (reading_from course zp.old payload place self.old decisions).at.states }
        ensures fed { (slice decisions : ℕ) (course : Course) (payload : List ℕ) (place : Option Interval) → Stands slice course coefficients.old self.old →
            Fed payload place zp.old → Fed payload (reading_from course zp.old payload place self.old decisions).at.place zp.new }
        ensures ticks { (slice decisions : ℕ) (course : Course) (payload : List ℕ) (place : Option Interval) → Stands slice course coefficients.old self.old →
            Fed payload place zp.old →
            TicksExactly ((reading_from course zp.old payload place self.old decisions).at.decisions - decisions) (M.count meter.old) (M.count meter.new) }

        // What is left: the rest of the slice, or all of the next one.
        ensures stands { (slice decisions : ℕ) (course : Course) (payload : List ℕ) (place : Option Interval) →
            Stands slice course coefficients.old self.old →
            Fed payload place zp.old → result ≢ SliceStep.SliceEnd →
            Stands slice (reading_from course zp.old payload place self.old decisions).left coefficients.new self.new }
        ensures next { (slice : ℕ) (course : Course) → Stands slice course coefficients.old self.old → result ≡ SliceStep.SliceEnd →
            Stands (slice + 1) (slice_course (slice + 1) coefficients.new) coefficients.new self.new }

        ensures somewhere { StandsSomewhere coefficients.new self.new }
        ensures small { IsSmall 32767 coefficients.new }
        ensures width { coefficients.new.width ≡ coefficients.old.width }
        ensures height { coefficients.new.height ≡ coefficients.old.height }
        ensures below { AreBelow (length zp.new.table) (states_of self.new) }
        ensures table { zp.new.table ≡ zp.old.table }
        ensures ended { zp.new.ended ≡ zp.old.ended }
        ensures room { room_left zp.new ≤ room_left zp.old }
    {
        zp.was_fed();
        read(&mut self.contexts, &mut self.spot, coefficients, zp, meter)
    }
}

/// Reads on from decision to decision.
fn read<M: Meter>(
    contexts: &mut Contexts,
    spot: &mut Spot,
    coefficients: &mut Coefficients,
    zp: &mut ZpDecoder,
    meter: &mut M,
) -> SliceStep
    requires somewhere { StandsSomewhere coefficients.old (record { contexts = contexts.old; spot = spot.old }) }
    requires below { AreBelow (length zp.old.table) (states_in contexts.old) }
    ensures ends { (slice decisions : ℕ) (payload : List ℕ) (course : Course) (place : Option Interval) →
        Stands slice course coefficients.old (record { contexts = contexts.old; spot = spot.old }) → Fed payload place zp.old →
        EndsAt slice decisions payload course place (record { contexts = contexts.old; spot = spot.old }) zp.old (M.count meter.old)
        coefficients.new (record { contexts = contexts.new; spot = spot.new }) zp.new (M.count meter.new) result }
    ensures somewhere { StandsSomewhere coefficients.new (record { contexts = contexts.new; spot = spot.new }) }
    ensures below { AreBelow (length zp.new.table) (states_in contexts.new) }
    ensures table { zp.new.table ≡ zp.old.table }
    ensures ended { zp.new.ended ≡ zp.old.ended }
    ensures room { room_left zp.new ≤ room_left zp.old }
    ensures width { coefficients.new.width ≡ coefficients.old.width }
    ensures height { coefficients.new.height ≡ coefficients.old.height }
{
    'decisions: loop {
        spot.seek(coefficients);
        let Some(question) = spot.asked(coefficients) else {
            spot.next_slice();
            return SliceStep::SliceEnd;
        };
        match contexts.decide(question, zp, meter) {
            Decision::Bit(bit) => spot.take(bit, coefficients),
            Decision::NeedBytes => return SliceStep::NeedBytes,
            Decision::Exhausted => return SliceStep::Exhausted,
        }
    }
}
