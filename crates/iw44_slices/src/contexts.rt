//! The contexts of a plane, each under its number.
ghost use Rattle.std.specs.Prelude.{◌≡◌, ◌<◌, ℕ, Bool, List, length, Option};
ghost use Rattle.zp_decoder.specs.Decision.{Interval, Outcome, outcome_of, counted};
ghost use Rattle.zp_decoder.specs.Decoder.{Fed, room_left};
ghost use Rattle.zp_decoder.specs.States.{AreBelow, fresh};
ghost use Rattle.iw44_slices.specs.Slice.{Asked};
ghost use Rattle.iw44_slices.specs.Reading.{form_of, states_after};
ghost use Rattle.iw44_slices.specs.Kept.{Names, states_in};

use djvu_base::Meter;
use zp_decoder::{Decision, ZpDecoder};

/// The number of the context of roots.
pub(crate) const ROOT: usize = 0;

/// The number of the mantissa context.
pub(crate) const MANTISSA: usize = 1;

/// The number of the first of 16 contexts of starts.
pub(crate) const STARTS: usize = 2;

/// The number of the first of eight contexts of buckets for each of ten bands.
pub(crate) const BUCKETS: usize = 18;

/// How a decision is read.
#[derive(Clone, Copy, Debug, PartialEq, Eq)]
pub(crate) enum Question {
    /// In the context with this number.
    In(usize),
    /// By the IW form.
    Plain,
}

/// The states of a plane's contexts.
#[derive(Clone, Copy, Debug)]
pub(crate) struct Contexts {
    pub(crate) states: [u8; 98],
}

impl Contexts {
    /// Contexts that haven't moved, each in state 0.
    pub(crate) fn new() -> Contexts
        ensures { states_in result ≡ fresh }
    {
        Contexts { states: [0; 98] }
    }

    /// Decides a bit. The state of its context moves.
    pub(crate) fn decide<M: Meter>(
        &mut self,
        question: Question,
        zp: &mut ZpDecoder,
        meter: &mut M,
    ) -> Decision
        requires known { (asked : Asked) × Names asked question }
        requires below { AreBelow (length zp.old.table) (states_in self.old) }
        ensures answer { (asked : Asked) (payload : List ℕ) (place : Option Interval) → Names asked question → Fed payload place zp.old →
            result ≡ (outcome_of zp.old.table (form_of asked (states_in self.old)) payload zp.old.ended place).answer }
        ensures fed { (asked : Asked) (payload : List ℕ) (place : Option Interval) → Names asked question → Fed payload place zp.old →
            Fed payload (outcome_of zp.old.table (form_of asked (states_in self.old)) payload zp.old.ended place).place zp.new }
        ensures states { (asked : Asked) (payload : List ℕ) (place : Option Interval) → Names asked question → Fed payload place zp.old →
            states_in self.new
            ≡ states_after asked (outcome_of zp.old.table (form_of asked (states_in self.old)) payload zp.old.ended place).state (states_in self.old) }
        ensures below { AreBelow (length zp.new.table) (states_in self.new) }
        ensures table { zp.new.table ≡ zp.old.table }
        ensures ended { zp.new.ended ≡ zp.old.ended }
        ensures ticks { M.count meter.new ≡ counted result (M.count meter.old) }
        ensures fewer { (bit : Bool) → result ≡ Decision.Bit bit → room_left zp.new < room_left zp.old }
        ensures needs { result ≡ Decision.NeedBytes → (self.new ≡ self.old) × (zp.new ≡ zp.old) × (meter.new ≡ meter.old) }
        ensures exhausted { result ≡ Decision.Exhausted → (self.new ≡ self.old) × (zp.new ≡ zp.old) × (meter.new ≡ meter.old) }
    {
        match question {
            Question::In(number) => zp.decode(&mut self.states[number], meter),
            Question::Plain => zp.iw(meter),
        }
    }
}
