//! The bytes of a chunk that its decoder hasn't taken yet. A decoder takes few bytes at a time, so whatever is decided may
//! want more of them: each call here offers them, and asks again, until it is answered or nothing is left.
ghost use Rattle.std.specs.Prelude.{◌≡◌, ◌≢◌, ◌-◌, ◌<◌, ◌≤◌, ℕ, Bool, true, false, List, [], ◌++◌, drop, length, Option, OnOk, OnErr};
ghost use Rattle.djvu_base.specs.Meter.{TicksExactly};
ghost use Rattle.zp_table.specs.Rows.{IsTable};
ghost use Rattle.zp_decoder.specs.Decision.{Interval};
ghost use Rattle.zp_decoder.specs.Decoder.{Fed, bytes_wanted, is_all, room_left};
ghost use Rattle.zp_decoder.specs.Chunk.{Chunk};
ghost use Rattle.zp_decoder.specs.States.{AreBelow};
ghost use Rattle.bit_plane.specs.Pixels.{Pixels};
ghost use Rattle.jb2_numbers.specs.Kept.{states_of};
ghost use Rattle.jb2_numbers.specs.Contexts.{Name};
ghost use Rattle.jb2_numbers.specs.Number.{Wanted};
ghost use Rattle.jb2_numbers.specs.Reader.{AreBounds, IsUnderway, StaysWithin};
ghost use Rattle.jb2_shapes.specs.Numbers as cells;
ghost use Rattle.jb2_shapes.specs.Shape.{Progress, reading_of, IsWhole};
ghost use Rattle.jb2_records.specs.Taking.{room_of, Feeds, Takes, TakesMore, Decides, Advances, Pends, Counts, context_of, IsOf, DrawsOn, HasDrawn};

use crate::shape_readers::ShapeReader;
use djvu_base::CountMeter;
use jb2_numbers::{NumberContexts, NumberReader, NumberStep};
use jb2_shapes::laws::cuts_change_nothing;
use jb2_shapes::{ShapeContexts, ShapeStep};
use std::alloc::{AllocError, Global};
use std::marker::Model;
use zp_decoder::{Decision, ZpDecoder};
use zp_table::Table;

/// Those bytes of a chunk that arrived, and weren't taken by its decoder.
#[derive(Debug, Drop)]
pub(crate) struct Unread {
    bytes: Vec<u8>,
    /// So many of these were taken.
    taken: usize,
    is_whole: bool,
}

impl Model for Unread {
    ghost use Rattle.std.specs.Prelude.{drop, length, ◌≤◌};
    ghost use Rattle.jb2_records.specs.Taking.{Unread};

    ghost Value = { Unread };

    ghost view = { λ a. record { left = drop a.taken a.bytes.items; ended = a.is_whole } };

    ghost invariant = { λ a. a.taken ≤ length a.bytes.items };
}

impl Unread {
    /// No byte of a chunk arrived.
    pub(crate) fn new(alloc: Global) -> Unread
        ensures { result ≡ record { left = []; ended = false } }
    {
        Unread {
            bytes: Vec::new(alloc),
            taken: 0,
            is_whole: false,
        }
    }

    /// Keeps further bytes. Those that were taken are let go once they are as many as the others.
    pub(crate) fn push(&mut self, piece: &[u8]) -> Result<(), AllocError>
        ensures ok { OnOk result (self.new ≡ record { left = self.old.left ++ piece.now; ended = self.old.ended }) }
        ensures err { OnErr result (self.new ≡ self.old) }
    {
        if self.taken >= self.bytes.len() - self.taken {
            drop_front(&mut self.bytes, self.taken);
            self.taken = 0;
        }
        self.bytes.extend_from_slice(piece)
    }

    /// No byte follows, which the decoder is told once it took all.
    pub(crate) fn end(&mut self, zp: &mut ZpDecoder)
        requires { Feeds self.old zp.old }
        ensures left { self.new ≡ record { left = self.old.left; ended = true } }
        ensures fed { (payload : List ℕ) (place : Option Interval) → Fed payload place zp.old → Fed payload place zp.new }
        ensures again { self.old.ended ≡ true → zp.new ≡ zp.old }
        ensures feeds { Feeds self.new zp.new }
        ensures table { zp.new.table ≡ zp.old.table }
    {
        self.is_whole = true;
        finish(zp, is_all(behind(self.bytes.as_slice(), self.taken), true));
    }

    /// Offers what is left to the decoder, and tells it the end once nothing is: whether it took any.
    pub(crate) fn offer(&mut self, zp: &mut ZpDecoder) -> bool
        requires { Feeds self.old zp.old }
        ensures takes { TakesMore self.old self.new zp.old zp.new }
        ensures fewer { result ≡ true → length self.new.left < length self.old.left }
        ensures all { result ≡ false → (taken : List ℕ) (place : Option Interval) → Fed taken place zp.old →
            0 < bytes_wanted taken place → self.old.left ≡ [] }
        ensures room { room_of self.new zp.new ≡ room_of self.old zp.old }
        ensures feeds { Feeds self.new zp.new }
        ensures table { zp.new.table ≡ zp.old.table }
        ensures ended { self.new.ended ≡ self.old.ended }
    {
        zp.was_fed();
        let left = behind(self.bytes.as_slice(), self.taken);
        if left.is_empty() {
            return false;
        }
        let count = zp.push(left);
        self.taken += count;
        finish(
            zp,
            is_all(behind(self.bytes.as_slice(), self.taken), self.is_whole),
        );
        zp.was_fed();
        count > 0
    }

    /// Decides a bit in a context. A bit ticks the meter once.
    pub(crate) fn decide(
        &mut self,
        zp: &mut ZpDecoder,
        state: &mut u8,
        meter: &mut CountMeter,
    ) -> Decision
        requires feeds { Feeds self.old zp.old }
        requires below { state.old < length zp.old.table }
        ensures decides { (source : Chunk) (place : Option Interval) → Takes source place self.old zp.old →
            Decides source place state.old meter.old result state.new self.new zp.new meter.new }
        ensures more { meter.old ≤ meter.new }
        ensures room { room_of self.new zp.new ≤ room_of self.old zp.old }
        ensures feeds { Feeds self.new zp.new }
        ensures below { state.new < length zp.new.table }
        ensures table { zp.new.table ≡ zp.old.table }
        ensures ended { self.new.ended ≡ self.old.ended }
    {
        'bytes: loop {
            let decision = zp.decode(state, meter);
            zp.was_fed();
            if !is_undetermined(decision) {
                return decision;
            }
            if !self.offer(zp) {
                return decision;
            }
        }
    }

    /// Reads a number on. Each coded decision ticks the meter once.
    pub(crate) fn number(
        &mut self,
        reader: &mut NumberReader,
        contexts: &mut NumberContexts,
        zp: &mut ZpDecoder,
        meter: &mut CountMeter,
    ) -> NumberStep
        requires feeds { Feeds self.old zp.old }
        requires below { AreBelow (length zp.old.table) (states_of contexts.old) }
        ensures counts { (wanted : Wanted) (source : Chunk) (before : ℕ) (states : Name → ℕ) (place : Option Interval) → result ≢ NumberStep.OutOfMemory →
            AreBounds wanted.low wanted.high → Pends wanted source before states place reader.old contexts.old self.old zp.old meter.old →
            Counts wanted source before states place result contexts.new self.new zp.new meter.new }
        ensures pends { (wanted : Wanted) (source : Chunk) (before : ℕ) (states : Name → ℕ) (place : Option Interval) →
            AreBounds wanted.low wanted.high → Pends wanted source before states place reader.old contexts.old self.old zp.old meter.old →
            Pends wanted source before states place reader.new contexts.new self.new zp.new meter.new }
        ensures within { (wanted : Wanted) → AreBounds wanted.low wanted.high → IsUnderway wanted reader.old → StaysWithin wanted result reader.new }
        ensures more { (wanted : Wanted) → AreBounds wanted.low wanted.high → IsUnderway wanted reader.old → meter.old ≤ meter.new }
        ensures room { (wanted : Wanted) → AreBounds wanted.low wanted.high → IsUnderway wanted reader.old →
            room_of self.new zp.new ≤ room_of self.old zp.old }
        ensures feeds { Feeds self.new zp.new }
        ensures below { AreBelow (length zp.new.table) (states_of contexts.new) }
        ensures table { zp.new.table ≡ zp.old.table }
        ensures ended { self.new.ended ≡ self.old.ended }
    {
        'bytes: loop {
            let step = advance(reader, contexts, zp, meter);
            if !is_unknown(step) {
                return step;
            }
            if !self.offer(zp) {
                return step;
            }
        }
    }

    /// Reads a shape on. Each pixel ticks the meter once.
    pub(crate) fn shape<R: ShapeReader>(
        &mut self,
        reader: &mut R,
        contexts: &mut ShapeContexts,
        zp: &mut ZpDecoder,
        meter: &mut CountMeter,
    ) -> ShapeStep
        requires feeds { Feeds self.old zp.old }
        requires below { AreBelow (length zp.old.table) (cells.states_of contexts.old) }
        ensures drawn { (source : Chunk) (of : Option Pixels) (width height : ℕ) (start : Progress) →
            IsOf of width height (R.matched reader.old) (R.sketch reader.old) →
            DrawsOn (context_of of width height) source start (R.sketch reader.old) (cells.states_of contexts.old) self.old zp.old →
            HasDrawn (reading_of (context_of of width height) source.table source.payload source.ended start)
            source result (R.sketch reader.new) (cells.states_of contexts.new) self.new zp.new }
        ensures waits { (source : Chunk) (of : Option Pixels) (width height : ℕ) (start : Progress) → result ≡ ShapeStep.NeedBytes →
            IsOf of width height (R.matched reader.old) (R.sketch reader.old) →
            DrawsOn (context_of of width height) source start (R.sketch reader.old) (cells.states_of contexts.old) self.old zp.old →
            DrawsOn (context_of of width height) source start (R.sketch reader.new) (cells.states_of contexts.new) self.new zp.new }
        ensures done { result ≡ ShapeStep.Done → IsWhole (R.sketch reader.new) }
        ensures matched { R.matched reader.new ≡ R.matched reader.old }
        ensures width { (R.sketch reader.new).shape.width ≡ (R.sketch reader.old).shape.width }
        ensures height { (R.sketch reader.new).shape.height ≡ (R.sketch reader.old).shape.height }
        ensures grows { (R.sketch reader.old).number ≤ (R.sketch reader.new).number }
        ensures ticks { TicksExactly ((R.sketch reader.new).number - (R.sketch reader.old).number) meter.old meter.new }
        ensures room { room_of self.new zp.new ≤ room_of self.old zp.old }
        ensures feeds { Feeds self.new zp.new }
        ensures below { AreBelow (length zp.new.table) (cells.states_of contexts.new) }
        ensures table { zp.new.table ≡ zp.old.table }
        ensures ended { self.new.ended ≡ self.old.ended }
    {
        cuts_change_nothing();
        'bytes: loop {
            let step = reader.read_on(contexts, zp, meter);
            if !is_unfinished(step) {
                return step;
            }
            if !self.offer(zp) {
                return step;
            }
        }
    }
}

/// Reads a number on, as far as the bytes taken go.
fn advance(
    reader: &mut NumberReader,
    contexts: &mut NumberContexts,
    zp: &mut ZpDecoder,
    meter: &mut CountMeter,
) -> NumberStep
    requires table { IsTable zp.old.table }
    requires below { AreBelow (length zp.old.table) (states_of contexts.old) }
    ensures advances { Advances reader.old reader.new contexts.old contexts.new zp.old zp.new meter.old meter.new result }
    ensures within { (wanted : Wanted) → AreBounds wanted.low wanted.high → IsUnderway wanted reader.old → StaysWithin wanted result reader.new }
    ensures more { (wanted : Wanted) → IsUnderway wanted reader.old → meter.old ≤ meter.new }
    ensures room { (wanted : Wanted) → IsUnderway wanted reader.old → room_left zp.new ≤ room_left zp.old }
    ensures below { AreBelow (length zp.new.table) (states_of contexts.new) }
    ensures table { zp.new.table ≡ zp.old.table }
    ensures ended { zp.new.ended ≡ zp.old.ended }
{
    zp.was_fed();
    let step = reader.advance(contexts, zp, meter);
    zp.was_fed();
    step
}

/// Lets the first bytes go.
fn drop_front(bytes: &mut Vec<u8>, count: usize)
    requires { count ≤ length bytes.old.items }
    ensures { bytes.new.items ≡ drop count bytes.old.items }
{
    drop(bytes.drain(..count));
}

/// The bytes behind so many.
fn behind(bytes: &[u8], count: usize) -> &[u8]
    requires { count ≤ length bytes.now }
    ensures { result.now ≡ drop count bytes.now }
{
    &bytes[count..]
}

/// Whether the decoder took the whole chunk, where these bytes are left.
fn is_all(left: &[u8], is_whole: bool) -> bool
    ensures { result ≡ is_all left.now is_whole }
{
    is_whole && left.is_empty()
}

/// Tells a decoder the end, where its chunk ended.
fn finish(zp: &mut ZpDecoder, is_whole: bool)
    requires { is_whole ≡ false → zp.old.ended ≡ false }
    ensures fed { (payload : List ℕ) (place : Option Interval) → Fed payload place zp.old → Fed payload place zp.new }
    ensures same { zp.old.ended ≡ is_whole → zp.new ≡ zp.old }
    ensures table { zp.new.table ≡ zp.old.table }
    ensures ended { zp.new.ended ≡ is_whole }
{
    if is_whole {
        zp.end();
    }
}

/// Whether more bytes are wanted.
fn is_undetermined(decision: Decision) -> bool
    ensures wants { result ≡ true → decision ≡ Decision.NeedBytes }
    ensures others { result ≡ false → decision ≢ Decision.NeedBytes }
{
    match decision {
        Decision::NeedBytes => true,
        Decision::Bit(_) | Decision::Exhausted => false,
    }
}

/// Whether more bytes are wanted.
fn is_unknown(step: NumberStep) -> bool
    ensures wants { result ≡ true → step ≡ NumberStep.NeedBytes }
    ensures others { result ≡ false → step ≢ NumberStep.NeedBytes }
{
    match step {
        NumberStep::NeedBytes => true,
        NumberStep::Number(_) | NumberStep::Exhausted | NumberStep::OutOfMemory => false,
    }
}

/// Whether more bytes are wanted.
fn is_unfinished(step: ShapeStep) -> bool
    ensures wants { result ≡ true → step ≡ ShapeStep.NeedBytes }
    ensures others { result ≡ false → step ≢ ShapeStep.NeedBytes }
{
    match step {
        ShapeStep::NeedBytes => true,
        ShapeStep::Done | ShapeStep::Exhausted => false,
    }
}

/// The rows of a table are as decisions need them.
pub(crate) fn sound_rows(table: &Table)
    ensures { IsTable table.now }
{
    let rows = table.len();
    prove!(rows > 0);
    table.row(0);
}
