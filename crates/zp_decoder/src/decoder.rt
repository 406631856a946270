//! The decoder. Of the bytes of its chunk it keeps those that aren't shifted in yet.
ghost use Rattle.std.specs.Prelude.{◌≡◌, ◌<◌, ◌≤◌, ℕ, List, [], ◌++◌, take, min, length, nat_lt, nat_le, not, ◌&&◌, ◌⊎◌, Bool, true, false, Option, None};
ghost use Rattle.std.specs.Prelude.{if◌then◌else◌};
ghost use Rattle.std.specs.Arc.{arc_value};
ghost use Rattle.zp_decoder.specs.Decision.{Form, Interval, Adaptive, Pass, Iw, outcome_of, outcome_at, probable_of, interval_at, interval, counted};
ghost use Rattle.zp_decoder.specs.Decision.{next_state};
ghost use Rattle.zp_decoder.specs.Decoder.{Fed, bytes_wanted, room_left};
ghost use Rattle.zp_decoder.specs.Runs.{IsStanding};

use crate::interval::{adaptive_split, iw_split, next_state, pass_split};
use crate::standing::{Standing, leading_ones};
use djvu_base::Meter;
use std::marker::Model;
use std::sync::Arc;
use zp_table::{Row, Table};

/// What a decoder answers to a decision.
#[derive(Clone, Copy, Debug, PartialEq, Eq)]
pub enum Decision {
    /// The bit.
    Bit(bool),
    /// The bytes taken don't determine it: exactly where fewer than 32 bits follow those that were shifted in,
    /// and more bytes of the chunk may come.
    NeedBytes,
    /// The bytes taken are the whole chunk, and with it more than 192 bits past their end would be in use.
    Exhausted,
}

/// Decodes the bits of a chunk that arrives in pieces.
///
/// Contracts see its table and whether the chunk ended. They speak of the rest by `Fed payload place decoder`: since the
/// chunk began it took this payload, and its last decision led to this place. What a decision answers, and where it
/// leads, is `outcome_of` of the table, its form, the payload and the place (DjVu 3 reference, ZP-Coder).
#[derive(Debug, Drop)]
pub struct ZpDecoder {
    table: Arc<Table>,
    ended: bool,
    kept: Standing,
}

impl Model for ZpDecoder {
    ghost use Rattle.std.specs.Prelude.{IsTrue};
    ghost use Rattle.std.specs.Arc.{arc_value};
    ghost use Rattle.zp_decoder.specs.Decoder.{Decoder, is_sound, IsFed};

    ghost Value = { Decoder };

    ghost view = { λ a. record { table = arc_value a.table; ended = a.ended; kept = a.kept } };

    ghost invariant = { λ a. IsTrue (is_sound a.ended a.kept) × IsFed (record { table = arc_value a.table; ended = a.ended; kept = a.kept }) };
}

impl ZpDecoder {
    /// A decoder at the start of a chunk of which no byte was taken.
    #[tactic(auto, unfolding(crate::specs::Decoder::Fed))]
    pub fn new(table: Arc<Table>) -> ZpDecoder
        ensures table { result.table ≡ arc_value table }
        ensures open_end { result.ended ≡ false }
        ensures fed { Fed [] None result }
    {
        ZpDecoder {
            table,
            ended: false,
            kept: Standing::new(),
        }
    }

    /// Takes the next bytes of the chunk, which hasn't ended, until 192 bits more than were shifted in are there, and
    /// tells how many these are.
    #[tactic(auto, unfolding(crate::specs::Decoder::Fed))]
    pub fn push(&mut self, piece: &[u8]) -> usize
        requires { self.old.ended ≡ false }
        ensures taken { (payload : List ℕ) (place : Option Interval) → Fed payload place self.old →
            result ≡ min (length piece.now) (bytes_wanted payload place) }
        ensures fed { (payload : List ℕ) (place : Option Interval) → Fed payload place self.old → Fed (payload ++ take result piece.now) place self.new }
        ensures within { result ≤ length piece.now }
        ensures table { self.new.table ≡ self.old.table }
        ensures open_end { self.new.ended ≡ false }
    {
        let wanted = ((368 - self.kept.spare) / 8) as usize;
        let count = wanted.min(piece.len());
        let taken = &piece[..count];
        for byte in taken {
            self.kept = self.kept.with(*byte);
        }
        count
    }

    /// The bytes taken are the whole chunk. A further call changes nothing.
    #[tactic(auto, unfolding(crate::specs::Decoder::Fed))]
    pub fn end(&mut self)
        ensures fed { (payload : List ℕ) (place : Option Interval) → Fed payload place self.old → Fed payload place self.new }
        ensures table { self.new.table ≡ self.old.table }
        ensures ended { self.new.ended ≡ true }
        ensures again { self.old.ended ≡ true → self.new ≡ self.old }
    {
        self.ended = true;
    }

    /// It took some payload, and what was decided led to some place: a fact for proofs, which costs nothing.
    pub fn was_fed(&self)
        ensures some { (payload : List ℕ) × (place : Option Interval) × Fed payload place self.now }
        ensures standing { (payload : List ℕ) (place : Option Interval) → Fed payload place self.now → IsStanding (length payload) place }
    {
        let _ = &self.table;
    }

    /// Begins a new chunk, of which no byte was taken.
    #[tactic(auto, unfolding(crate::specs::Decoder::Fed))]
    pub fn restart(&mut self)
        ensures fed { Fed [] None self.new }
        ensures table { self.new.table ≡ self.old.table }
        ensures open_end { self.new.ended ≡ false }
    {
        self.ended = false;
        self.kept = Standing::new();
    }

    /// Decides a bit in a context, whose state moves by the table. A bit ticks the meter once; the other two answers
    /// change nothing.
    #[tactic(auto, unfolding(crate::specs::Decoder::Fed))]
    pub fn decode<M: Meter>(&mut self, ctx: &mut u8, meter: &mut M) -> Decision
        requires { ctx.old < length self.old.table }
        // For every payload that it was fed, the definition's answer, place and state.
        ensures answer { (payload : List ℕ) (place : Option Interval) → Fed payload place self.old →
            result ≡ (outcome_of self.old.table (Adaptive ctx.old) payload self.old.ended place).answer }
        ensures fed { (payload : List ℕ) (place : Option Interval) → Fed payload place self.old →
            Fed payload (outcome_of self.old.table (Adaptive ctx.old) payload self.old.ended place).place self.new }
        ensures context { (payload : List ℕ) (place : Option Interval) → Fed payload place self.old →
            ctx.new ≡ (outcome_of self.old.table (Adaptive ctx.old) payload self.old.ended place).state }
        ensures below { ctx.new < length self.new.table }

        ensures table { self.new.table ≡ self.old.table }
        ensures ended { self.new.ended ≡ self.old.ended }

        // A bit ticks once, and leaves room for fewer. The other answers change nothing.
        ensures ticks { M.count meter.new ≡ counted result (M.count meter.old) }
        ensures fewer { (bit : Bool) → result ≡ Decision.Bit bit → room_left self.new < room_left self.old }
        ensures needs { result ≡ Decision.NeedBytes → (self.new ≡ self.old) × (ctx.new ≡ ctx.old) × (meter.new ≡ meter.old) }
        ensures exhausted { result ≡ Decision.Exhausted → (self.new ≡ self.old) × (ctx.new ≡ ctx.old) × (meter.new ≡ meter.old) }
    {
        let a = self.kept.a;
        let code = self.kept.code;
        let z = adaptive_split(self.table.row(*ctx).p, a);
        if is_quiet(z, code, self.kept.spare, self.ended) {
            self.kept.a = z;
            meter.tick();
            return Decision::Bit(*ctx % 2 == 1);
        }
        let row = self.table.row(*ctx);
        let answer = self.decide(z, *ctx % 2 == 1, meter);
        *ctx = state_after(answer, row, *ctx, z, a, code);
        answer
    }

    /// Decides a bit without a context.
    #[tactic(auto, unfolding(crate::specs::Decoder::Fed))]
    pub fn pass<M: Meter>(&mut self, meter: &mut M) -> Decision
        ensures answer { (payload : List ℕ) (place : Option Interval) → Fed payload place self.old →
            result ≡ (outcome_of self.old.table Pass payload self.old.ended place).answer }
        ensures fed { (payload : List ℕ) (place : Option Interval) → Fed payload place self.old →
            Fed payload (outcome_of self.old.table Pass payload self.old.ended place).place self.new }

        ensures table { self.new.table ≡ self.old.table }
        ensures ended { self.new.ended ≡ self.old.ended }

        ensures ticks { M.count meter.new ≡ counted result (M.count meter.old) }
        ensures fewer { (bit : Bool) → result ≡ Decision.Bit bit → room_left self.new < room_left self.old }
        ensures needs { result ≡ Decision.NeedBytes → (self.new ≡ self.old) × (meter.new ≡ meter.old) }
        ensures exhausted { result ≡ Decision.Exhausted → (self.new ≡ self.old) × (meter.new ≡ meter.old) }
    {
        self.decide(pass_split(self.kept.a), false, meter)
    }

    /// Decides a bit without a context, in the form of IW44's coefficients.
    #[tactic(auto, unfolding(crate::specs::Decoder::Fed))]
    pub fn iw<M: Meter>(&mut self, meter: &mut M) -> Decision
        ensures answer { (payload : List ℕ) (place : Option Interval) → Fed payload place self.old →
            result ≡ (outcome_of self.old.table Iw payload self.old.ended place).answer }
        ensures fed { (payload : List ℕ) (place : Option Interval) → Fed payload place self.old →
            Fed payload (outcome_of self.old.table Iw payload self.old.ended place).place self.new }

        ensures table { self.new.table ≡ self.old.table }
        ensures ended { self.new.ended ≡ self.old.ended }

        ensures ticks { M.count meter.new ≡ counted result (M.count meter.old) }
        ensures fewer { (bit : Bool) → result ≡ Decision.Bit bit → room_left self.new < room_left self.old }
        ensures needs { result ≡ Decision.NeedBytes → (self.new ≡ self.old) × (meter.new ≡ meter.old) }
        ensures exhausted { result ≡ Decision.Exhausted → (self.new ≡ self.old) × (meter.new ≡ meter.old) }
    {
        self.decide(iw_split(self.kept.a), false, meter)
    }

    /// Decides a bit with this z, where this is the more probable bit. Forms differ in nothing else.
    #[tactic(auto, unfolding(crate::specs::Decoder::Fed))]
    fn decide<M: Meter>(&mut self, z: u32, probable: bool, meter: &mut M) -> Decision
        requires { z ≤ 0x10000 }
        ensures answer { (form : Form) (payload : List ℕ) (place : Option Interval) → probable_of form ≡ probable → Fed payload place self.old →
            result ≡ (outcome_at self.old.table form payload self.old.ended place z (interval_at payload place)).answer }
        ensures fed { (form : Form) (payload : List ℕ) (place : Option Interval) → Fed payload place self.old →
            Fed payload (outcome_at self.old.table form payload self.old.ended place z (interval_at payload place)).place self.new }
        ensures table { self.new.table ≡ self.old.table }
        ensures ended { self.new.ended ≡ self.old.ended }
        ensures ticks { M.count meter.new ≡ counted result (M.count meter.old) }
        ensures fewer { (bit : Bool) → self.old.kept.a < z → z < 0x10000 → result ≡ Decision.Bit bit → room_left self.new < room_left self.old }
        ensures needs { result ≡ Decision.NeedBytes → (self.new ≡ self.old) × (meter.new ≡ meter.old) }
        ensures exhausted { result ≡ Decision.Exhausted → (self.new ≡ self.old) × (meter.new ≡ meter.old) }
    {
        if lacks_bytes(self.kept.spare, self.ended) {
            return Decision::NeedBytes;
        }
        let bit = bit_of(z, self.kept.code, probable);
        let next = self.kept.cut(z);
        if next.a < 0x8000 {
            self.kept = next;
            meter.tick();
            return Decision::Bit(bit);
        }
        let count = leading_ones(next.a);
        if next.spare < count {
            return Decision::Exhausted;
        }
        self.kept = next.shift(count);
        meter.tick();
        Decision::Bit(bit)
    }
}

/// Whether the bit is the more probable one, and nothing is shifted in: most decisions are so.
fn is_quiet(z: u32, code: u32, spare: u32, ended: bool) -> bool
    ensures { result ≡ (nat_lt z 0x8000 && nat_le z code && not (nat_lt spare 208 && not ended)) }
{
    z < 0x8000 && z <= code && !lacks_bytes(spare, ended)
}

/// Whether fewer than 32 bits follow those that were shifted in, and more may come.
fn lacks_bytes(spare: u32, ended: bool) -> bool
    ensures { result ≡ (nat_lt spare 208 && not ended) }
{
    spare < 208 && !ended
}

/// The bit of a code with this z: below it lies the less probable one.
fn bit_of(z: u32, code: u32, probable: bool) -> bool
    ensures { result ≡ (if nat_lt code z then not probable else probable) }
{
    if code < z { !probable } else { probable }
}

/// The state of a context after this answer to a decision with this z: without a bit it stays.
fn state_after(answer: Decision, row: Row, state: u8, z: u32, a: u32, code: u32) -> u8
    ensures bit { (bit : Bool) → answer ≡ Decision.Bit bit → result ≡ next_state row state z (interval a code 0) }
    ensures needs { answer ≡ Decision.NeedBytes → result ≡ state }
    ensures exhausted { answer ≡ Decision.Exhausted → result ≡ state }
    ensures row { (result ≡ state) ⊎ (result ≡ row.up) ⊎ (result ≡ row.dn) }
{
    match answer {
        Decision::Bit(_) => next_state(row, state, z, a, code),
        Decision::NeedBytes => state,
        Decision::Exhausted => state,
    }
}
