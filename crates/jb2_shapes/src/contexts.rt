//! Contexts of pixels, under their numbers.
ghost use Rattle.std.specs.Prelude.{◌≡◌, ℕ, ◌<◌, ◌≤◌, length, List, Bool, Option, IfOk, replicate};
ghost use Rattle.zp_decoder.specs.Decision.{Interval, Adaptive, outcome_of, counted};
ghost use Rattle.zp_decoder.specs.Decoder.{Fed, room_left};
ghost use Rattle.zp_decoder.specs.States.{AreBelow, fresh, with_state};
ghost use Rattle.jb2_shapes.specs.Numbers.{number_limit, number_of, states_of, IsNumber};

use djvu_base::Meter;
use std::alloc::{AllocError, Global};
use std::marker::Model;
use zp_decoder::{Decision, ZpDecoder};

/// The states of all contexts of pixels: 1,024 for direct shapes, which are named by ten colours, and 2,048 for refined
/// ones, which are named by eleven. Contracts speak of them by `states_of contexts`, which gives the state of each name.
#[derive(Debug, Drop)]
pub struct ShapeContexts {
    /// Each under its number: the colours as binary digits behind a one.
    states: Vec<u8>,
}

impl Model for ShapeContexts {
    ghost use Rattle.std.specs.Prelude.{◌≡◌, length};
    ghost use Rattle.jb2_shapes.specs.Numbers.{Cells, number_limit};

    ghost Value = { Cells };

    ghost view = { λ a. record { cells = a.states.items } };

    ghost invariant = { λ a. length a.states.items ≡ number_limit };
}

impl ShapeContexts {
    /// Contexts at the beginning of a chunk, each in state 0.
    pub fn new(alloc: Global) -> Result<ShapeContexts, AllocError>
        ensures fresh { IfOk result (λ contexts. states_of contexts ≡ fresh) }
        ensures below { IfOk result (λ contexts. (count : ℕ) → 0 < count → AreBelow count (states_of contexts)) }
    {
        Ok(ShapeContexts {
            states: zeros(alloc, number_limit())?,
        })
    }

    /// Decides a bit in the context with a number, whose state moves.
    pub(crate) fn decode<M: Meter>(
        &mut self,
        number: usize,
        zp: &mut ZpDecoder,
        meter: &mut M,
    ) -> Decision
        requires number { IsNumber number }
        requires below { AreBelow (length zp.old.table) (states_of self.old) }
        ensures answer { (colours : List Bool) (payload : List ℕ) (place : Option Interval) → number_of colours ≡ number → Fed payload place zp.old →
            result ≡ (outcome_of zp.old.table (Adaptive (states_of self.old colours)) payload zp.old.ended place).answer }
        ensures fed { (colours : List Bool) (payload : List ℕ) (place : Option Interval) → number_of colours ≡ number → Fed payload place zp.old →
            Fed payload (outcome_of zp.old.table (Adaptive (states_of self.old colours)) payload zp.old.ended place).place zp.new }
        ensures states { (colours : List Bool) (payload : List ℕ) (place : Option Interval) → number_of colours ≡ number → Fed payload place zp.old →
            states_of self.new ≡ with_state (states_of self.old) colours (outcome_of zp.old.table (Adaptive (states_of self.old colours)) payload zp.old.ended place).state }
        ensures below { AreBelow (length zp.new.table) (states_of self.new) }
        ensures table { zp.new.table ≡ zp.old.table }
        ensures ended { zp.new.ended ≡ zp.old.ended }
        ensures room { room_left zp.new ≤ room_left zp.old }
        ensures ticks { M.count meter.new ≡ counted result (M.count meter.old) }
        ensures needs { result ≡ Decision.NeedBytes → (self.new ≡ self.old) × (zp.new ≡ zp.old) × (meter.new ≡ meter.old) }
        ensures exhausted { result ≡ Decision.Exhausted → (self.new ≡ self.old) × (zp.new ≡ zp.old) × (meter.new ≡ meter.old) }
    {
        zp.decode(&mut self.states[number], meter)
    }
}

/// So many numbers of contexts there are, some of which stay unused.
#[tactic(auto, unfolding(crate::specs::Numbers::number_limit))]
fn number_limit() -> usize
    ensures { result ≡ number_limit }
{
    4096
}

/// So many states 0.
fn zeros(alloc: Global, count: usize) -> Result<Vec<u8>, AllocError>
    ensures { IfOk result (λ states. states.items ≡ replicate count 0) }
{
    vec![in alloc; 0u8; count]
}
