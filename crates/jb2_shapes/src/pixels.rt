//! One pixel of a shape.
ghost use Rattle.std.specs.Prelude.{◌≡◌, ℕ, ◌<◌, ◌≤◌, length, List, Bool, Option, pos};
ghost use Rattle.bit_plane.specs.Pixels.{is_black};
ghost use Rattle.zp_decoder.specs.Decision.{Interval, Adaptive, outcome_of, counted};
ghost use Rattle.zp_decoder.specs.Decoder.{Fed, room_left};
ghost use Rattle.zp_decoder.specs.States.{AreBelow, with_state};
ghost use Rattle.jb2_shapes.specs.Numbers.{number_of, number_limit, states_of, IsNumber};
ghost use Rattle.jb2_shapes.specs.Shape.{IsUnread, column_of, row_of, with_pixel};

use crate::canvas::Canvas;
use crate::contexts::ShapeContexts;
use djvu_base::Meter;
use zp_decoder::{Decision, ZpDecoder};

/// Decides the next pixel in the context with a number.
pub(crate) fn read_pixel<M: Meter>(
    canvas: &mut Canvas,
    number: usize,
    contexts: &mut ShapeContexts,
    zp: &mut ZpDecoder,
    meter: &mut M,
) -> Decision
    requires unread { IsUnread canvas.old }
    requires number { IsNumber number }
    requires below { AreBelow (length zp.old.table) (states_of contexts.old) }
    ensures answer { (colours : List Bool) (payload : List ℕ) (place : Option Interval) → number_of colours ≡ number → Fed payload place zp.old →
        result ≡ (outcome_of zp.old.table (Adaptive (states_of contexts.old colours)) payload zp.old.ended place).answer }
    ensures fed { (colours : List Bool) (payload : List ℕ) (place : Option Interval) → number_of colours ≡ number → Fed payload place zp.old →
        Fed payload (outcome_of zp.old.table (Adaptive (states_of contexts.old colours)) payload zp.old.ended place).place zp.new }
    ensures states { (bit : Bool) → result ≡ Decision.Bit bit → (colours : List Bool) (payload : List ℕ) (place : Option Interval) → number_of colours ≡ number → Fed payload place zp.old →
        states_of contexts.new ≡ with_state (states_of contexts.old) colours (outcome_of zp.old.table (Adaptive (states_of contexts.old colours)) payload zp.old.ended place).state }
    ensures pixel { (bit : Bool) → result ≡ Decision.Bit bit → canvas.new ≡ with_pixel canvas.old bit }
    ensures colour { (bit : Bool) → result ≡ Decision.Bit bit → is_black canvas.new.shape (pos (column_of canvas.old)) (pos (row_of canvas.old)) ≡ bit }
    ensures below { AreBelow (length zp.new.table) (states_of contexts.new) }
    ensures table { zp.new.table ≡ zp.old.table }
    ensures ended { zp.new.ended ≡ zp.old.ended }
    ensures room { room_left zp.new ≤ room_left zp.old }
    ensures ticks { M.count meter.new ≡ counted result (M.count meter.old) }
    ensures needs { result ≡ Decision.NeedBytes → (canvas.new ≡ canvas.old) × (contexts.new ≡ contexts.old) × (zp.new ≡ zp.old) × (meter.new ≡ meter.old) }
    ensures exhausted { result ≡ Decision.Exhausted → (canvas.new ≡ canvas.old) × (contexts.new ≡ contexts.old) × (zp.new ≡ zp.old) × (meter.new ≡ meter.old) }
{
    match contexts.decode(number, zp, meter) {
        Decision::Bit(black) => {
            canvas.put(black);
            Decision::Bit(black)
        }
        Decision::NeedBytes => Decision::NeedBytes,
        Decision::Exhausted => Decision::Exhausted,
    }
}
