//! The steps of a board on its table. A seat here is one of the table, between two calls of the board: it holds no slot.
ghost use Rattle.std.specs.Prelude.{◌≡◌, ◌≢◌, ℕ, suc, ◌≤◌, ◌<◌, [], None};
ghost use Rattle.once_board.specs.declared.holds.Stage.TheVariants.{Idle};
ghost use Rattle.once_board.specs.Numbers.{times};
ghost use Rattle.once_board.specs.Places.{record_of};
ghost use Rattle.once_board.specs.Holds.{MayClaim, put_at};
ghost use Rattle.once_board.specs.Told.{Claimed, IsSound, idle};

use crate::holds::Seen;
use crate::owners::Owner;
use crate::rule::{Claims, Fills, OnceRule, Owned, Puts};
use atomic_table::{Seat, Shared};
use djvu_base::{Items, Share};

/// The table as all seats see it.
pub(crate) type Words<T> = Shared<Option<T>, Seen<T>, Items<Owner>, OnceRule>;

/// A seat of the table.
pub(crate) type TableSeat<T> = Seat<Option<T>, Seen<T>>;

/// Exchanges 0 for 1 at a place, and tells the word that was there.
pub(crate) fn claim_word<T: Share, O: Owned>(
    table: &Words<T>,
    seat: &mut TableSeat<T>,
    place: u32,
) -> u64
    requires board { (seat.old.table_id ≡ table.now.table_id) × (table.now.table_id.words ≡ suc table.now.table_id.slots) × (table.now.key ≡ O.owners) }
    requires place { place < table.now.table_id.slots }
    requires idle { seat.old.me.0.stage ≡ Idle }
    requires part { 1 ≤ seat.old.me.0.hold.parts }
    requires may { MayClaim O.owners place seat.old.me.0.hold }
    ensures same { (seat.new.table_id ≡ seat.old.table_id) × (seat.new.id ≡ seat.old.id) }
    ensures told { Claimed T.fits O.owners place result seat.old.me seat.new.me }
{
    table.compare_exchange::<Claims<O>>(seat, place as usize + 1, 0, 1)
}

/// Takes the empty slot of a claimed place, fills it and opens the place.
pub(crate) fn fill_place<T: Share>(table: &Words<T>, seat: &mut TableSeat<T>, place: u32, value: T)
    requires board { (seat.old.table_id ≡ table.now.table_id) × (table.now.table_id.words ≡ suc table.now.table_id.slots) }
    requires place { place < table.now.table_id.slots }
    requires idle { (seat.old.me.0.stage ≡ Idle) × (seat.old.me.1 ≡ []) }
    requires claimed { 1 ≤ times place seat.old.me.0.hold.claims }
    requires unfilled { (record_of seat.old.me.0.hold.places place).value ≡ None }
    requires fits { T.fits place value }
    ensures same { (seat.new.table_id ≡ seat.old.table_id) × (seat.new.id ≡ seat.old.id) }
    ensures put { seat.new.me ≡ (idle (put_at place value seat.old.me.0.hold), []) }
    ensures sound { IsSound T.fits seat.new.me.0.hold }
{
    let index = place as usize;
    table.load::<Fills>(seat, index + 1);
    match table.exchange(seat, index, Some(value)) {
        None => {}
        Some(_) => unreachable!(),
    }
    table.store::<Puts>(seat, index + 1, 2);
}
