//! How a seat of a board's table takes the turn of a place, shares the value and gives the turn back.
ghost use Rattle.std.specs.Prelude.{◌≡◌, suc, ◌<◌, [], ◌∷◌, IfOk, Some};
ghost use Rattle.once_board.specs.declared.holds.Stage.TheVariants.{Idle, Turn};
ghost use Rattle.once_board.specs.Told.{Looked, GivesBack, IsSound};

use crate::rule::{Learns, Looks, Owned};
use crate::steps::{TableSeat, Words};
use djvu_base::Share;
use std::alloc::AllocError;

/// Exchanges 2 for 3 at a place, and tells the word that was there. Where it was 2, the seat has the value's slot.
pub(crate) fn take_turn<T: Share, O: Owned>(
    table: &Words<T>,
    seat: &mut TableSeat<T>,
    place: u32,
) -> u64
    requires board { (seat.old.table_id ≡ table.now.table_id) × (table.now.table_id.words ≡ suc table.now.table_id.slots) × (table.now.key ≡ O.owners) }
    requires place { place < table.now.table_id.slots }
    requires idle { seat.old.me.0.stage ≡ Idle }
    ensures same { (seat.new.table_id ≡ seat.old.table_id) × (seat.new.id ≡ seat.old.id) }
    ensures told { Looked T.fits O.owners place result seat.old.me seat.new.me }
{
    table.compare_exchange::<Looks<O>>(seat, place as usize + 1, 2, 3)
}

/// Takes the value out of its slot, shares it and puts it in again.
fn copy_value<T: Share>(
    table: &Words<T>,
    seat: &mut TableSeat<T>,
    place: u32,
) -> Result<T, AllocError>
    requires board { seat.old.table_id ≡ table.now.table_id }
    requires turn { (x : T) × (seat.old.me.1 ≡ (place, Some x) ∷ []) }
    ensures same { (seat.new.table_id ≡ seat.old.table_id) × (seat.new.me ≡ seat.old.me) }
    ensures copy { IfOk result (λ x. seat.old.me.1 ≡ (place, Some x) ∷ []) }
{
    let index = place as usize;
    let Some(value) = table.exchange(seat, index, None) else {
        unreachable!()
    };
    let copy = value.share();
    match table.exchange(seat, index, Some(value)) {
        None => {}
        Some(_) => unreachable!(),
    }
    copy
}

/// Shares the value whose turn the seat has, and gives the turn back. The seat knows the value then, also where the share
/// was refused.
pub(crate) fn share_value<T: Share>(
    table: &Words<T>,
    seat: &mut TableSeat<T>,
    place: u32,
) -> Result<T, AllocError>
    requires board { (seat.old.table_id ≡ table.now.table_id) × (table.now.table_id.words ≡ suc table.now.table_id.slots) }
    requires place { place < table.now.table_id.slots }
    requires turn { (x : T) × (seat.old.me.0.stage ≡ Turn place x) × (seat.old.me.1 ≡ (place, Some x) ∷ []) }
    ensures same { seat.new.table_id ≡ seat.old.table_id }
    ensures learned { (x : T) × GivesBack place seat.old.me seat.new.me x × IfOk result (λ copy. copy ≡ x) }
    ensures sound { IsSound T.fits seat.new.me.0.hold }
{
    let copy = copy_value(table, seat, place);
    table.store::<Learns>(seat, place as usize + 1, 2);
    copy
}
