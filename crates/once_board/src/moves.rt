//! How seats of a board's table are split, joined and told. Each of these goes by a load on the word beside the places.
ghost use Rattle.std.specs.Prelude.{◌≡◌, ℕ, ◌≤◌, ◌<◌, [], Some};
ghost use Rattle.once_board.specs.declared.holds.Stage.TheVariants.{Idle, Joined};
ghost use Rattle.once_board.specs.Numbers.{times};
ghost use Rattle.once_board.specs.Holds.{joined, rights_and_records, told, IsLawful};
ghost use Rattle.once_board.specs.Rule.{Met};
ghost use Rattle.once_board.specs.Told.{IsSound, seen, idle, cut_kept, cut_off};

use crate::rule::{
    Chosen, Cuts, JoinsRights, JoinsSeats, Owned, Settles, SplitsRights, SplitsRightsBack,
};
use crate::steps::{TableSeat, Words};
use djvu_base::Share;

/// Splits a seat off, with this right or none.
pub(crate) fn split_seat<T: Share, C: Chosen>(
    table: &Words<T>,
    seat: &mut TableSeat<T>,
    right: Option<u32>,
) -> TableSeat<T>
    requires board { (seat.old.table_id ≡ table.now.table_id) × (0 < table.now.table_id.words) }
    requires chosen { right ≡ C.right }
    requires idle { (seat.old.me.0.stage ≡ Idle) × (seat.old.me.1 ≡ []) }
    requires held { (r : ℕ) → right ≡ Some r → 1 ≤ times r seat.old.me.0.hold.rights }
    ensures same { (seat.new.table_id ≡ seat.old.table_id) × (result.table_id ≡ seat.old.table_id) }
    ensures kept { seat.new.me ≡ (cut_kept right seat.old.me.0, []) }
    ensures off { result.me ≡ (cut_off right seat.old.me.0, []) }
{
    let _ = right;
    table.split_seat::<Cuts<C>>(seat)
}

/// Joins another seat into a seat.
pub(crate) fn join_seats<T: Share, O: Owned>(
    table: &Words<T>,
    seat: &mut TableSeat<T>,
    other: TableSeat<T>,
)
    requires board { (seat.old.table_id ≡ table.now.table_id) × (other.table_id ≡ table.now.table_id) }
    requires words { 0 < table.now.table_id.words }
    requires key { table.now.key ≡ O.owners }
    requires idle { (seat.old.me.0.stage ≡ Idle) × (seat.old.me.1 ≡ []) }
    requires other { (other.me.0.stage ≡ Idle) × (other.me.1 ≡ []) }
    ensures same { seat.new.table_id ≡ seat.old.table_id }
    ensures joined { seat.new.me ≡ (idle (joined seat.old.me.0.hold other.me.0.hold), []) }
    ensures met { Met O.owners seat.old.me.0.hold other.me.0.hold seat.new.me.0.hold }
    ensures sound { IsSound T.fits seat.new.me.0.hold }
{
    table.join_seat::<JoinsSeats>(seat, other);
    table.load::<Settles<O>>(seat, 0);
}

/// Brings what one seat knows to another, with its rights, and takes the rights back.
fn tell_under_rights<T: Share>(table: &Words<T>, to: &mut TableSeat<T>, from: &mut TableSeat<T>)
    requires board { (to.old.table_id ≡ table.now.table_id) × (from.old.table_id ≡ table.now.table_id) × (0 < table.now.table_id.words) }
    requires to { (to.old.me.0.stage ≡ Idle) × (to.old.me.1 ≡ []) }
    requires from { (from.old.me.0.stage ≡ Idle) × (from.old.me.1 ≡ []) }
    requires lawful { IsLawful from.old.me.0.hold }
    ensures same { (to.new.table_id ≡ to.old.table_id) × (from.new.table_id ≡ from.old.table_id) }
    ensures to { to.new.me ≡ (seen (told to.old.me.0.hold from.old.me.0.hold) (Joined to.old.me.0.hold (rights_and_records from.old.me.0.hold)), []) }
    ensures from { from.new.me ≡ (idle from.old.me.0.hold, []) }
{
    let rights = table.split_seat::<SplitsRights>(from);
    table.join_seat::<JoinsSeats>(to, rights);
    let back = table.split_seat::<SplitsRightsBack>(to);
    table.join_seat::<JoinsRights>(from, back);
}

/// Tells one seat what another knows. Nothing else moves.
pub(crate) fn tell_seat<T: Share, O: Owned>(
    table: &Words<T>,
    to: &mut TableSeat<T>,
    from: &mut TableSeat<T>,
)
    requires board { (to.old.table_id ≡ table.now.table_id) × (from.old.table_id ≡ table.now.table_id) }
    requires words { 0 < table.now.table_id.words }
    requires key { table.now.key ≡ O.owners }
    requires to { (to.old.me.0.stage ≡ Idle) × (to.old.me.1 ≡ []) }
    requires from { (from.old.me.0.stage ≡ Idle) × (from.old.me.1 ≡ []) }
    requires lawful { IsLawful from.old.me.0.hold }
    ensures same { (to.new.table_id ≡ to.old.table_id) × (from.new.table_id ≡ from.old.table_id) }
    ensures to { to.new.me ≡ (idle (told to.old.me.0.hold from.old.me.0.hold), []) }
    ensures from { from.new.me ≡ (idle from.old.me.0.hold, []) }
    ensures met { Met O.owners to.old.me.0.hold (rights_and_records from.old.me.0.hold) to.new.me.0.hold }
    ensures sound { IsSound T.fits to.new.me.0.hold }
{
    tell_under_rights(table, to, from);
    table.load::<Settles<O>>(to, 0);
}
